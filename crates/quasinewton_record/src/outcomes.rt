// What follows a search: the record after its step, and the tests after it.
ghost use Rattle.std.specs.Prelude.{◌≡◌, ◌≤◌};
ghost use Rattle.quasinewton_record.specs.Outcomes.{lower_of, missed_of, pair_step_of, pair_change_of, stepped_of, tested_of};

use crate::formulas::{small_decrease, small_step};
use crate::{AT_HEAD, BY_FUNCTION, BY_GRADIENT_FAILED, BY_SEARCH, BY_STEP, Descent, Fixed};
use linesearch::Evaluation;

impl Descent {
    // The fit ends; a lower value is kept.
    #[tactic(auto, unfolding(crate::specs::Outcomes::lower_of))]
    fn lower(mut self, phase: u64, t: &Evaluation) -> Descent
        ensures { result ≡ lower_of self phase t.now }
    {
        let Evaluation { trial, x, .. } = *t;
        self.phase = phase;
        if trial.value < self.line.f {
            self.line.x = x;
            self.line.f = trial.value;
        }
        self
    }

    // The search has failed, with t as its best trial, or the start at step 0.
    #[tactic(auto, unfolding(crate::specs::Outcomes::missed_of))]
    pub fn missed(mut self, t: &Evaluation) -> Descent
        ensures { result ≡ missed_of self t.now }
    {
        if t.trial.step > 0.0 {
            return self.lower(BY_SEARCH, t);
        }
        self.phase = BY_SEARCH;
        self
    }

    // s of the pair: the step to the search's best trial. It and y differ in the field that is read: one function
    // for both would be no shorter.
    pub fn pair_step(&self, n: usize) -> [f64; 16]
        requires { n ≤ 16 }
        ensures { result ≡ pair_step_of self.now n }
    {
        vector::difference(self.search.best.x, self.line.x, n)
    }

    // y of the pair: the change of the gradient along that step.
    pub fn pair_change(&self, n: usize) -> [f64; 16]
        requires { n ≤ 16 }
        ensures { result ≡ pair_change_of self.now n }
    {
        vector::difference(self.search.best.g, self.line.g, n)
    }

    // The record after the step to t.
    #[tactic(auto, unfolding(crate::specs::Outcomes::stepped_of))]
    fn stepped(mut self, t: &Evaluation) -> Descent
        ensures { result ≡ stepped_of self t.now }
    {
        let Evaluation { trial, x, g } = *t;
        self.phase = AT_HEAD;
        self.first = false;
        self.line.x = x;
        self.line.g = g;
        self.line.f = trial.value;
        self
    }

    // The search has met both conditions at t: its gradient, then the tests after a step. Past them the record
    // is at the next head.
    #[tactic(auto, unfolding(crate::specs::Outcomes::tested_of))]
    pub fn tested(self, fixed: Fixed, t: &Evaluation) -> Descent
        requires { fixed.n ≤ 16 }
        ensures { result ≡ tested_of fixed self t.now }
    {
        let o = fixed.options;
        if !vector::all_finite(t.g, fixed.n) {
            return self.lower(BY_GRADIENT_FAILED, t);
        }
        let mut next = self.stepped(t);
        if small_decrease(o.ftol, self.line.f, t.trial.value) {
            next.phase = BY_FUNCTION;
            return next;
        }
        if small_step(o.xtol, self.line.x, t.x, fixed.n) {
            next.phase = BY_STEP;
            return next;
        }
        next
    }
}
