// The decisions of a strong Wolfe search, when the trial in hand is made.
ghost use Rattle.std.specs.Prelude.{◌≡◌};
ghost use Rattle.linesearch_moves.specs.Bracketing.{bracketed_of, zoomed_of, decided_of};

use crate::Search;
use linesearch_trials::{Evaluation, Setup};

impl Search {
    // Algorithm 3.5.
    #[tactic(auto, unfolding(crate::specs::Bracketing::bracketed_of))]
    fn bracketed(mut self, setup: &Setup, t: Evaluation) -> Search
        ensures { result ≡ bracketed_of setup.now.fixed setup.now.line self t }
    {
        let o = setup.fixed.options;
        let u = t.trial;
        let p = self.preceding(&setup.line);
        if !setup.line.armijo(o, u) || self.risen(u) {
            return self.zoom(setup, p, u);
        }
        if setup.line.curvature(o, u) {
            return self.success(t);
        }
        if !float::is_finite(u.slope) || u.slope >= 0.0 {
            return self.zoom(setup, u, p);
        }
        if self.step >= o.stepmax {
            return self.failure(&setup.line);
        }
        self.previous = true;
        self.lo = u;
        self.bracket(setup, float::min(2.0 * self.step, o.stepmax))
    }

    // Algorithm 3.6.
    #[tactic(auto, unfolding(crate::specs::Bracketing::zoomed_of))]
    fn zoomed(self, setup: &Setup, t: Evaluation) -> Search
        ensures { result ≡ zoomed_of setup.now.fixed setup.now.line self t }
    {
        let o = setup.fixed.options;
        let u = t.trial;
        if !setup.line.armijo(o, u) || u.value >= self.lo.value {
            return self.zoom(setup, self.lo, u);
        }
        if setup.line.curvature(o, u) {
            return self.success(t);
        }
        if !float::is_finite(u.slope) {
            return self.zoom(setup, self.lo, u);
        }
        if u.slope * (self.hi.step - self.lo.step) >= 0.0 {
            return self.zoom(setup, u, self.lo);
        }
        self.zoom(setup, u, self.hi)
    }

    // The trial in hand is t.
    #[tactic(auto, unfolding(crate::specs::Bracketing::decided_of))]
    pub fn decided(self, setup: &Setup, t: Evaluation) -> Search
        ensures { result ≡ decided_of setup.now.fixed setup.now.line self t }
    {
        let next = self.keep(t);
        if self.zooming {
            return next.zoomed(setup, t);
        }
        next.bracketed(setup, t)
    }
}
