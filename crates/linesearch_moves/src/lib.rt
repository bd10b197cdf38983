// The record of a strong Wolfe search, its moves to the next trial or the end, and its decisions when the
// trial in hand is made.
#![tactic(auto)]

mod bracketing;

ghost use Rattle.std.specs.Prelude.{◌≡◌, ◌<◌};
ghost use Rattle.linesearch_moves.specs.Searches.{preceding_of, risen_of, lower_of, keep_of, failure_of, success_of, eval_of, zoom_of, bracket_of, no_trial};

use linesearch_trials::{Evaluation, Line, Setup, Trial};
use objective::Differences;

// The phases of a search: numbers and no enum, since the record crosses to C as plain numbers, of which any may
// come. What is asked for: the trial's value, its gradient, or a value for its differences.
pub const ASKS_VALUE: u64 = 1;

pub const ASKS_GRADIENT: u64 = 2;

pub const ASKS_DIFFERENCE: u64 = 3;
// The search has ended, with both conditions met or not.
pub const FOUND: u64 = 4;

pub const FAILED: u64 = 5;

// The search as far as it has come: what is asked for; whether it zooms, between `lo` and `hi`, or
// doubles, with `lo` as the trial before where `previous` says that there is one; trials made, with the
// one in hand, of which the step and then the value; the best trial where `kept` says that there is one,
// at the end the outcome; and the differences. What has not been in use is zero. The flags stand beside
// what they speak of, and are no Option, for C too.
#[derive(Clone, Copy)]
pub struct Search {
    pub phase: u64,
    pub zooming: bool,
    pub trials: u64,
    pub previous: bool,
    pub lo: Trial,
    pub hi: Trial,
    pub step: f64,
    pub value: f64,
    pub kept: bool,
    pub best: Evaluation,
    pub diff: Differences,
}

impl Search {
    // Before the first trial.
    pub fn no_trial() -> Search
        ensures { result ≡ no_trial }
    {
        Search {
            phase: ASKS_VALUE,
            zooming: false,
            trials: 0,
            previous: false,
            lo: Trial::default(),
            hi: Trial::default(),
            step: 0.0,
            value: 0.0,
            kept: false,
            best: Evaluation::default(),
            diff: Differences::begun([0.0; 16]),
        }
    }

    // The trial before the one in hand, or the start of the line.
    #[tactic(auto, unfolding(crate::specs::Searches::preceding_of))]
    pub fn preceding(&self, line: &Line) -> Trial
        ensures { result ≡ preceding_of line.now self.now }
    {
        if self.previous { self.lo } else { line.start() }
    }

    // Whether there is a trial before, and its value is not above that of t.
    #[tactic(auto, unfolding(crate::specs::Searches::risen_of))]
    pub fn risen(&self, t: Trial) -> bool
        ensures { result ≡ risen_of self.now t }
    {
        self.previous && t.value >= self.lo.value
    }

    // Whether the best gives way to t, or there is none.
    #[tactic(auto, unfolding(crate::specs::Searches::lower_of))]
    fn lower(&self, t: &Evaluation) -> bool
        ensures { result ≡ lower_of self.now t.now }
    {
        !self.kept || t.trial.value < self.best.trial.value
    }

    // The best finite trial, the first on ties.
    #[tactic(auto, unfolding(crate::specs::Searches::keep_of))]
    pub fn keep(mut self, t: Evaluation) -> Search
        ensures { result ≡ keep_of self t }
    {
        if float::is_finite(t.trial.value) && self.lower(&t) {
            self.kept = true;
            self.best = t;
        }
        self
    }

    // The best trial below the start, or else the start.
    #[tactic(auto, unfolding(crate::specs::Searches::failure_of))]
    pub fn failure(mut self, line: &Line) -> Search
        ensures { result ≡ failure_of line.now self }
    {
        self.phase = FAILED;
        if self.kept && self.best.trial.value < line.f {
            return self;
        }
        self.best = Evaluation {
            trial: line.start(),
            x: line.x,
            g: line.g,
        };
        self
    }

    // Both conditions are met at t.
    #[tactic(auto, unfolding(crate::specs::Searches::success_of))]
    pub fn success(mut self, t: Evaluation) -> Search
        ensures { result ≡ success_of self t }
    {
        self.phase = FOUND;
        self.best = t;
        self
    }

    // The next trial, at the step a: its value is asked for.
    #[tactic(auto, unfolding(crate::specs::Searches::eval_of))]
    fn eval(mut self, a: f64) -> Search
        requires { self.trials < 18446744073709551615 }
        ensures { result ≡ eval_of self a }
    {
        self.phase = ASKS_VALUE;
        self.trials += 1;
        self.step = a;
        self
    }

    // The next trial between lo and hi.
    #[tactic(auto, unfolding(crate::specs::Searches::zoom_of))]
    pub fn zoom(mut self, setup: &Setup, lo: Trial, hi: Trial) -> Search
        ensures { result ≡ zoom_of setup.now.fixed setup.now.line self lo hi }
    {
        self.zooming = true;
        self.lo = lo;
        self.hi = hi;
        if setup.fixed.options.evals <= self.trials || lo.narrow(hi) {
            return self.failure(&setup.line);
        }
        self.eval(lo.interpolate(hi))
    }

    // The next trial in doubling.
    #[tactic(auto, unfolding(crate::specs::Searches::bracket_of))]
    pub fn bracket(self, setup: &Setup, a: f64) -> Search
        ensures { result ≡ bracket_of setup.now.fixed setup.now.line self a }
    {
        if setup.fixed.options.evals <= self.trials {
            return self.failure(&setup.line);
        }
        self.eval(a)
    }
}
