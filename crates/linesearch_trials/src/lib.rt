// The trials of a line search: the tests on a trial and the step between two, which see steps, values and slopes
// and no coordinates; how a trial is made at a point of the line, in `evaluations`; and what refuses a start, in
// `refusals`. The record of a search is above, in `linesearch_moves`.
#![tactic(auto)]

mod evaluations;
mod refusals;

ghost use Rattle.std.specs.Prelude.{◌≡◌};
ghost use Rattle.linesearch_trials.specs.Cubic.{midpoint_of, near_end_of, d1_of, minimiser_of, interpolate_of};
ghost use Rattle.linesearch_trials.specs.Trials.{start_of, armijo_of, curvature_of, narrow_of};

use protocol::WolfeOptions;
pub use refusals::{counts_refusal, line_from, line_refusal, options_refusal};

// How near to an end of its bracket a trial may not come, in widths of the bracket.
const MARGIN: f64 = 0.05;
// At this width or below, relative to the larger end or to 1, no step between the ends is left.
const MIN_REL_WIDTH: f64 = 1e-14;

// The step of a trial, with the value and the slope there.
#[derive(Clone, Copy, Default)]
pub struct Trial {
    pub step: f64,
    pub value: f64,
    pub slope: f64,
}

// A trial with its point and its gradient.
#[derive(Clone, Copy, Default)]
pub struct Evaluation {
    pub trial: Trial,
    pub x: [f64; 16],
    pub g: [f64; 16],
}

// Where the search starts: point, gradient and value, and the direction with its slope.
#[derive(Clone, Copy, Default)]
pub struct Line {
    pub x: [f64; 16],
    pub g: [f64; 16],
    pub d: [f64; 16],
    pub f: f64,
    pub slope: f64,
}

// What the start fixes: the count of coordinates, whether the objective gives gradients, the options.
#[derive(Clone, Copy)]
pub struct Fixed {
    pub n: usize,
    pub gradients: bool,
    pub options: WolfeOptions,
}

// What a search does not change: what its start fixes, and the line.
#[derive(Clone, Copy)]
pub struct Setup {
    pub fixed: Fixed,
    pub line: Line,
}

// Whether a is not finite, or does not lie between two steps with more than the margin to either.
#[tactic(auto, unfolding(crate::specs::Cubic::near_end_of))]
fn near_end(a: f64, p: f64, q: f64) -> bool
    ensures { result ≡ near_end_of a p q }
{
    let lo = float::min(p, q);
    let hi = float::max(p, q);
    let margin = MARGIN * (hi - lo);
    !float::is_finite(a) || a <= lo + margin || a >= hi - margin
}

// Two trials, in order: the low end of a bracket and its high end.
impl Trial {
    #[tactic(auto, unfolding(crate::specs::Cubic::midpoint_of))]
    fn midpoint(self, hi: Trial) -> f64
        ensures { result ≡ midpoint_of self hi }
    {
        0.5 * (self.step + hi.step)
    }

    #[tactic(auto, unfolding(crate::specs::Cubic::d1_of))]
    fn d1(self, hi: Trial) -> f64
        ensures { result ≡ d1_of self hi }
    {
        self.slope + hi.slope - 3.0 * (self.value - hi.value) / (self.step - hi.step)
    }

    // The minimiser of the cubic with this discriminant, or the midpoint.
    #[tactic(auto, unfolding(crate::specs::Cubic::minimiser_of))]
    fn minimiser(self, hi: Trial, d1: f64, disc: f64) -> f64
        ensures { result ≡ minimiser_of self hi d1 disc }
    {
        let width = hi.step - self.step;
        let d2 = float::signum(width) * float::sqrt(disc);
        let denom = hi.slope - self.slope + 2.0 * d2;
        if denom == 0.0 || !float::is_finite(denom) {
            return self.midpoint(hi);
        }
        let a = hi.step - width * (hi.slope + d2 - d1) / denom;
        if near_end(a, self.step, hi.step) {
            return self.midpoint(hi);
        }
        a
    }

    // The step of the next trial between two.
    #[tactic(auto, unfolding(crate::specs::Cubic::interpolate_of))]
    pub fn interpolate(self, hi: Trial) -> f64
        ensures { result ≡ interpolate_of self hi }
    {
        if !float::is_finite(self.value)
            || !float::is_finite(hi.value)
            || !float::is_finite(self.slope)
            || !float::is_finite(hi.slope)
        {
            return self.midpoint(hi);
        }
        let d1 = self.d1(hi);
        let disc = d1 * d1 - self.slope * hi.slope;
        if disc < 0.0 {
            return self.midpoint(hi);
        }
        self.minimiser(hi, d1, disc)
    }

    // Whether no step between the two is left.
    #[tactic(auto, unfolding(crate::specs::Trials::narrow_of))]
    pub fn narrow(self, hi: Trial) -> bool
        ensures { result ≡ narrow_of self hi }
    {
        let largest = float::max(float::abs(self.step), float::abs(hi.step));
        float::abs(hi.step - self.step) <= MIN_REL_WIDTH * float::max(largest, 1.0)
    }
}

impl Line {
    // The trial at step 0.
    #[tactic(auto, unfolding(crate::specs::Trials::start_of))]
    pub fn start(&self) -> Trial
        ensures { result ≡ start_of self.now }
    {
        Trial {
            step: 0.0,
            value: self.f,
            slope: self.slope,
        }
    }

    // Whether the value has decreased enough.
    #[tactic(auto, unfolding(crate::specs::Trials::armijo_of))]
    pub fn armijo(&self, o: WolfeOptions, t: Trial) -> bool
        ensures { result ≡ armijo_of o self.now t }
    {
        t.value <= self.f + o.c1 * t.step * self.slope
    }

    // Whether the slope is flat enough.
    #[tactic(auto, unfolding(crate::specs::Trials::curvature_of))]
    pub fn curvature(&self, o: WolfeOptions, t: Trial) -> bool
        ensures { result ≡ curvature_of o self.now t }
    {
        float::is_finite(t.slope) && float::abs(t.slope) <= -o.c2 * self.slope
    }
}
