// Trials with their points and gradients, made from the line.
ghost use Rattle.std.specs.Prelude.{◌≡◌, ◌≤◌};
ghost use Rattle.linesearch_trials.specs.Evaluations.{point_at_of, nans_of, evaluated_of, infeasible_of};

use crate::{Evaluation, Setup, Trial};

// The gradient of a trial whose value is not finite.
fn nans(n: usize) -> [f64; 16]
    requires { n ≤ 16 }
    ensures { result ≡ nans_of n }
{
    vector::filled(n, |i| 0.0 / 0.0)
}

impl Setup {
    // The point at a step.
    #[tactic(auto, unfolding(crate::specs::Evaluations::point_at_of))]
    pub fn point_at(&self, a: f64) -> [f64; 16]
        requires { self.now.fixed.n ≤ 16 }
        ensures { result ≡ point_at_of self.now.fixed self.now.line a }
    {
        vector::plus_scaled(self.line.x, a, self.line.d, self.fixed.n)
    }

    // The trial at the step a, where the value is v and the gradient g.
    #[tactic(auto, unfolding(crate::specs::Evaluations::evaluated_of))]
    pub fn evaluated(&self, a: f64, v: f64, g: [f64; 16]) -> Evaluation
        requires { self.now.fixed.n ≤ 16 }
        ensures { result ≡ evaluated_of self.now.fixed self.now.line a v g }
    {
        let x = self.point_at(a);
        let trial = Trial {
            step: a,
            value: v,
            slope: vector::dot(g, self.line.d, self.fixed.n),
        };
        Evaluation { trial, x, g }
    }

    // The trial at the step a, where the value is v and not finite, so that no gradient is asked for.
    pub fn infeasible(&self, a: f64, v: f64) -> Evaluation
        requires { self.now.fixed.n ≤ 16 }
        ensures { result ≡ infeasible_of self.now.fixed self.now.line a v }
    {
        let x = self.point_at(a);
        let g = nans(self.fixed.n);
        let trial = Trial {
            step: a,
            value: v,
            slope: 0.0 / 0.0,
        };
        Evaluation { trial, x, g }
    }
}
