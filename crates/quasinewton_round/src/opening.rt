// The opening of a fit: its first value, then its first gradient. `linesearch` has moves of the same names within a
// search. What is done with a value and a gradient differs; `differing` alone is alike, but for the record, the phase
// and what then takes the gradient: one form for both would be given all three, and be longer than the two.
ghost use Rattle.std.specs.Prelude.{◌≡◌, ◌≤◌};
ghost use Rattle.quasinewton_round.specs.Opening.{graded_of, differing_of, valued_of};

use objective::Differences;
use protocol::Refusal;
use quasinewton_record::{AT_HEAD, Descent, FIRST_DIFFERENCES, FIRST_GRADIENT, Fixed};

// The first gradient is g.
#[tactic(auto, unfolding(crate::specs::Opening::graded_of))]
pub fn graded(fixed: Fixed, mut q: Descent, g: [f64; 16]) -> Descent
    requires { fixed.n ≤ 16 }
    ensures { result ≡ graded_of fixed q g }
{
    q.phase = AT_HEAD;
    q.line.g = g;
    if vector::all_finite(g, fixed.n) {
        return q;
    }
    q.refused_by(Refusal::new(19, 0))
}

// The differences have a question, or are done.
#[tactic(auto, unfolding(crate::specs::Opening::differing_of))]
pub fn differing(fixed: Fixed, mut q: Descent, e: Differences) -> Descent
    requires { fixed.n ≤ 16 }
    ensures { result ≡ differing_of fixed q e }
{
    if e.at < fixed.n {
        q.phase = FIRST_DIFFERENCES;
        q.diff = e;
        return q;
    }
    graded(fixed, q, e.g)
}

// The first value is v.
#[tactic(auto, unfolding(crate::specs::Opening::valued_of))]
pub fn valued(fixed: Fixed, mut q: Descent, v: f64) -> Descent
    requires { fixed.n ≤ 16 }
    ensures { result ≡ valued_of fixed q v }
{
    q.phase = FIRST_GRADIENT;
    q.line.f = v;
    if !float::is_finite(v) {
        return q.refused_by(Refusal::new(18, 0));
    }
    if fixed.options.gradients {
        return q;
    }
    differing(fixed, q, Differences::begun(q.line.x))
}
