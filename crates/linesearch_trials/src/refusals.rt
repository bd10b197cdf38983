// What a search starts from, and the tests of `strong_wolfe`.
ghost use Rattle.std.specs.Prelude.{◌≡◌, ◌≤◌};
ghost use Rattle.protocol.specs.Protocol.{as_result};
ghost use Rattle.linesearch_trials.specs.Start.{line_from_of, options_refusal_of, counts_refusal_of, line_refusal_of};

use crate::Line;
use protocol::{Refusal, WolfeOptions};

// The line from x along d, where the value is f and the gradient g.
#[tactic(auto, unfolding(crate::specs::Start::line_from_of))]
pub fn line_from(x: [f64; 16], d: [f64; 16], f: f64, g: [f64; 16], n: usize) -> Line
    requires { n ≤ 16 }
    ensures { result ≡ line_from_of x d f g n }
{
    let slope = vector::dot(g, d, n);
    Line { x, g, d, f, slope }
}

// Refusals 5, 6 and 7: of c1 or c2, of the count of trials, of the largest step.
#[tactic(auto, unfolding(crate::specs::Start::options_refusal_of, protocol::specs::Protocol::as_result))]
pub fn options_refusal(o: WolfeOptions) -> Result<(), Refusal>
    ensures { result ≡ as_result (options_refusal_of o) }
{
    if !(0.0 < o.c1) {
        return Err(Refusal::new(5, 1));
    }
    if !(o.c1 < 1.0) {
        return Err(Refusal::new(5, 1));
    }
    if !(o.c1 < o.c2) {
        return Err(Refusal::new(5, 2));
    }
    if !(o.c2 < 1.0) {
        return Err(Refusal::new(5, 2));
    }
    if o.evals == 0 {
        return Err(Refusal::new(6, 0));
    }
    if !float::positive(o.stepmax) {
        return Err(Refusal::new(7, 0));
    }
    Ok(())
}

// Refusals 9, 10 and 11, by the counts of coordinates that were lent.
#[tactic(auto, unfolding(crate::specs::Start::counts_refusal_of, protocol::specs::Protocol::as_result))]
pub fn counts_refusal(n: usize, dcount: usize, gcount: usize) -> Result<(), Refusal>
    ensures { result ≡ as_result (counts_refusal_of n dcount gcount) }
{
    if n == 0 {
        return Err(Refusal::new(9, 0));
    }
    if dcount != n {
        return Err(Refusal::new(10, 0));
    }
    if gcount != n {
        return Err(Refusal::new(11, 0));
    }
    Ok(())
}

// Refusals 12, 13 and 14: of what is not finite, of the first step, of a line that does not descend.
#[tactic(auto, unfolding(crate::specs::Start::line_refusal_of, protocol::specs::Protocol::as_result))]
pub fn line_refusal(n: usize, l: Line, step: f64) -> Result<(), Refusal>
    requires { n ≤ 16 }
    ensures { result ≡ as_result (line_refusal_of n l step) }
{
    if !vector::all_finite(l.x, n) {
        return Err(Refusal::new(12, 1));
    }
    if !vector::all_finite(l.d, n) {
        return Err(Refusal::new(12, 2));
    }
    if !vector::all_finite(l.g, n) {
        return Err(Refusal::new(12, 3));
    }
    if !float::is_finite(l.f) {
        return Err(Refusal::new(12, 4));
    }
    if !float::positive(step) {
        return Err(Refusal::new(13, 0));
    }
    if 0.0 <= l.slope {
        return Err(Refusal::new(14, 0));
    }
    Ok(())
}
