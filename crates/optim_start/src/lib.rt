// The engine's starts: one for each job. Each looks for its refusals in 01's order, and gives the first record.
#![tactic(auto)]

ghost use Rattle.std.specs.Prelude.{◌≡◌, ◌≤◌, length};
ghost use Rattle.std.specs.Result.{IfOk};
ghost use Rattle.optim_record.specs.Record.{blank_of, outcome_of};
ghost use Rattle.optim_reply.specs.Standing.{refused_of};
ghost use Rattle.optim_reply.specs.Spoken.{refusal_of, spoken_by, spoken_in};
ghost use Rattle.optim_first_record.specs.Starts.{simplex_record_of, search_record_of, gradient_record_of};
ghost use Rattle.optim_start.specs.Start.{started_of, differences_of, simplex_of, search_of, gradient_of, bfgs_of, lbfgs_of};

use linesearch_trials::Line;
use optim_record::Answered;
use protocol::{Allowances, GradientOptions, Kind, Refusal, SimplexOptions, WolfeOptions};

// A start that is refused: its record means nothing. A start's record is made in the function that answers, and no arm of a match has it for
// a value: each such move of 11 kB costs a start a fifth of its time, and as much of the stack. A fit asks for the value at its point, which
// `standing` would find again.
fn refused(why: Refusal) -> Answered
    ensures outcome { outcome_of result ≡ refused_of blank_of why.number why.detail }
    ensures spoken { spoken_in result ≡ refusal_of why.number why.detail }
{
    optim_reply::answered(optim_reply::refused(why), optim_record::blank())
}

// Starts central differences at x. A list of more than sixteen is refused with 2; of none it ends at
// once with an empty gradient.
pub fn differences(x: &[f64]) -> Answered
    ensures outcome { outcome_of result ≡ differences_of x.now }
    ensures spoken { spoken_in result ≡ spoken_by (differences_of x.now) }
{
    if 16 < x.len() {
        return refused(Refusal::new(2, 0));
    }
    let r = optim_first_record::begun_record(x);
    optim_reply::answered(optim_reply::standing(&r), r)
}

// The point of a simplex fit at x.
fn first_simplex(x: &[f64], o: SimplexOptions, a: Allowances) -> Result<[f64; 16], Refusal>
    ensures begun { started_of (λ p. simplex_record_of p (length x.now) o a) result ≡ simplex_of x.now o a }
    ensures within { IfOk result (λ _. (length x.now ≤ 16) × (o.restarts ≤ 100)) }
{
    let n = x.len();
    optim_first_record::simplex_refusal(n, o, a)?;
    let point = vector::from_slice(x, n);
    if !vector::all_finite(point, n) {
        return Err(Refusal::new(12, 1));
    }
    Ok(point)
}

// Starts a simplex fit at x. It is refused with 2, 4, 8, 9 or 12, looked for in that order.
pub fn simplex(x: &[f64], o: SimplexOptions, a: Allowances) -> Answered
    ensures outcome { outcome_of result ≡ simplex_of x.now o a }
    ensures spoken { spoken_in result ≡ spoken_by (simplex_of x.now o a) }
{
    let point = match first_simplex(x, o, a) {
        Ok(point) => point,
        Err(why) => return refused(why),
    };
    let r = optim_first_record::simplex_record(point, x.len(), o, a);
    optim_reply::answered(optim_reply::asks(r.accepted, Kind::Value, point), r)
}

// The line of a search from x along d.
fn first_search(
    x: &[f64],
    d: &[f64],
    f0: f64,
    g: &[f64],
    step: f64,
    o: WolfeOptions,
    gradients: bool,
) -> Result<Line, Refusal>
    ensures begun { started_of (λ l. search_record_of l (length x.now) step o gradients) result ≡ search_of x.now d.now f0 g.now step o gradients }
    ensures within { IfOk result (λ _. length x.now ≤ 16) }
{
    let n = x.len();
    optim_first_record::search_refusal(n, d.len(), g.len(), o)?;
    let from = vector::from_slice(x, n);
    let along = vector::from_slice(d, n);
    let slopes = vector::from_slice(g, n);
    let line = linesearch::line_from(from, along, f0, slopes, n);
    linesearch::line_refusal(n, line, step)?;
    Ok(line)
}

// Starts a search from x along d, where the value is f0 and the gradient g, with the first step `step`. It
// is refused with 2, 5, 6, 7, or 9 to 14, looked for in that order.
pub fn search(
    x: &[f64],
    d: &[f64],
    f0: f64,
    g: &[f64],
    step: f64,
    o: WolfeOptions,
    gradients: bool,
) -> Answered
    ensures outcome { outcome_of result ≡ search_of x.now d.now f0 g.now step o gradients }
    ensures spoken { spoken_in result ≡ spoken_by (search_of x.now d.now f0 g.now step o gradients) }
{
    let n = x.len();
    let line = match first_search(x, d, f0, g, step, o, gradients) {
        Ok(line) => line,
        Err(why) => return refused(why),
    };
    let r = optim_first_record::search_record(line, n, step, o, gradients);
    optim_reply::answered(optim_reply::standing(&r), r)
}

// The point of a gradient fit at x, lbfgs where `limited`, a bool as in C's `fit_gradient_refusal`. This and `first_simplex` read the
// point and look for 12 alike: one function of those four lines would, with a contract and a proof of its own, be no shorter.
fn first_gradient(
    x: &[f64],
    o: GradientOptions,
    a: Allowances,
    limited: bool,
) -> Result<[f64; 16], Refusal>
    ensures begun { started_of (λ p. gradient_record_of p (length x.now) o a limited) result ≡ gradient_of x.now o a limited }
    ensures within { IfOk result (λ _. length x.now ≤ 16) }
{
    let n = x.len();
    optim_first_record::gradient_refusal(n, o, a, limited)?;
    let point = vector::from_slice(x, n);
    if !vector::all_finite(point, n) {
        return Err(Refusal::new(12, 1));
    }
    Ok(point)
}

// Starts a gradient fit at x.
fn gradient(x: &[f64], o: GradientOptions, a: Allowances, limited: bool) -> Answered
    ensures outcome { outcome_of result ≡ gradient_of x.now o a limited }
    ensures spoken { spoken_in result ≡ spoken_by (gradient_of x.now o a limited) }
{
    let point = match first_gradient(x, o, a, limited) {
        Ok(point) => point,
        Err(why) => return refused(why),
    };
    let r = optim_first_record::gradient_record(point, x.len(), o, a, limited);
    optim_reply::answered(optim_reply::asks(r.accepted, Kind::Value, point), r)
}

// Starts a fit by bfgs at x; its memory is passed over. It is refused with 2, 4, 5, 9 or 12, looked for in
// that order.
#[tactic(auto, unfolding(crate::specs::Start::bfgs_of))]
pub fn bfgs(x: &[f64], o: GradientOptions, a: Allowances) -> Answered
    ensures outcome { outcome_of result ≡ bfgs_of x.now o a }
    ensures spoken { spoken_in result ≡ spoken_by (bfgs_of x.now o a) }
{
    gradient(x, o, a, false)
}

// Starts a fit by lbfgs at x. It is refused with 2, 3, 4, 5, 9 or 12, looked for in that order.
#[tactic(auto, unfolding(crate::specs::Start::lbfgs_of))]
pub fn lbfgs(x: &[f64], o: GradientOptions, a: Allowances) -> Answered
    ensures outcome { outcome_of result ≡ lbfgs_of x.now o a }
    ensures spoken { spoken_in result ≡ spoken_by (lbfgs_of x.now o a) }
{
    gradient(x, o, a, true)
}
