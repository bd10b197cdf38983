// The records of starts, and the refusals that starts meet before their points are looked at.
#![tactic(auto)]

mod gradients;

ghost use Rattle.std.specs.Prelude.{◌≡◌, ◌≤◌, length};
ghost use Rattle.protocol.specs.Protocol.{as_result};
ghost use Rattle.protocol.specs.PastLimits.{excess};
ghost use Rattle.optim_first_record.specs.Starts.{begun_record_of, past_limits_of, simplex_refusal_of, simplex_limits_of, simplex_record_of, search_past_limits_of, search_refusal_of, begun_search_of, search_record_of};

pub use gradients::{gradient_record, gradient_refusal};
use linesearch::Line;
use optim_record::{Limits, MOST_ALLOWED, MOST_EVALS, MOST_RESTARTS, Record};
use protocol::{Allowances, DIFFERENCES, Refusal, SEARCH, SIMPLEX, SimplexOptions, WolfeOptions};
use quasinewton::Descent;
use quasinewton_record::SEARCHING;

// The first record of differences at the point that x lists.
#[tactic(auto, unfolding(crate::specs::Starts::begun_record_of, optim_record::specs::Record::blank_of))]
pub fn begun_record(x: &[f64]) -> Record
    requires { length x.now ≤ 16 }
    ensures { result ≡ begun_record_of x.now }
{
    let n = x.len();
    Record {
        job: DIFFERENCES,
        n,
        diff: objective::Differences::begun(vector::from_slice(x, n)),
        ..optim_record::blank()
    }
}

// Whether an allowance is above 1,000,000.
fn excess(a: Option<u64>) -> bool
    ensures { result ≡ excess a }
{
    a.is_some_and(|k| MOST_ALLOWED < k)
}

// Whether a start of a simplex fit meets refusal 2.
#[tactic(auto, unfolding(crate::specs::Starts::past_limits_of))]
fn past_limits(count: usize, o: SimplexOptions, a: Allowances) -> bool
    ensures { result ≡ past_limits_of count o a }
{
    16 < count || excess(a.iter) || excess(a.fevals) || MOST_RESTARTS < o.restarts
}

// The refusal that a start of a simplex fit of so many coordinates meets, before its point is looked at.
#[tactic(auto, unfolding(crate::specs::Starts::simplex_refusal_of, protocol::specs::Protocol::as_result))]
pub fn simplex_refusal(count: usize, o: SimplexOptions, a: Allowances) -> Result<(), Refusal>
    ensures { result ≡ as_result (simplex_refusal_of count o a) }
{
    if past_limits(count, o, a) {
        return Err(Refusal::new(2, 0));
    }
    if !float::tolerance(o.xtol) {
        return Err(Refusal::new(4, 1));
    }
    if !float::tolerance(o.ftol) {
        return Err(Refusal::new(4, 2));
    }
    if !float::positive(o.step) {
        return Err(Refusal::new(8, 0));
    }
    if count == 0 {
        return Err(Refusal::new(9, 0));
    }
    Ok(())
}

// Both allowances; absent, each is 200 n (1 + restarts).
#[tactic(auto, unfolding(crate::specs::Starts::simplex_limits_of))]
fn simplex_limits(n: usize, o: SimplexOptions, a: Allowances) -> Limits
    requires n_bound { n ≤ 16 }
    requires restarts_bound { o.restarts ≤ 100 }
    ensures { result ≡ simplex_limits_of n o a }
{
    let default = 200 * (n as u64) * (1 + o.restarts);
    Limits {
        iter: a.iter.unwrap_or(default),
        fevals: a.fevals.unwrap_or(default),
    }
}

// The first record of a simplex fit at a point of n coordinates.
#[tactic(auto, unfolding(crate::specs::Starts::simplex_record_of, optim_record::specs::Record::blank_of))]
pub fn simplex_record(point: [f64; 16], n: usize, o: SimplexOptions, a: Allowances) -> Record
    requires n_bound { n ≤ 16 }
    requires restarts_bound { o.restarts ≤ 100 }
    ensures { result ≡ simplex_record_of point n o a }
{
    Record {
        job: SIMPLEX,
        n,
        limits: simplex_limits(n, o, a),
        options: o,
        simplex: neldermead::Simplex::start(point),
        ..optim_record::blank()
    }
}

// Whether a start of a search meets refusal 2.
#[tactic(auto, unfolding(crate::specs::Starts::search_past_limits_of))]
fn search_past_limits(n: usize, dcount: usize, gcount: usize, o: WolfeOptions) -> bool
    ensures { result ≡ search_past_limits_of n dcount gcount o }
{
    16 < n || 16 < dcount || 16 < gcount || MOST_EVALS < o.evals
}

// The refusal that a search from a point of n coordinates meets, before its points are looked at.
#[tactic(auto, unfolding(crate::specs::Starts::search_refusal_of))]
pub fn search_refusal(
    n: usize,
    dcount: usize,
    gcount: usize,
    o: WolfeOptions,
) -> Result<(), Refusal>
    ensures { result ≡ as_result (search_refusal_of n dcount gcount o) }
{
    if search_past_limits(n, dcount, gcount, o) {
        return Err(Refusal::new(2, 0));
    }
    linesearch::options_refusal(o)?;
    linesearch::counts_refusal(n, dcount, gcount)
}

// A search along the line, from its first trial on.
#[tactic(auto, unfolding(crate::specs::Starts::begun_search_of, quasinewton_record::specs::Descents::idle_of))]
fn begun_search(line: Line, n: usize, step: f64, o: WolfeOptions, gradients: bool) -> Descent
    ensures { result ≡ begun_search_of line n step o gradients }
{
    let fixed = linesearch::Fixed {
        n,
        gradients,
        options: o,
    };
    Descent {
        phase: SEARCHING,
        line,
        search: linesearch::begun(&linesearch::Setup { fixed, line }, step),
        ..Descent::idle()
    }
}

// The first record of a search along a line of n coordinates.
#[tactic(auto, unfolding(crate::specs::Starts::search_record_of, optim_record::specs::Record::blank_of))]
pub fn search_record(line: Line, n: usize, step: f64, o: WolfeOptions, gradients: bool) -> Record
    ensures { result ≡ search_record_of line n step o gradients }
{
    Record {
        job: SEARCH,
        n,
        gradient: optim_record::wolfe_options(o, gradients),
        descent: begun_search(line, n, step, o, gradients),
        ..optim_record::blank()
    }
}
