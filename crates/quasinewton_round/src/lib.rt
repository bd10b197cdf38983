// The rounds of a gradient fit: the opening up to the first head, and from a head its direction, up to the
// start of its search. The moves are functions, and no methods: only the crate that declares the record,
// `quasinewton_record`, could give it methods, and these moves are a crate of their own above it. `fixed` and the record
// are two arguments: `quasinewton_record` says why.
#![tactic(auto)]

mod opening;

ghost use Rattle.std.specs.Prelude.{◌≡◌, ◌≤◌};
ghost use Rattle.protocol.specs.Protocol.{as_result};
ghost use Rattle.quasinewton_model.specs.Step.{FewPairs};
ghost use Rattle.quasinewton_round.specs.Rounds.{sought_of, tested_of, searched_of, steepest_of, directed_of, headed_of};

use linesearch::{Line, Setup};
pub use opening::{differing, graded, valued};
use protocol::Refusal;
use quasinewton_model::Model;
use quasinewton_record::{
    BY_FEVALS, BY_GRADIENT, BY_ITERATIONS, BY_SEARCH, Descent, Fixed, SEARCHING,
};

// A search begins along the line.
#[tactic(auto, unfolding(crate::specs::Rounds::sought_of))]
fn sought(fixed: Fixed, mut q: Descent, line: Line, step: f64) -> Descent
    ensures { result ≡ sought_of fixed q line step }
{
    let setup = Setup {
        fixed: fixed.search_fixed(),
        line,
    };
    q.phase = SEARCHING;
    q.line = line;
    q.search = linesearch::begun(&setup, step);
    q
}

// All of `strong_wolfe`'s tests in its order.
fn tested(fixed: Fixed, l: Line, step: f64) -> Result<(), Refusal>
    requires { fixed.n ≤ 16 }
    ensures { result ≡ as_result (tested_of fixed l step) }
{
    let n = fixed.n;
    linesearch::options_refusal(fixed.options.wolfe)?;
    linesearch::counts_refusal(n, n, n)?;
    linesearch::line_refusal(n, l, step)
}

// The tests, then the search along d.
fn searched(fixed: Fixed, q: Descent, d: [f64; 16]) -> Descent
    requires { fixed.n ≤ 16 }
    ensures { result ≡ searched_of fixed q d }
{
    let at = q.line;
    let l = linesearch::line_from(at.x, d, at.f, at.g, fixed.n);
    let step = quasinewton_record::initial_step(q.first, d, fixed.n);
    match tested(fixed, l, step) {
        Ok(()) => sought(fixed, q, l, step),
        Err(why) => q.refused_by(why),
    }
}

// Along minus the gradient, in the place of a direction that does not descend.
#[tactic(auto, unfolding(crate::specs::Rounds::steepest_of))]
fn steepest(fixed: Fixed, mut q: Descent) -> Descent
    requires { fixed.n ≤ 16 }
    ensures { result ≡ steepest_of fixed q }
{
    let g = q.line.g;
    if quasinewton_record::not_descending(-vector::dot(g, g, fixed.n)) {
        q.phase = BY_SEARCH;
        return q;
    }
    searched(fixed, q, vector::negation(g, fixed.n))
}

// Along d, or along minus the gradient where d does not descend or is not finite.
#[tactic(auto, unfolding(crate::specs::Rounds::directed_of))]
fn directed(fixed: Fixed, q: Descent, d: [f64; 16]) -> Descent
    requires { fixed.n ≤ 16 }
    ensures { result ≡ directed_of fixed q d }
{
    if quasinewton_record::not_descending(vector::dot(q.line.g, d, fixed.n))
        || !vector::all_finite(d, fixed.n)
    {
        return steepest(fixed, q);
    }
    searched(fixed, q, d)
}

// The tests at the head of a round, in order, then the round.
#[tactic(auto, unfolding(crate::specs::Rounds::headed_of))]
pub fn headed(fixed: Fixed, mut q: Descent, m: Model, fevals: u64) -> Descent
    requires n_bound { fixed.n ≤ 16 }
    requires few_pairs { FewPairs m }
    ensures { result ≡ headed_of fixed q m fevals }
{
    if vector::inf_norm(q.line.g, fixed.n) <= fixed.options.gradtol {
        q.phase = BY_GRADIENT;
        return q;
    }
    if fixed.iter <= q.rounds {
        q.phase = BY_ITERATIONS;
        return q;
    }
    if fixed.fevals <= fevals {
        q.phase = BY_FEVALS;
        return q;
    }
    let d = m.direction(q.line.g, fixed.n);
    q.rounds += 1;
    directed(fixed, q, d)
}
