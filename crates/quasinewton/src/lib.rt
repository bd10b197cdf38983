// The gradient fits bfgs and lbfgs of quasinewton.rs, one answer at a time. An answer gives the record with
// the next question in it, or at rest: at the head of a round, or with its search ended. From there
// `settled` goes on, with the model, to the next question or the end. The moves are functions, and no methods:
// the crate that declares the record cannot see what they stand on. `fixed` and the record are two arguments:
// `quasinewton_record` says why.
#![tactic(auto)]

ghost use Rattle.std.specs.Prelude.{◌≡◌, ◌≤◌};
ghost use Rattle.quasinewton_model.specs.Step.{ModelInRange, FewPairs};
ghost use Rattle.quasinewton.specs.Step.{stores_pair_of, updated_of, arrived_of, onward_of};

use linesearch_moves::{FAILED, FOUND};
pub use quasinewton_answer::{probe, told, told_gradient};
use quasinewton_model::Model;
use quasinewton_record::{AT_HEAD, SEARCHING};
pub use quasinewton_record::{Descent, Fixed};

// Whether the pair of the step to the search's best trial is taken into the model: the search has met both
// conditions, the gradient there is finite, and the curvature along the step is enough.
#[tactic(auto, unfolding(crate::specs::Step::stores_pair_of))]
pub fn stores(fixed: Fixed, q: Descent) -> bool
    requires { fixed.n ≤ 16 }
    ensures { result ≡ stores_pair_of fixed q }
{
    q.phase == SEARCHING
        && q.search.phase == FOUND
        && vector::all_finite(q.search.best.g, fixed.n)
        && quasinewton_record::stores(q.pair_step(fixed.n), q.pair_change(fixed.n), fixed.n)
}

// The model with that pair taken in. Only `stores` says whether it is to be.
#[tactic(auto, unfolding(crate::specs::Step::updated_of))]
pub fn updated(fixed: Fixed, q: Descent, m: Model) -> Model
    requires n_bound { fixed.n ≤ 16 }
    requires model_in_range { ModelInRange m }
    ensures { result ≡ updated_of fixed q m }
{
    let step = q.pair_step(fixed.n);
    let change = q.pair_change(fixed.n);
    m.update(step, change, fixed.n)
}

// After a search that has ended, at the head of the next round or at the fit's end. Any other record stays
// as it is.
#[tactic(auto, unfolding(crate::specs::Step::arrived_of))]
fn arrived(fixed: Fixed, q: Descent) -> Descent
    requires { fixed.n ≤ 16 }
    ensures { result ≡ arrived_of fixed q }
{
    let t = q.search.best;
    match (q.phase, q.search.phase) {
        (SEARCHING, FOUND) => q.tested(fixed, &t),
        (SEARCHING, FAILED) => q.missed(&t),
        _ => q,
    }
}

// From the head of a round, or from a search that has ended, to the next question or the end. A record
// that is at neither stays as it is. The model is the one after the search: the caller keeps it, and
// puts `updated` in its place where the pair is stored.
#[tactic(auto, unfolding(crate::specs::Step::onward_of))]
pub fn settled(fixed: Fixed, q: Descent, m: Model, fevals: u64) -> Descent
    requires n_bound { fixed.n ≤ 16 }
    requires few_pairs { FewPairs m }
    ensures { result ≡ onward_of fixed q m fevals }
{
    let next = arrived(fixed, q);
    match next.phase {
        AT_HEAD => quasinewton_round::headed(fixed, next, m, fevals),
        _ => next,
    }
}
