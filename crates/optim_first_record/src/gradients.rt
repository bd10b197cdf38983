// The starts of gradient fits, bfgs and, where `limited`, lbfgs: a bool, as C's `fit_gradient_refusal` has it.
ghost use Rattle.std.specs.Prelude.{◌≡◌, ◌≤◌};
ghost use Rattle.protocol.specs.Protocol.{as_result};
ghost use Rattle.optim_first_record.specs.Starts.{gradient_past_limits_of, ordered_of, no_memory_of, gradient_refusal_of, gradient_limits_of, kept_options_of, gradient_mark_of, gradient_record_of};

use optim_record::{Limits, MOST_EVALS, NO_LIMIT, Record};
use protocol::{Allowances, BFGS, GradientOptions, LBFGS, Refusal, WolfeOptions};

// Whether a start of a gradient fit meets refusal 2; bfgs passes its memory over.
#[tactic(auto, unfolding(crate::specs::Starts::gradient_past_limits_of))]
fn gradient_past_limits(count: usize, o: GradientOptions, a: Allowances, limited: bool) -> bool
    ensures { result ≡ gradient_past_limits_of count o a limited }
{
    16 < count
        || crate::excess(a.iter)
        || crate::excess(a.fevals)
        || MOST_EVALS < o.wolfe.evals
        || (limited && 16 < o.memory)
}

// Whether 0 < c1 < c2 < 1.
#[tactic(auto, unfolding(crate::specs::Starts::ordered_of))]
fn ordered(w: WolfeOptions) -> bool
    ensures { result ≡ ordered_of w }
{
    0.0 < w.c1 && w.c1 < w.c2 && w.c2 < 1.0
}

// Whether it is lbfgs with a memory of none.
#[tactic(auto, unfolding(crate::specs::Starts::no_memory_of))]
fn no_memory(o: GradientOptions, limited: bool) -> bool
    ensures { result ≡ no_memory_of o limited }
{
    limited && o.memory == 0
}

// The refusal that a start of a gradient fit meets, before its point is looked at.
#[tactic(auto, unfolding(crate::specs::Starts::gradient_refusal_of, protocol::specs::Protocol::as_result))]
pub fn gradient_refusal(
    count: usize,
    o: GradientOptions,
    a: Allowances,
    limited: bool,
) -> Result<(), Refusal>
    ensures { result ≡ as_result (gradient_refusal_of count o a limited) }
{
    if gradient_past_limits(count, o, a, limited) {
        return Err(Refusal::new(2, 0));
    }
    if no_memory(o, limited) {
        return Err(Refusal::new(3, 0));
    }
    if !float::tolerance(o.gradtol) {
        return Err(Refusal::new(4, 1));
    }
    if !float::tolerance(o.ftol) {
        return Err(Refusal::new(4, 2));
    }
    if !float::tolerance(o.xtol) {
        return Err(Refusal::new(4, 3));
    }
    if !ordered(o.wolfe) {
        return Err(Refusal::new(5, 1));
    }
    if count == 0 {
        return Err(Refusal::new(9, 0));
    }
    Ok(())
}

// The allowances of a gradient fit; absent, max_iter is 200 n and max_fevals the largest u64.
#[tactic(auto, unfolding(crate::specs::Starts::gradient_limits_of))]
fn gradient_limits(n: usize, a: Allowances) -> Limits
    requires { n ≤ 16 }
    ensures { result ≡ gradient_limits_of n a }
{
    Limits {
        iter: a.iter.unwrap_or(200 * (n as u64)),
        fevals: a.fevals.unwrap_or(NO_LIMIT),
    }
}

// The options that a gradient fit's record keeps: bfgs has no memory.
#[tactic(auto, unfolding(crate::specs::Starts::kept_options_of))]
fn kept_options(o: GradientOptions, limited: bool) -> GradientOptions
    ensures { result ≡ kept_options_of o limited }
{
    if limited {
        o
    } else {
        GradientOptions { memory: 0, ..o }
    }
}

// The mark of lbfgs or of bfgs.
#[tactic(auto, unfolding(crate::specs::Starts::gradient_mark_of))]
fn gradient_mark(limited: bool) -> u64
    ensures { result ≡ gradient_mark_of limited }
{
    if limited { LBFGS } else { BFGS }
}

// The first record of a gradient fit at a point of n coordinates.
#[tactic(auto, unfolding(crate::specs::Starts::gradient_record_of, optim_record::specs::Record::blank_of))]
pub fn gradient_record(
    point: [f64; 16],
    n: usize,
    o: GradientOptions,
    a: Allowances,
    limited: bool,
) -> Record
    requires { n ≤ 16 }
    ensures { result ≡ gradient_record_of point n o a limited }
{
    let gradient = kept_options(o, limited);
    Record {
        job: gradient_mark(limited),
        n,
        limits: gradient_limits(n, a),
        gradient,
        descent: quasinewton::Descent::start(point),
        model: quasinewton_model::Model::new_model(limited, gradient.memory as usize, n),
        ..optim_record::blank()
    }
}
