// Parts of the engine for C to call: the functions marked `#[unsafe(no_mangle)] pub extern "C"`, here and in lists and options. include/fit.h
// declares them. They have no `requires`, since a caller that is not Rattle is checked by nothing. The types that allowances, refusals and
// replies have in C are here too; c_fit's whole fits take and hand back the same.
#![tactic(auto)]

mod lists;
mod options;
mod reply;

ghost use Rattle.std.specs.Prelude.{◌≡◌};
ghost use Rattle.float.specs.Values.{max_of, min_of, finite_of};
ghost use Rattle.float.specs.Order.{precedes_of};
ghost use Rattle.float.specs.Sqrt.{sqrt_of};
ghost use Rattle.protocol.specs.Protocol.{read_of};
ghost use Rattle.objective.specs.Algorithm.{forward_of, backward_of, slope_at};

use objective::Differences;
pub use options::{Allowance, Allowances, GradientOptions, SimplexOptions, WolfeOptions};
pub use reply::Reply;

#[unsafe(no_mangle)]
pub extern "C" fn fit_sqrt(x: f64) -> f64
    ensures { result ≡ sqrt_of x }
{
    float::sqrt(x)
}

#[unsafe(no_mangle)]
pub extern "C" fn fit_max(a: f64, b: f64) -> f64
    ensures { result ≡ max_of a b }
{
    float::max(a, b)
}

#[unsafe(no_mangle)]
pub extern "C" fn fit_min(a: f64, b: f64) -> f64
    ensures { result ≡ min_of a b }
{
    float::min(a, b)
}

// Whether a comes before b in IEEE 754's total order: -0.0 before +0.0, a NaN last.
#[unsafe(no_mangle)]
pub extern "C" fn fit_precedes(a: f64, b: f64) -> bool
    ensures { result ≡ precedes_of a b }
{
    float::precedes(a, b)
}

#[unsafe(no_mangle)]
pub extern "C" fn fit_is_finite(x: f64) -> bool
    ensures { result ≡ finite_of x }
{
    float::is_finite(x)
}

// How a value told passes into a fit: one that is not finite is read as +infinity.
#[unsafe(no_mangle)]
pub extern "C" fn fit_read(v: f64) -> f64
    ensures { result ≡ read_of v }
{
    objective::read(v)
}

// The coordinate of the first question of a central difference at x.
#[unsafe(no_mangle)]
pub extern "C" fn fit_forward(x: f64) -> f64
    ensures { result ≡ forward_of x }
{
    objective::forward(x)
}

// The coordinate of the second.
#[unsafe(no_mangle)]
pub extern "C" fn fit_backward(x: f64) -> f64
    ensures { result ≡ backward_of x }
{
    objective::backward(x)
}

// The central difference at x, where fp was told forward and fm backward: the engine's own step, at the first of sixteen coordinates.
#[tactic(auto, unfolding(objective::specs::Step::begun_of, objective::specs::Step::told_of))]
#[unsafe(no_mangle)]
pub extern "C" fn fit_slope(x: f64, fp: f64, fm: f64) -> f64
    ensures { result ≡ slope_at x fp fm }
{
    Differences::begun([x; 16]).told(fp).told(fm).g[0]
}
