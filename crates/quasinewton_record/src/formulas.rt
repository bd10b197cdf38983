// The tests and the first step of a gradient fit, over points of sixteen coordinates.
ghost use Rattle.std.specs.Prelude.{◌≡◌, ◌≤◌};
ghost use Rattle.quasinewton_record.specs.Formulas.{stores_of, small_decrease_of, small_step_of, initial_step_of, not_descending_of};

// The share of |s| |y| that a pair's product must be above to be taken in.
const CURVATURE: f64 = 1e-12;
// The least |d| that the first step is scaled by.
const LEAST: f64 = 1e-30;

// Whether the pair (s, y) is taken into the model.
#[tactic(auto, unfolding(crate::specs::Formulas::stores_of))]
pub fn stores(s: [f64; 16], y: [f64; 16], n: usize) -> bool
    requires { n ≤ 16 }
    ensures { result ≡ stores_of s y n }
{
    vector::dot(s, y, n) > CURVATURE * vector::inf_norm(s, n) * vector::inf_norm(y, n)
}

// f_tol, which acts only above 0.
#[tactic(auto, unfolding(crate::specs::Formulas::small_decrease_of))]
pub fn small_decrease(ftol: f64, before: f64, now: f64) -> bool
    ensures { result ≡ small_decrease_of ftol before now }
{
    ftol > 0.0 && before - now <= ftol * float::max(float::abs(now), 1.0)
}

// x_tol, which acts only above 0.
#[tactic(auto, unfolding(crate::specs::Formulas::small_step_of))]
pub fn small_step(xtol: f64, before: [f64; 16], now: [f64; 16], n: usize) -> bool
    requires { n ≤ 16 }
    ensures { result ≡ small_step_of xtol before now n }
{
    xtol > 0.0
        && vector::inf_norm(vector::difference(now, before, n), n)
            <= xtol * float::max(vector::inf_norm(now, n), 1.0)
}

// The step at which a search starts: 1, or in a fit's first search 1 / |d| where that is less.
#[tactic(auto, unfolding(crate::specs::Formulas::initial_step_of))]
pub fn initial_step(first: bool, d: [f64; 16], n: usize) -> f64
    requires { n ≤ 16 }
    ensures { result ≡ initial_step_of first d n }
{
    if !first {
        return 1.0;
    }
    float::min(1.0 / float::max(vector::inf_norm(d, n), LEAST), 1.0)
}

// Whether a slope is not finite or not below 0.
#[tactic(auto, unfolding(crate::specs::Formulas::not_descending_of))]
pub fn not_descending(slope: f64) -> bool
    ensures { result ≡ not_descending_of slope }
{
    slope >= 0.0 || !float::is_finite(slope)
}
