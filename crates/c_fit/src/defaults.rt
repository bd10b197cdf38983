// The options of the Rust's `impl Default`.
ghost use Rattle.std.specs.Prelude.{◌≡◌};
ghost use Rattle.c_fit.specs.Defaults.{default_simplex, default_wolfe, default_gradient, default_allowances};

use c_api::{Allowance, Allowances, GradientOptions, SimplexOptions, WolfeOptions};

// Of a simplex fit.
#[unsafe(no_mangle)]
pub extern "C" fn fit_default_simplex() -> SimplexOptions
    ensures { result ≡ default_simplex }
{
    SimplexOptions {
        xtol: 1e-8,
        ftol: 1e-8,
        step: 0.05,
        restarts: 0,
        adaptive: true,
    }
}

// Of a search.
#[unsafe(no_mangle)]
pub extern "C" fn fit_default_wolfe() -> WolfeOptions
    ensures { result ≡ default_wolfe }
{
    WolfeOptions {
        c1: 1e-4,
        c2: 0.9,
        stepmax: 1e10,
        evals: 30,
    }
}

// Of a fit by bfgs or lbfgs whose objective gives no gradients, as the Rust's gives none by default.
#[unsafe(no_mangle)]
pub extern "C" fn fit_default_gradient() -> GradientOptions
    ensures { result ≡ default_gradient }
{
    let wolfe = fit_default_wolfe();
    GradientOptions {
        gradtol: 1e-8,
        ftol: 0.0,
        xtol: 0.0,
        wolfe,
        memory: 10,
        gradients: false,
    }
}

// Of a fit's allowances: both are absent.
#[tactic(auto, unfolding(crate::specs::Defaults::default_allowances))]
#[unsafe(no_mangle)]
pub extern "C" fn fit_default_allowances() -> Allowances
    ensures { result ≡ default_allowances }
{
    let absent = Allowance {
        given: false,
        count: 0,
    };
    Allowances {
        iter: absent,
        fevals: absent,
    }
}
