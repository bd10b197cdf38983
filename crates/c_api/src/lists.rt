// Lists of coordinates, lent. The library's functions take at most sixteen; these decide every list.
ghost use Rattle.std.specs.Prelude.{◌≡◌};
ghost use Rattle.c_api.specs.Lists.{list_dot_of, list_inf_norm_of, list_finite_of};

#[tactic(auto, unfolding(crate::specs::Lists::list_dot_of))]
#[unsafe(no_mangle)]
pub extern "C" fn fit_dot(a: &[f64], b: &[f64]) -> f64
    ensures { result ≡ list_dot_of a.now b.now }
{
    let n = a.len();
    if 16 < n || b.len() != n {
        return f64::NAN;
    }
    let p = vector::from_slice(a, n);
    let q = vector::from_slice(b, n);
    vector::dot(p, q, n)
}

#[tactic(auto, unfolding(crate::specs::Lists::list_inf_norm_of))]
#[unsafe(no_mangle)]
pub extern "C" fn fit_inf_norm(a: &[f64]) -> f64
    ensures { result ≡ list_inf_norm_of a.now }
{
    let n = a.len();
    if 16 < n {
        return f64::NAN;
    }
    let p = vector::from_slice(a, n);
    vector::inf_norm(p, n)
}

#[tactic(auto, unfolding(crate::specs::Lists::list_finite_of))]
#[unsafe(no_mangle)]
pub extern "C" fn fit_all_finite(a: &[f64]) -> bool
    ensures { result ≡ list_finite_of a.now }
{
    let n = a.len();
    n <= 16 && vector::all_finite(vector::from_slice(a, n), n)
}
