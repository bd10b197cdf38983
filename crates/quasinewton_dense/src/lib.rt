// The dense model of the inverse Hessian (Nocedal and Wright 2006, eq. 6.17).
#![tactic(auto)]

ghost use Rattle.std.specs.Prelude.{◌≡◌, ◌≤◌, ◌<◌};
ghost use Rattle.quasinewton_dense.specs.Step.{diagonal_of, update_row_of, update_rows_of, prepared_of, dense_update_of, dense_direction_of};

// The matrix, row by row with sixteen columns. `fresh`: no pair has been taken in. It crosses to C as numbers, any
// of which must be taken.
#[derive(Clone, Copy)]
pub struct Dense {
    pub fresh: bool,
    pub h: [f64; 256],
}

// c times the identity of n rows.
#[tactic(auto, unfolding(crate::specs::Step::diagonal_of))]
pub fn diagonal(c: f64, n: usize) -> [f64; 256]
    requires { n ≤ 16 }
    ensures { result ≡ diagonal_of c n }
{
    let mut h = [0.0; 256];
    for i in 0..n {
        h[i * 16 + i] = c;
    }
    h
}

// Row i of H - rho (s hy' + hy s') + coef s s'.
#[tactic(auto, unfolding(crate::specs::Step::update_row_of))]
fn update_row(
    h: &mut [f64; 256],
    i: usize,
    s: [f64; 16],
    hy: [f64; 16],
    rho: f64,
    coef: f64,
    n: usize,
)
    requires i_bound { i < 16 }
    requires n_bound { n ≤ 16 }
    ensures { h.new ≡ update_row_of h.old i s hy rho coef n }
{
    let si = s[i];
    let hyi = hy[i];
    for j in 0..n {
        let k = i * 16 + j;
        h[k] = h[k] + (-rho * (si * hy[j] + hyi * s[j]) + coef * si * s[j]);
    }
}

// The first n rows of it.
#[tactic(auto, unfolding(crate::specs::Step::update_rows_of))]
fn update_rows(h: &mut [f64; 256], s: [f64; 16], hy: [f64; 16], rho: f64, coef: f64, n: usize)
    requires { n ≤ 16 }
    ensures { h.new ≡ update_rows_of h.old s hy rho coef n n }
{
    for i in 0..n {
        update_row(h, i, s, hy, rho, coef, n);
    }
}

impl Dense {
    // H before an update: the first one finds it scaled, if sy and yy are positive (eq. 6.20).
    #[tactic(auto, unfolding(crate::specs::Step::prepared_of))]
    fn prepared(&self, sy: f64, y: [f64; 16], n: usize) -> [f64; 256]
        requires { n ≤ 16 }
        ensures { result ≡ prepared_of self.now sy y n }
    {
        if self.fresh {
            let yy = vector::dot(y, y, n);
            if yy > 0.0 && sy > 0.0 {
                return diagonal(sy / yy, n);
            }
        }
        self.h
    }

    #[tactic(auto, unfolding(crate::specs::Step::dense_update_of))]
    pub fn dense_update(self, s: [f64; 16], y: [f64; 16], n: usize) -> Dense
        requires { n ≤ 16 }
        ensures { result ≡ dense_update_of self s y n }
    {
        let sy = vector::dot(s, y, n);
        let mut h = self.prepared(sy, y, n);
        let rho = 1.0 / sy;
        let hy = vector::mat_vec(&h, y, n);
        let yhy = vector::dot(y, hy, n);
        let coef = rho * rho * yhy + rho;
        update_rows(&mut h, s, hy, rho, coef, n);
        Dense { fresh: false, h }
    }

    // -H g
    #[tactic(auto, unfolding(crate::specs::Step::dense_direction_of))]
    pub fn dense_direction(&self, g: [f64; 16], n: usize) -> [f64; 16]
        requires { n ≤ 16 }
        ensures { result ≡ dense_direction_of self.now g n }
    {
        let hg = vector::mat_vec(&self.h, g, n);
        vector::negation(hg, n)
    }
}
