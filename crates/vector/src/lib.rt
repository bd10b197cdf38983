// Points of the first n of sixteen coordinates: there is no heap, and a point crosses to C as sixteen numbers. What lies past n is
// never read, and is zero in every point that is made here. Three functions hold the loops, and the others hand them a closure.
// That n is at most 16 is asked of each function that reads n, here and in the crates above, and is no invariant of
// a struct: those that hold n are public and built by anyone, so an invariant would ask more of callers. A type for n would be
// built in each function from the plain n of such a struct, by the same fact. Slices in place of arrays and n would carry
// a length each, and that two lengths are equal would be asked instead.
#![tactic(auto)]

ghost use Rattle.std.specs.Prelude.{◌≡◌, ◌≤◌, ◌<◌, ℕ, length};
ghost use Rattle.vector.specs.Loops.{Fills, Folds, Holds};
ghost use Rattle.vector.specs.Points.{from_slice_of, dot_of, inf_norm_of, all_finite_of, plus_scaled_of, minus_scaled_of, difference_of, addition_of, quotient_of, scaled_of, negation_of, towards_of, shrunk_of, row_dot_of, mat_vec_of};

// The point whose first n coordinates are f of their places, f(0), f(1), and so on.
pub fn filled<F: Fn(usize) -> f64>(n: usize, f: F) -> [f64; 16]
    requires n_bound { n ≤ 16 }
    requires callable { (i : ℕ) → i < n → F.pre f i }
    ensures { Fills (F.post f) n result }
{
    let mut r = [0.0; 16];
    for i in 0..n {
        r[i] = f(i);
    }
    r
}

// What f makes of z at 0, then at 1, and so on up to n - 1.
pub fn folded<A: Copy, F: Fn(A, usize) -> A>(n: usize, z: A, f: F) -> A
    requires callable { (a : A) (i : ℕ) → i < n → F.pre f a i }
    ensures { Folds (F.post f) n z result }
{
    let mut s = z;
    for i in 0..n {
        s = f(s, i);
    }
    s
}

// Whether f holds at each place below n.
pub fn every<F: Fn(usize) -> bool>(n: usize, f: F) -> bool
    requires callable { (i : ℕ) → i < n → F.pre f i }
    ensures { Holds (F.post f) n result }
{
    for i in 0..n {
        if !f(i) {
            return false;
        }
    }
    true
}

// The point that the first n numbers of a slice list: n stands beside the slice, which may be longer.
pub fn from_slice(s: &[f64], n: usize) -> [f64; 16]
    requires n_bound { n ≤ 16 }
    requires n_in_bounds { n ≤ length s.now }
    ensures { result ≡ from_slice_of s.now n }
{
    filled(n, |i| s[i])
}

// a · b, from -0.0 as current Rust's sum begins.
pub fn dot(a: [f64; 16], b: [f64; 16], n: usize) -> f64
    requires { n ≤ 16 }
    ensures { result ≡ dot_of a b n }
{
    folded(n, -0.0, |s: f64, i| s + a[i] * b[i])
}

// The largest magnitude; a NaN is passed over.
pub fn inf_norm(a: [f64; 16], n: usize) -> f64
    requires { n ≤ 16 }
    ensures { result ≡ inf_norm_of a n }
{
    folded(n, 0.0, |m: f64, i| float::max(m, float::abs(a[i])))
}

pub fn all_finite(a: [f64; 16], n: usize) -> bool
    requires { n ≤ 16 }
    ensures { result ≡ all_finite_of a n }
{
    every(n, |i| float::is_finite(a[i]))
}

// x + t d
pub fn plus_scaled(x: [f64; 16], t: f64, d: [f64; 16], n: usize) -> [f64; 16]
    requires { n ≤ 16 }
    ensures { result ≡ plus_scaled_of x t d n }
{
    filled(n, |i| x[i] + t * d[i])
}

// x - t d
pub fn minus_scaled(x: [f64; 16], t: f64, d: [f64; 16], n: usize) -> [f64; 16]
    requires { n ≤ 16 }
    ensures { result ≡ minus_scaled_of x t d n }
{
    filled(n, |i| x[i] - t * d[i])
}

// a - b
pub fn difference(a: [f64; 16], b: [f64; 16], n: usize) -> [f64; 16]
    requires { n ≤ 16 }
    ensures { result ≡ difference_of a b n }
{
    filled(n, |i| a[i] - b[i])
}

// a + b
pub fn addition(a: [f64; 16], b: [f64; 16], n: usize) -> [f64; 16]
    requires { n ≤ 16 }
    ensures { result ≡ addition_of a b n }
{
    filled(n, |i| a[i] + b[i])
}

// a / t
pub fn quotient(a: [f64; 16], t: f64, n: usize) -> [f64; 16]
    requires { n ≤ 16 }
    ensures { result ≡ quotient_of a t n }
{
    filled(n, |i| a[i] / t)
}

// a t
pub fn scaled(a: [f64; 16], t: f64, n: usize) -> [f64; 16]
    requires { n ≤ 16 }
    ensures { result ≡ scaled_of a t n }
{
    filled(n, |i| a[i] * t)
}

// -a
pub fn negation(a: [f64; 16], n: usize) -> [f64; 16]
    requires { n ≤ 16 }
    ensures { result ≡ negation_of a n }
{
    filled(n, |i| -a[i])
}

// A trial point of the simplex: c + t (c - w), from the centroid and the worst vertex.
pub fn towards(c: [f64; 16], w: [f64; 16], t: f64, n: usize) -> [f64; 16]
    requires { n ≤ 16 }
    ensures { result ≡ towards_of c w t n }
{
    filled(n, |i| c[i] + t * (c[i] - w[i]))
}

// A vertex drawn to the best: b + t (v - b).
pub fn shrunk(b: [f64; 16], v: [f64; 16], t: f64, n: usize) -> [f64; 16]
    requires { n ≤ 16 }
    ensures { result ≡ shrunk_of b v t n }
{
    filled(n, |i| b[i] + t * (v[i] - b[i]))
}

// The first n columns of row i of h, a matrix of sixteen columns, by v.
pub fn row_dot(h: &[f64; 256], i: usize, v: [f64; 16], n: usize) -> f64
    requires i_bound { i < 16 }
    requires n_bound { n ≤ 16 }
    ensures { result ≡ row_dot_of h.now i v n }
{
    folded(n, -0.0, |s: f64, j| s + h[i * 16 + j] * v[j])
}

// The first n rows and columns of h by v.
pub fn mat_vec(h: &[f64; 256], v: [f64; 16], n: usize) -> [f64; 16]
    requires { n ≤ 16 }
    ensures { result ≡ mat_vec_of h.now v n n }
{
    filled(n, |i| row_dot(h, i, v, n))
}
