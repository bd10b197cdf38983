// The vertices of a simplex: order, mean, size, and what the tests and coefficients want of them.
#![tactic(auto)]

ghost use Rattle.std.specs.Prelude.{◌≡◌, ◌≤◌, ◌<◌};
ghost use Rattle.neldermead_vertices.specs.Method.{adapts, beta, gamma, delta, displaced, resolution, better};
ghost use Rattle.neldermead_vertices.specs.Vertices.{sorted_of, centroid_of, corner_of, size_of, any_finite_of, flat_of, converged_of};

use protocol::SimplexOptions;
use std::num::nearest_usize_to_f64;

// The least edge of a new simplex.
const ZERO_STEP: f64 = 0.00025;
// Both floors are this many units in the last place.
const RESOLUTION_ULPS: f64 = 4.0;

// A point with its value.
#[derive(Clone, Copy, Default)]
pub struct Vertex {
    pub x: [f64; 16],
    pub f: f64,
}

// The first n + 1 vertices in order, from the last on: each is put among those after it, behind those that
// precede it, so that equal ones stay as they stood: the library's sort that keeps them so asks for an allocator, and this has no heap; its
// other does not keep them. In place: an array passed to a call is copied whole. The inner loop carries the place where it stops, which no
// `for` over places says more plainly. The count stands beside an array here and below: a list that knows its length would be on the heap.
pub fn sorted(v: [Vertex; 17], n: usize) -> [Vertex; 17]
    requires { n ≤ 16 }
    ensures { result ≡ sorted_of v n }
{
    let mut w = v;
    for i in (0..n).rev() {
        let u = w[i];
        let mut j = i;
        while j < n && float::precedes(w[j + 1].f, u.f) {
            w[j] = w[j + 1];
            j += 1;
        }
        w[j] = u;
    }
    w
}

// The mean of the first n vertices.
#[tactic(auto, unfolding(crate::specs::Vertices::centroid_of, crate::specs::Vertices::summed_of))]
pub fn centroid(v: &[Vertex; 17], n: usize) -> [f64; 16]
    requires { n ≤ 16 }
    ensures { result ≡ centroid_of v.now n }
{
    let mut sum = [0.0; 16];
    for i in 0..n {
        // by `next`: the check does not assign a call's array to a local that is there already
        let next = vector::addition(sum, v[i].x, n);
        sum = next;
    }
    vector::quotient(sum, nearest_usize_to_f64(n), n)
}

// A coordinate displaced away from zero.
#[tactic(auto, unfolding(crate::specs::Method::displaced))]
fn edge(initial: f64, v: f64) -> f64
    ensures { result ≡ displaced initial v }
{
    let step = float::max(initial * float::abs(v), ZERO_STEP);
    if v < 0.0 {
        return v + -step;
    }
    v + step
}

// The seed with coordinate i displaced.
#[tactic(auto, unfolding(crate::specs::Vertices::corner_of))]
pub fn corner(initial: f64, seed: [f64; 16], i: usize) -> [f64; 16]
    requires { i < 16 }
    ensures { result ≡ corner_of initial seed i }
{
    let mut x = seed;
    x[i] = edge(initial, seed[i]);
    x
}

// The largest distance of the others of the first n + 1 vertices from the first.
fn size(v: &[Vertex; 17], n: usize) -> f64
    requires { n ≤ 16 }
    ensures { result ≡ size_of v.now n n }
{
    vector::folded(n, 0.0, |m: f64, i| {
        float::max(
            m,
            vector::inf_norm(vector::difference(v[i + 1].x, v[0].x, n), n),
        )
    })
}

// Whether one of the first k values is finite.
pub fn any_finite(v: &[Vertex; 17], k: usize) -> bool
    requires { k ≤ 17 }
    ensures { result ≡ any_finite_of v.now k }
{
    v[..k].iter().any(|u| float::is_finite(u.f))
}

// The resolution of a quantity of this scale: the floor under its tolerance.
#[tactic(auto, unfolding(crate::specs::Method::resolution))]
pub fn floor(scale: f64) -> f64
    ensures { result ≡ resolution scale }
{
    RESOLUTION_ULPS * f64::EPSILON * scale
}

// Whether the spread of values is within the tolerance or its floor.
#[tactic(auto, unfolding(crate::specs::Vertices::flat_of))]
fn flat(tol: f64, least: f64, most: f64) -> bool
    ensures { result ≡ flat_of tol least most }
{
    float::abs(most - least) <= float::max(tol, floor(float::abs(least)))
}

// Whether size and spread of the first n + 1 vertices, in order, are within tolerances or floors. The spread
// first: the size takes all coordinates.
#[tactic(auto, unfolding(crate::specs::Vertices::converged_of))]
pub fn converged(o: SimplexOptions, v: &[Vertex; 17], n: usize) -> bool
    requires { n ≤ 16 }
    ensures { result ≡ converged_of o v.now n }
{
    flat(o.ftol, v[0].f, v[n].f)
        && size(v, n) <= float::max(o.xtol, floor(vector::inf_norm(v[0].x, n)))
}

// Only a smaller value takes the best's place.
#[tactic(auto, unfolding(crate::specs::Method::better))]
pub fn better_of(u: Vertex, b: Vertex) -> Vertex
    ensures { result ≡ better u b }
{
    if u.f < b.f {
        return u;
    }
    b
}

// Whether the coefficients go by n: where that is asked for, above n 2. They are made anew from both, so that no record holds others.
fn adaptive(o: SimplexOptions, n: usize) -> bool
    ensures { result ≡ adapts o n }
{
    o.adaptive && 2 < n
}

// The expansion's coefficient.
#[tactic(auto, unfolding(crate::specs::Method::beta))]
pub fn expansion(o: SimplexOptions, n: usize) -> f64
    ensures { result ≡ beta o n }
{
    if adaptive(o, n) {
        return 1.0 + 2.0 / nearest_usize_to_f64(n);
    }
    2.0
}

// The contraction's coefficient.
#[tactic(auto, unfolding(crate::specs::Method::gamma))]
pub fn contraction(o: SimplexOptions, n: usize) -> f64
    ensures { result ≡ gamma o n }
{
    if adaptive(o, n) {
        return 0.75 - 1.0 / (2.0 * nearest_usize_to_f64(n));
    }
    0.5
}

// The shrink's coefficient.
#[tactic(auto, unfolding(crate::specs::Method::delta))]
pub fn reduction(o: SimplexOptions, n: usize) -> f64
    ensures { result ≡ delta o n }
{
    if adaptive(o, n) {
        return 1.0 - 1.0 / nearest_usize_to_f64(n);
    }
    0.5
}
