// The one form of a record, stored in lists that are lent.
#![tactic(auto)]

ghost use Rattle.std.specs.Prelude.{◌≡◌, ◌<◌};
ghost use Rattle.quasinewton_limited.specs.Step.{pair_at};
ghost use Rattle.neldermead_vertices.specs.Vertices.{vertex_at};
ghost use Rattle.optim_lists.specs.Lists.{flag_of, marks_of, numbers_of, points_of, values_of, steps_of, changes_of, factors_of, lists_of};
ghost use Rattle.optim_lists.specs.Lent.{lists_left};

use linesearch::Search;
use linesearch_trials::Line;
use neldermead::Simplex;
use neldermead_vertices::Vertex;
use objective::Differences;
use optim_lists::Lent;
use optim_record::Record;
use quasinewton_limited::Pair;
use quasinewton_model::Model;

// A flag's mark. This stays a function, and each array below goes through a variable: with `u64::from` in `marks` and patterns that take the
// arrays out, whole fits through C (simplex of n 2, bfgs of n 8) cost 0.4% more instructions. (The borrow checker does not cover `*sx = s.x`.)
fn flag(b: bool) -> u64
    ensures { result ≡ flag_of b }
{
    u64::from(b)
}

// The vertices' points. (An array's `map` goes through a buffer, and costs seven times the nanoseconds of this. This and the four below differ in
// the field: a generic one would be given each closure with its contract, which is all that each is.)
fn points_of(v: [Vertex; 17]) -> [[f64; 16]; 17]
    ensures { result ≡ points_of v }
{
    std::array::from_fn(
        |i: usize| -> [f64; 16]
            requires { i < 17 }
            ensures { result ≡ (vertex_at v i).x }
        { v[i].x },
    )
}

// The value at each.
fn values_of(v: [Vertex; 17]) -> [f64; 17]
    ensures { result ≡ values_of v }
{
    std::array::from_fn(|i| v[i].f)
}

// The pairs' steps.
fn steps_of(p: [Pair; 16]) -> [[f64; 16]; 16]
    ensures { result ≡ steps_of p }
{
    std::array::from_fn(
        |i: usize| -> [f64; 16]
            requires { i < 16 }
            ensures { result ≡ (pair_at p i).s }
        { p[i].s },
    )
}

// Their changes.
fn changes_of(p: [Pair; 16]) -> [[f64; 16]; 16]
    ensures { result ≡ changes_of p }
{
    std::array::from_fn(
        |i: usize| -> [f64; 16]
            requires { i < 16 }
            ensures { result ≡ (pair_at p i).y }
        { p[i].y },
    )
}

// Their factors.
fn factors_of(p: [Pair; 16]) -> [f64; 16]
    ensures { result ≡ factors_of p }
{
    std::array::from_fn(|i| p[i].rho)
}

// The marks, in the order of their places.
fn marks(r: Record) -> [u64; 36]
    ensures { result ≡ marks_of r }
{
    [
        r.accepted,
        r.job,
        r.n as u64,
        r.counts.fevals,
        r.counts.gevals,
        r.limits.iter,
        r.limits.fevals,
        r.options.restarts,
        r.gradient.wolfe.evals,
        r.gradient.memory,
        r.diff.at as u64,
        r.simplex.phase,
        r.simplex.at as u64,
        r.simplex.rounds,
        r.simplex.runs,
        r.descent.phase,
        r.descent.number,
        r.descent.detail,
        r.descent.rounds,
        r.descent.search.phase,
        r.descent.search.trials,
        r.descent.search.diff.at as u64,
        r.descent.diff.at as u64,
        r.model.memory as u64,
        r.model.pairs.count as u64,
        flag(r.options.adaptive),
        flag(r.gradient.gradients),
        flag(r.diff.forward),
        flag(r.descent.first),
        flag(r.descent.search.zooming),
        flag(r.descent.search.previous),
        flag(r.descent.search.kept),
        flag(r.descent.search.diff.forward),
        flag(r.descent.diff.forward),
        flag(r.model.limited),
        flag(r.model.dense.fresh),
    ]
}

// The single numbers, in the order of their places.
#[tactic(auto, unfolding(optim_lists::specs::Lists::numbers_of))]
fn numbers(r: Record) -> [f64; 28]
    ensures { result ≡ numbers_of r }
{
    [
        r.options.xtol,
        r.options.ftol,
        r.options.step,
        r.gradient.gradtol,
        r.gradient.ftol,
        r.gradient.xtol,
        r.gradient.wolfe.c1,
        r.gradient.wolfe.c2,
        r.gradient.wolfe.stepmax,
        r.diff.value,
        r.simplex.best.f,
        r.simplex.refl.f,
        r.descent.line.f,
        r.descent.line.slope,
        r.descent.search.lo.step,
        r.descent.search.lo.value,
        r.descent.search.lo.slope,
        r.descent.search.hi.step,
        r.descent.search.hi.value,
        r.descent.search.hi.slope,
        r.descent.search.step,
        r.descent.search.value,
        r.descent.search.best.trial.step,
        r.descent.search.best.trial.value,
        r.descent.search.best.trial.slope,
        r.descent.search.diff.value,
        r.descent.diff.value,
        r.model.pairs.gamma,
    ]
}

fn store_simplex(
    sx: &mut [f64; 16],
    best: &mut [f64; 16],
    centroid: &mut [f64; 16],
    reflected: &mut [f64; 16],
    points: &mut [[f64; 16]; 17],
    values: &mut [f64; 17],
    s: Simplex,
)
    ensures sx_after { sx.new ≡ s.x }
    ensures best_after { best.new ≡ s.best.x }
    ensures centroid_after { centroid.new ≡ s.cen }
    ensures reflected_after { reflected.new ≡ s.refl.x }
    ensures points_after { points.new ≡ points_of s.v }
    ensures values_after { values.new ≡ values_of s.v }
{
    let x = s.x;
    *sx = x;
    let at_best = s.best.x;
    *best = at_best;
    let cen = s.cen;
    *centroid = cen;
    let at_reflected = s.refl.x;
    *reflected = at_reflected;
    let v = s.v;
    let xs = points_of(v);
    *points = xs;
    let fs = values_of(v);
    *values = fs;
}

fn store_line(lx: &mut [f64; 16], lg: &mut [f64; 16], ld: &mut [f64; 16], l: Line)
    ensures lx_after { lx.new ≡ l.x }
    ensures lg_after { lg.new ≡ l.g }
    ensures ld_after { ld.new ≡ l.d }
{
    let x = l.x;
    *lx = x;
    let g = l.g;
    *lg = g;
    let d = l.d;
    *ld = d;
}

fn store_search(
    tx: &mut [f64; 16],
    tg: &mut [f64; 16],
    ex: &mut [f64; 16],
    eg: &mut [f64; 16],
    q: Search,
)
    ensures tx_after { tx.new ≡ q.best.x }
    ensures tg_after { tg.new ≡ q.best.g }
    ensures ex_after { ex.new ≡ q.diff.x }
    ensures eg_after { eg.new ≡ q.diff.g }
{
    let x = q.best.x;
    *tx = x;
    let g = q.best.g;
    *tg = g;
    let at = q.diff.x;
    *ex = at;
    let so_far = q.diff.g;
    *eg = so_far;
}

fn store_differences(x: &mut [f64; 16], g: &mut [f64; 16], e: Differences)
    ensures x_after { x.new ≡ e.x }
    ensures g_after { g.new ≡ e.g }
{
    let at = e.x;
    *x = at;
    let so_far = e.g;
    *g = so_far;
}

fn store_model(
    h: &mut [f64; 256],
    steps: &mut [[f64; 16]; 16],
    changes: &mut [[f64; 16]; 16],
    factors: &mut [f64; 16],
    q: Model,
)
    ensures h_after { h.new ≡ q.dense.h }
    ensures steps_after { steps.new ≡ steps_of q.pairs.pairs }
    ensures changes_after { changes.new ≡ changes_of q.pairs.pairs }
    ensures factors_after { factors.new ≡ factors_of q.pairs.pairs }
{
    let matrix = q.dense.h;
    *h = matrix;
    let p = q.pairs.pairs;
    let ss = steps_of(p);
    *steps = ss;
    let ys = changes_of(p);
    *changes = ys;
    let rs = factors_of(p);
    *factors = rs;
}

// The one form of a record in the lists, whatever they held. It is no `From`: neither type is this crate's.
#[tactic(auto, unfolding(optim_lists::specs::Lists::lists_of))]
pub fn store(l: Lent<'_>, r: Record)
    ensures { lists_left l.exit ≡ lists_of r }
{
    let Lent {
        m,
        w,
        dx,
        dg,
        sx,
        best,
        centroid,
        reflected,
        points,
        values,
        lx,
        lg,
        ld,
        tx,
        tg,
        ex,
        eg,
        ix,
        ig,
        h,
        steps,
        changes,
        factors,
    } = l;
    let ms = marks(r);
    *m = ms;
    let ws = numbers(r);
    *w = ws;
    store_differences(dx, dg, r.diff);
    store_simplex(sx, best, centroid, reflected, points, values, r.simplex);
    store_line(lx, lg, ld, r.descent.line);
    store_search(tx, tg, ex, eg, r.descent.search);
    store_differences(ix, ig, r.descent.diff);
    store_model(h, steps, changes, factors, r.model);
}
