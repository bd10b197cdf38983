// The parts of a record, each read off the lists by the places of the layout.
ghost use Rattle.std.specs.Prelude.{◌≡◌, ◌<◌};
ghost use Rattle.optim_lists.specs.Lists.{vertex_of, pair_of, vertices_from, pairs_from, options_from, gradient_options_from, differences_in, simplex_in, line_in, search_in, descent_in, model_in};
ghost use Rattle.optim_lists.specs.Lent.{lists_held};
ghost use Rattle.optim_lists.specs.Parts.{trial_of, told_of};

use linesearch::Search;
use linesearch_trials::{Evaluation, Line, Trial};
use neldermead::Simplex;
use neldermead_vertices::Vertex;
use objective::Differences;
use optim_lists::Held;
use protocol::{GradientOptions, SimplexOptions, WolfeOptions};
use quasinewton_dense::Dense;
use quasinewton_limited::{Limited, Pair};
use quasinewton_model::Model;
use quasinewton_record::Descent;

// Points and values as vertices. (This and `pairs` differ in the fields. A generic one would be given each closure with its contract,
// which is all that each is.)
fn vertices(xs: [[f64; 16]; 17], fs: [f64; 17]) -> [Vertex; 17]
    ensures { result ≡ vertices_from xs fs }
{
    std::array::from_fn(
        |i: usize| -> Vertex
            requires { i < 17 }
            ensures { result ≡ vertex_of xs fs i }
        { Vertex { x: xs[i], f: fs[i] } },
    )
}

// Steps, changes and factors as pairs.
fn pairs(ss: [[f64; 16]; 16], ys: [[f64; 16]; 16], rs: [f64; 16]) -> [Pair; 16]
    ensures { result ≡ pairs_from ss ys rs }
{
    std::array::from_fn(
        |i: usize| -> Pair
            requires { i < 16 }
            ensures { result ≡ pair_of ss ys rs i }
        {
            Pair {
                s: ss[i],
                y: ys[i],
                rho: rs[i],
            }
        },
    )
}

// The trial whose step, value and slope lie from this place on.
fn trial(w: &[f64; 28], at: usize) -> Trial
    requires { at < 26 }
    ensures { result ≡ trial_of w.now at }
{
    Trial {
        step: w[at],
        value: w[at + 1],
        slope: w[at + 2],
    }
}

// Differences, by their marks, the value told forward, and their point and gradient.
fn told(at: u64, forward: u64, value: f64, x: &[f64; 16], g: &[f64; 16]) -> Differences
    ensures { result ≡ told_of at forward value x.now g.now }
{
    Differences {
        at: at as usize,
        forward: forward != 0,
        value,
        x: *x,
        g: *g,
    }
}

pub fn options(l: &Held<'_>) -> SimplexOptions
    ensures { result ≡ options_from l.now.m.now l.now.w.now }
{
    SimplexOptions {
        xtol: l.w[0],
        ftol: l.w[1],
        step: l.w[2],
        restarts: l.m[7],
        adaptive: l.m[25] != 0,
    }
}

pub fn gradient_options(l: &Held<'_>) -> GradientOptions
    ensures { result ≡ gradient_options_from l.now.m.now l.now.w.now }
{
    GradientOptions {
        gradtol: l.w[3],
        ftol: l.w[4],
        xtol: l.w[5],
        wolfe: WolfeOptions {
            c1: l.w[6],
            c2: l.w[7],
            stepmax: l.w[8],
            evals: l.m[8],
        },
        memory: l.m[9],
        gradients: l.m[26] != 0,
    }
}

pub fn differences(l: &Held<'_>) -> Differences
    ensures { result ≡ differences_in (lists_held l.now) }
{
    told(l.m[10], l.m[27], l.w[9], l.dx, l.dg)
}

pub fn simplex(l: &Held<'_>) -> Simplex
    ensures { result ≡ simplex_in (lists_held l.now) }
{
    Simplex {
        phase: l.m[11],
        at: l.m[12] as usize,
        rounds: l.m[13],
        runs: l.m[14],
        x: *l.sx,
        best: Vertex {
            x: *l.best,
            f: l.w[10],
        },
        cen: *l.centroid,
        refl: Vertex {
            x: *l.reflected,
            f: l.w[11],
        },
        v: vertices(*l.points, *l.values),
    }
}

fn line(l: &Held<'_>) -> Line
    ensures { result ≡ line_in (lists_held l.now) }
{
    Line {
        x: *l.lx,
        g: *l.lg,
        d: *l.ld,
        f: l.w[12],
        slope: l.w[13],
    }
}

fn search(l: &Held<'_>) -> Search
    ensures { result ≡ search_in (lists_held l.now) }
{
    Search {
        phase: l.m[19],
        zooming: l.m[29] != 0,
        trials: l.m[20],
        previous: l.m[30] != 0,
        lo: trial(l.w, 14),
        hi: trial(l.w, 17),
        step: l.w[20],
        value: l.w[21],
        kept: l.m[31] != 0,
        best: Evaluation {
            trial: trial(l.w, 22),
            x: *l.tx,
            g: *l.tg,
        },
        diff: told(l.m[21], l.m[32], l.w[25], l.ex, l.eg),
    }
}

pub fn descent(l: &Held<'_>) -> Descent
    ensures { result ≡ descent_in (lists_held l.now) }
{
    Descent {
        phase: l.m[15],
        number: l.m[16],
        detail: l.m[17],
        first: l.m[28] != 0,
        rounds: l.m[18],
        line: line(l),
        search: search(l),
        diff: told(l.m[22], l.m[33], l.w[26], l.ix, l.ig),
    }
}

pub fn model(l: &Held<'_>) -> Model
    ensures { result ≡ model_in (lists_held l.now) }
{
    Model {
        limited: l.m[34] != 0,
        memory: l.m[23] as usize,
        dense: Dense {
            fresh: l.m[35] != 0,
            h: *l.h,
        },
        pairs: Limited {
            count: l.m[24] as usize,
            gamma: l.w[27],
            pairs: pairs(*l.steps, *l.changes, *l.factors),
        },
    }
}
