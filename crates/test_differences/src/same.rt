// Whether two records have the same bits, one pattern counting for every NaN: no derived equality
// says so, since a NaN is not equal to itself and the two zeros are equal.
use linesearch::{Evaluation, Line, Search, Trial};
use neldermead::Simplex;
use neldermead_vertices::Vertex;
use objective::Differences;
use optim::Record;
use protocol::{GradientOptions, SimplexOptions, WolfeOptions};
use quasinewton::Descent;
use quasinewton_model::{Dense, Limited, Model, Pair};
use test_rows::same as number;

// Whether two lists are the same place by place.
fn all<T: Copy, F: Fn(T, T) -> bool>(a: &[T], b: &[T], same: F) -> bool
    requires { F.IsAlwaysCallable same }
{
    a.iter().zip(b).all(|(x, y)| same(*x, *y))
}

fn list(a: &[f64; 16], b: &[f64; 16]) -> bool {
    all(a, b, number)
}

fn options(a: SimplexOptions, b: SimplexOptions) -> bool {
    number(a.xtol, b.xtol)
        && number(a.ftol, b.ftol)
        && number(a.step, b.step)
        && a.restarts == b.restarts
        && a.adaptive == b.adaptive
}

fn wolfe(a: WolfeOptions, b: WolfeOptions) -> bool {
    number(a.c1, b.c1) && number(a.c2, b.c2) && number(a.stepmax, b.stepmax) && a.evals == b.evals
}

fn gradient(a: GradientOptions, b: GradientOptions) -> bool {
    number(a.gradtol, b.gradtol)
        && number(a.ftol, b.ftol)
        && number(a.xtol, b.xtol)
        && wolfe(a.wolfe, b.wolfe)
        && a.memory == b.memory
        && a.gradients == b.gradients
}

fn differences(a: &Differences, b: &Differences) -> bool {
    a.at == b.at
        && a.forward == b.forward
        && number(a.value, b.value)
        && list(&a.x, &b.x)
        && list(&a.g, &b.g)
}

fn vertex(a: Vertex, b: Vertex) -> bool {
    number(a.f, b.f) && list(&a.x, &b.x)
}

fn simplex(a: &Simplex, b: &Simplex) -> bool {
    a.phase == b.phase
        && a.at == b.at
        && a.rounds == b.rounds
        && a.runs == b.runs
        && list(&a.x, &b.x)
        && vertex(a.best, b.best)
        && list(&a.cen, &b.cen)
        && vertex(a.refl, b.refl)
        && all(&a.v, &b.v, vertex)
}

fn line(a: &Line, b: &Line) -> bool {
    list(&a.x, &b.x)
        && list(&a.g, &b.g)
        && list(&a.d, &b.d)
        && number(a.f, b.f)
        && number(a.slope, b.slope)
}

fn trial(a: Trial, b: Trial) -> bool {
    number(a.step, b.step) && number(a.value, b.value) && number(a.slope, b.slope)
}

fn evaluation(a: &Evaluation, b: &Evaluation) -> bool {
    trial(a.trial, b.trial) && list(&a.x, &b.x) && list(&a.g, &b.g)
}

fn search(a: &Search, b: &Search) -> bool {
    a.phase == b.phase
        && a.zooming == b.zooming
        && a.trials == b.trials
        && a.previous == b.previous
        && number(a.step, b.step)
        && number(a.value, b.value)
        && a.kept == b.kept
        && trial(a.lo, b.lo)
        && trial(a.hi, b.hi)
        && evaluation(&a.best, &b.best)
        && differences(&a.diff, &b.diff)
}

fn descent(a: &Descent, b: &Descent) -> bool {
    a.phase == b.phase
        && a.number == b.number
        && a.detail == b.detail
        && a.first == b.first
        && a.rounds == b.rounds
        && line(&a.line, &b.line)
        && search(&a.search, &b.search)
        && differences(&a.diff, &b.diff)
}

fn dense(a: &Dense, b: &Dense) -> bool {
    a.fresh == b.fresh && all(&a.h, &b.h, number)
}

fn pair(a: Pair, b: Pair) -> bool {
    list(&a.s, &b.s) && list(&a.y, &b.y) && number(a.rho, b.rho)
}

fn limited(a: &Limited, b: &Limited) -> bool {
    a.count == b.count && number(a.gamma, b.gamma) && all(&a.pairs, &b.pairs, pair)
}

fn model(a: &Model, b: &Model) -> bool {
    a.limited == b.limited
        && a.memory == b.memory
        && dense(&a.dense, &b.dense)
        && limited(&a.pairs, &b.pairs)
}

pub fn record(a: &Record, b: &Record) -> bool {
    a.accepted == b.accepted
        && a.job == b.job
        && a.n == b.n
        && a.counts == b.counts
        && a.limits == b.limits
        && options(a.options, b.options)
        && gradient(a.gradient, b.gradient)
        && differences(&a.diff, &b.diff)
        && simplex(&a.simplex, &b.simplex)
        && descent(&a.descent, &b.descent)
        && model(&a.model, &b.model)
}
