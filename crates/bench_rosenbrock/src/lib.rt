// Fits of Rosenbrock's chain by the engine, for the benchmark: who links the archive times whole fits, and the
// objective alone. The contracts bound the count of questions, and say what is given where nothing is evaluated, and no
// more; all is proved safe and ending.
#![tactic(auto)]

ghost use Rattle.std.specs.Prelude.{◌≡◌, ◌≤◌, true};
ghost use Rattle.float.specs.Binary64.{plus_zero};
ghost use Rattle.bench_rosenbrock.specs.Most.{outside_of, most_of};

use optim::{Answered, Record};
use protocol::{
    Allowances, BFGS, GradientOptions, Kind, SIMPLEX, Said, SimplexOptions, WolfeOptions,
};

// How many questions a fit is answered at most.
const MOST: u64 = 100_000;

// A point of the chain: the first n of sixteen coordinates.
#[derive(Clone, Copy)]
struct Point {
    x: [f64; 16],
    n: usize,
    ghost within: { n ≤ 16 },
}

impl Point {
    // Where a fit starts: -1.2, 1, -1.2, 1, ..
    fn begin(n: usize) -> Point
        requires { n ≤ 16 }
    {
        let mut x = [0.0; 16];
        for i in 0..n {
            x[i] = if i % 2 == 0 { -1.2 } else { 1.0 };
        }
        Point { x, n }
    }

    // The sum of 100 (x[i] - x[i-1]²)² + (1 - x[i-1])² over the chain.
    fn value(&self) -> f64 {
        let mut f = 0.0;
        for i in 1..self.n {
            let a = self.x[i - 1];
            let b = self.x[i] - a * a;
            let c = 1.0 - a;
            f = f + (100.0 * b * b + c * c);
        }
        f
    }

    fn gradient(&self) -> [f64; 16] {
        let mut g = [0.0; 16];
        for i in 1..self.n {
            let a = self.x[i - 1];
            let b = self.x[i] - a * a;
            g[i - 1] = g[i - 1] - (400.0 * a * b + 2.0 * (1.0 - a));
            g[i] = g[i] + 200.0 * b;
        }
        g
    }

    // What an answer of that kind says of the point.
    fn words(&self, kind: Kind) -> [f64; 16] {
        match kind {
            Kind::Gradient => self.gradient(),
            Kind::Value => {
                let mut w = [0.0; 16];
                w[0] = self.value();
                w
            }
        }
    }

    // How many words that answer has.
    fn count_of(&self, kind: Kind) -> usize
        ensures { result ≤ 16 }
    {
        match kind {
            Kind::Gradient => self.n,
            Kind::Value => 1,
        }
    }

    // Puts the point and m at `at`, where there is room for them: the place behind them. The place stands beside the
    // list, which is fixed memory that who calls lends.
    fn put(&self, list: &mut [f64], at: usize, m: f64) -> usize {
        let n = self.n;
        if list.len() <= at || list.len() - at <= n {
            return at;
        }
        list[at..at + n].copy_from_slice(&self.x[..n]);
        list[at + n] = m;
        at + n + 1
    }
}

// The first reply of job 1 (simplex), 2 (bfgs) or else lbfgs, with the Rust's defaults for all options: written here too
// as `c_fit` has them, since the benchmark stands on no crate of functions for C. The job is a number, and `gradients` a
// flag, for who calls from C.
fn started(job: u64, n: usize, gradients: bool) -> Answered
    requires { n ≤ 16 }
{
    let all = Allowances::default();
    let x = Point::begin(n).x;
    let simplex = SimplexOptions {
        xtol: 1e-8,
        ftol: 1e-8,
        step: 0.05,
        restarts: 0,
        adaptive: true,
    };
    let wolfe = WolfeOptions {
        c1: 1e-4,
        c2: 0.9,
        stepmax: 1e10,
        evals: 30,
    };
    let gradient = GradientOptions {
        gradtol: 1e-8,
        ftol: 0.0,
        xtol: 0.0,
        wolfe,
        memory: 10,
        gradients,
    };
    match job {
        SIMPLEX => optim::simplex(&x[..n], simplex, all),
        BFGS => optim::bfgs(&x[..n], gradient, all),
        _ => optim::lbfgs(&x[..n], gradient, all),
    }
}

// The open question's number and kind, none where the fit is over.
fn question(said: Said) -> Option<(u64, Kind)> {
    match said {
        Said::Ask(number, kind) => Some((number, kind)),
        _ => None,
    }
}

// What stands behind a point in the list of questions: 0 for a value's, 1 for a gradient's, f for the outcome's,
// -1 for all else: a number and no enum, since it is put among the point's.
fn mark(said: Said) -> f64 {
    match said {
        Said::Ask(_, Kind::Value) => 0.0,
        Said::Ask(_, Kind::Gradient) => 1.0,
        Said::Fitted(summary) => summary.f,
        _ => -1.0,
    }
}

// The reply to the answer to a question. It alone calls `answer`, so that the compiler may put it in line.
fn told(r: Record, p: &Point, number: u64, kind: Kind) -> Answered {
    let w = p.words(kind);
    let count = p.count_of(kind);
    optim::answer(r, number, kind.into(), &w[..count])
}

// Whether n is none that a fit is started with.
#[tactic(auto, unfolding(crate::specs::Most::outside_of))]
fn outside(n: usize) -> bool
    ensures { result ≡ outside_of n }
{
    n == 0 || 16 < n
}

// Answers a whole fit from the chain's start: the count of questions, 0 where n is not from 1 to 16. Each question,
// and behind them the outcome, is put into `list` as far as it has room.
#[unsafe(no_mangle)]
pub extern "C" fn rosenbrock_fit(job: u64, n: usize, gradients: bool, list: &mut [f64]) -> u64
    ensures { result ≤ most_of n }
{
    if outside(n) {
        return 0;
    }
    let mut a = started(job, n, gradients);
    let mut at: usize = 0;
    for turns in 0..MOST {
        let x = a.x;
        let p = Point { x, n };
        at = p.put(list, at, mark(a.said));
        let Some((number, kind)) = question(a.said) else {
            return turns;
        };
        a = told(a.next, &p, number, kind);
    }
    MOST
}

// Evaluates the objective `count` times, each time at a point that depends on what the last gave: what it gave last, 0
// where n is not from 1 to 16 or count is 0. `slope` is a flag, and no Kind, for who calls from C.
#[unsafe(no_mangle)]
pub extern "C" fn rosenbrock_objective(n: usize, slope: bool, count: u64) -> f64
    ensures outside { outside_of n ≡ true → result ≡ plus_zero }
    ensures never { count ≡ 0 → result ≡ plus_zero }
{
    if outside(n) {
        return 0.0;
    }
    let kind = if slope { Kind::Gradient } else { Kind::Value };
    let mut p = Point::begin(n);
    let mut f = 0.0;
    for _ in 0..count {
        p.x[0] = p.x[0] + f * 1e-300;
        f = p.words(kind)[0];
    }
    f
}
