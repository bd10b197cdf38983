// The strong Wolfe search of linesearch.rs, one answer at a time. Each move takes what is told for the open
// question, and gives the record with the next question or the outcome in it. The moves are functions, and no
// methods: only the crate that declares the record, `linesearch_moves`, could give it methods, and these moves are a
// crate of their own above it. The opening of a fit, in `quasinewton_round`, has moves of the same names, and says why
// they are not these.
#![tactic(auto)]

ghost use Rattle.std.specs.Prelude.{◌≡◌, ◌≤◌};
ghost use Rattle.linesearch.specs.Step.{graded_of, differing_of, eval_gradient_of, valued_of, begun_of, probe_of, told_of, told_gradient_of};

pub use linesearch_moves::Search;
use linesearch_moves::{ASKS_DIFFERENCE, ASKS_GRADIENT, ASKS_VALUE};
pub use linesearch_trials::{
    Evaluation, Fixed, Line, Setup, Trial, counts_refusal, line_from, line_refusal, options_refusal,
};
use objective::Differences;

// The trial's gradient is g.
#[tactic(auto, unfolding(crate::specs::Step::graded_of))]
fn graded(setup: &Setup, s: Search, g: [f64; 16]) -> Search
    requires { setup.now.fixed.n ≤ 16 }
    ensures { result ≡ graded_of setup.now.fixed setup.now.line s g }
{
    let t = setup.evaluated(s.step, s.value, g);
    s.decided(setup, t)
}

// The differences have a question, or are done.
#[tactic(auto, unfolding(crate::specs::Step::differing_of))]
fn differing(setup: &Setup, mut s: Search, e: Differences) -> Search
    requires { setup.now.fixed.n ≤ 16 }
    ensures { result ≡ differing_of setup.now.fixed setup.now.line s e }
{
    if e.at < setup.fixed.n {
        s.phase = ASKS_DIFFERENCE;
        s.diff = e;
        return s;
    }
    graded(setup, s, e.g)
}

// The trial's value is told and finite: its gradient is next.
#[tactic(auto, unfolding(crate::specs::Step::eval_gradient_of))]
fn eval_gradient(setup: &Setup, mut s: Search) -> Search
    requires { setup.now.fixed.n ≤ 16 }
    ensures { result ≡ eval_gradient_of setup.now.fixed setup.now.line s }
{
    if setup.fixed.gradients {
        s.phase = ASKS_GRADIENT;
        return s;
    }
    let x = setup.point_at(s.step);
    differing(setup, s, Differences::begun(x))
}

// The trial's value is v.
#[tactic(auto, unfolding(crate::specs::Step::valued_of))]
fn valued(setup: &Setup, mut s: Search, v: f64) -> Search
    requires { setup.now.fixed.n ≤ 16 }
    ensures { result ≡ valued_of setup.now.fixed setup.now.line s v }
{
    s.value = v;
    if float::is_finite(v) {
        return eval_gradient(setup, s);
    }
    let t = setup.infeasible(s.step, v);
    s.decided(setup, t)
}

// The search along a line from a first step.
#[tactic(auto, unfolding(crate::specs::Step::begun_of))]
pub fn begun(setup: &Setup, initial: f64) -> Search
    ensures { result ≡ begun_of setup.now.fixed setup.now.line initial }
{
    let first = float::min(initial, setup.fixed.options.stepmax);
    Search::no_trial().bracket(setup, first)
}

// The point of the open question.
#[tactic(auto, unfolding(crate::specs::Step::probe_of))]
pub fn probe(setup: &Setup, s: Search) -> [f64; 16]
    requires { setup.now.fixed.n ≤ 16 }
    ensures { result ≡ probe_of setup.now.fixed setup.now.line s }
{
    match s.phase {
        ASKS_DIFFERENCE if s.diff.at < setup.fixed.n => s.diff.probe(),
        ASKS_DIFFERENCE => s.diff.x,
        _ => setup.point_at(s.step),
    }
}

// A value is told: v is how a trial's is read, w how one for differences is. A record that asks for none
// stays as it is.
#[tactic(auto, unfolding(crate::specs::Step::told_of))]
pub fn told(setup: &Setup, s: Search, v: f64, w: f64) -> Search
    requires { setup.now.fixed.n ≤ 16 }
    ensures { result ≡ told_of setup.now.fixed setup.now.line s v w }
{
    match s.phase {
        ASKS_VALUE => valued(setup, s, v),
        ASKS_DIFFERENCE if s.diff.at < setup.fixed.n => differing(setup, s, s.diff.told(w)),
        _ => s,
    }
}

// A gradient is told. A record that asks for none stays as it is.
#[tactic(auto, unfolding(crate::specs::Step::told_gradient_of))]
pub fn told_gradient(setup: &Setup, s: Search, g: [f64; 16]) -> Search
    requires { setup.now.fixed.n ≤ 16 }
    ensures { result ≡ told_gradient_of setup.now.fixed setup.now.line s g }
{
    match s.phase {
        ASKS_GRADIENT => graded(setup, s, g),
        _ => s,
    }
}
