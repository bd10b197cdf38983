// What stands in a record: its open question, or its outcome. These are functions, and no methods of the record: those only
// optim_record could declare.
#![tactic(auto)]

ghost use Rattle.std.specs.Prelude.{◌≡◌, ◌≤◌};
ghost use Rattle.optim_record.specs.Record.{outcome_of, fixed_of, search_fixed_of, gradient_fixed_of, Stands};
ghost use Rattle.optim_reply.specs.Standing.{over_of, gradient_due_of, termination_of, descent_termination_of, descent_converged_of};
ghost use Rattle.optim_reply.specs.Spoken.{reply_with, refusal_of, asked_of, fitted_of, simplex_spoken_of, found_of, search_spoken_of, descent_spoken_of, differences_spoken_of, spoken_of, spoken_in};

use linesearch::{Line, Search};
use linesearch_moves::{ASKS_DIFFERENCE, ASKS_GRADIENT, FOUND};
use neldermead::{
    BY_RESOLUTION, BY_SIMPLEX_ITERATIONS, BY_TOLERANCE, Fixed, NOT_FINITE, SHRINKING,
};
use neldermead_vertices::Vertex;
use objective::Differences;
use optim_record::{Answered, Counts, Record};
use protocol::{BFGS, Found, Kind, LBFGS, Refusal, SEARCH, SIMPLEX, Said, Summary, Termination};
use quasinewton::Descent;
use quasinewton_record::{
    BY_FEVALS, BY_FUNCTION, BY_GRADIENT, BY_ITERATIONS, BY_REFUSAL, BY_SEARCH, BY_STEP,
};

// A reply, with the point and the gradient that it speaks of.
#[derive(Clone, Copy)]
pub struct Spoken {
    pub said: Said,
    pub x: [f64; 16],
    pub g: [f64; 16],
}

// A refusal, which speaks of no point.
pub fn refused(why: Refusal) -> Spoken
    ensures { result ≡ refusal_of why.number why.detail }
{
    Spoken {
        said: Said::Refused(why),
        x: [0.0; 16],
        g: [0.0; 16],
    }
}

// What the start of a simplex fit fixed.
pub fn fixed(r: Record) -> Fixed
    ensures { result ≡ fixed_of r }
{
    Fixed {
        n: r.n,
        options: r.options,
        iter: r.limits.iter,
        fevals: r.limits.fevals,
    }
}

// What the start of a search fixed.
pub fn search_fixed(r: Record) -> linesearch::Fixed
    ensures { result ≡ search_fixed_of r }
{
    linesearch::Fixed {
        n: r.n,
        gradients: r.gradient.gradients,
        options: r.gradient.wolfe,
    }
}

// What the start of a gradient fit fixed.
pub fn gradient_fixed(r: Record) -> quasinewton::Fixed
    ensures { result ≡ gradient_fixed_of r }
{
    quasinewton::Fixed {
        n: r.n,
        options: r.gradient,
        iter: r.limits.iter,
        fevals: r.limits.fevals,
    }
}

// Whether the job has ended: a question is open in the phases up to SHRINKING and, of a search, ASKS_DIFFERENCE. This and the next are two
// tests, and no one Option<Kind>: each is asked by itself, and has its own definition.
#[tactic(auto, unfolding(crate::specs::Standing::over_of, optim_record::specs::Record::gradient_job_of))]
pub fn over(r: Record) -> bool
    ensures { result ≡ over_of r }
{
    match r.job {
        SIMPLEX => SHRINKING < r.simplex.phase,
        SEARCH => ASKS_DIFFERENCE < r.descent.search.phase,
        BFGS | LBFGS => !r.descent.asks(),
        _ => r.diff.at == r.n,
    }
}

// Whether the open question is for a gradient.
#[tactic(auto, unfolding(crate::specs::Standing::gradient_due_of, optim_record::specs::Record::gradient_job_of))]
pub fn gradient_due(r: Record) -> bool
    ensures { result ≡ gradient_due_of r }
{
    match r.job {
        SEARCH => r.descent.search.phase == ASKS_GRADIENT,
        BFGS | LBFGS => r.descent.gradient_due(),
        _ => false,
    }
}

// The reason that a simplex fit's phase stands for: MaxFevals has the phase that is left. It and `descent_termination` are no one
// function of a phase: the numbers overlap, as 7 is BY_TOLERANCE here and BY_STEP there.
#[tactic(auto, unfolding(crate::specs::Standing::termination_of))]
fn termination(phase: u64) -> Termination
    ensures { result ≡ termination_of phase }
{
    match phase {
        BY_TOLERANCE => Termination::SimplexTolerance,
        BY_RESOLUTION => Termination::ObjectiveResolution,
        BY_SIMPLEX_ITERATIONS => Termination::MaxIterations,
        _ => Termination::MaxFevals,
    }
}

// The question of a kind at x, after `accepted` answers. The bound on that count stands in each function that leads here, and in no struct,
// which would be no plainer: `standing` reads the count off a plain Record, which holds any number, and three of them are public.
pub fn asks(accepted: u64, kind: Kind, x: [f64; 16]) -> Spoken
    requires { accepted ≤ 40000000001 }
    ensures { result ≡ asked_of accepted kind x }
{
    Spoken {
        said: Said::Ask(accepted + 1, kind),
        x,
        g: [0.0; 16],
    }
}

// The result of a fit: why it stopped, whether it converged, its rounds, its counts, and the best point with its value.
fn ends(reason: Termination, converged: bool, rounds: u64, counts: Counts, best: &Vertex) -> Spoken
    ensures { result ≡ fitted_of reason converged rounds counts best.now }
{
    let summary = Summary {
        reason,
        converged,
        iterations: rounds,
        fevals: counts.fevals,
        gevals: counts.gevals,
        f: best.f,
    };
    Spoken {
        said: Said::Fitted(summary),
        x: best.x,
        g: [0.0; 16],
    }
}

// What stands in a simplex fit: parts of its record are passed, since the whole would be copied.
#[tactic(auto, unfolding(crate::specs::Spoken::simplex_spoken_of))]
fn standing_simplex(
    accepted: u64,
    counts: Counts,
    phase: u64,
    rounds: u64,
    x: [f64; 16],
    best: Vertex,
) -> Spoken
    requires { accepted ≤ 40000000001 }
    ensures { result ≡ simplex_spoken_of accepted counts phase rounds x best }
{
    match phase {
        0..=SHRINKING => asks(accepted, Kind::Value, x),
        NOT_FINITE => refused(Refusal::new(20, 0)),
        _ => ends(
            termination(phase),
            phase == BY_TOLERANCE,
            rounds,
            counts,
            &best,
        ),
    }
}

// The outcome of a search.
fn found(s: &Search) -> Spoken
    ensures { result ≡ found_of s.now }
{
    let outcome = Found {
        success: s.phase == FOUND,
        step: s.best.trial.step,
        f: s.best.trial.value,
        trials: s.trials,
    };
    Spoken {
        said: Said::Searched(outcome),
        x: s.best.x,
        g: s.best.g,
    }
}

// What stands in a search.
#[tactic(auto, unfolding(crate::specs::Spoken::search_spoken_of))]
pub fn standing_search(accepted: u64, fixed: linesearch::Fixed, line: Line, s: Search) -> Spoken
    requires accepted_bound { accepted ≤ 40000000001 }
    requires n_bound { fixed.n ≤ 16 }
    ensures { result ≡ search_spoken_of accepted fixed line s }
{
    let kind = match s.phase {
        ASKS_GRADIENT => Kind::Gradient,
        0..=ASKS_DIFFERENCE => Kind::Value,
        _ => return found(&s),
    };
    asks(
        accepted,
        kind,
        linesearch::probe(&linesearch::Setup { fixed, line }, s),
    )
}

// The reason that a gradient fit's phase stands for: GradientFailed has the phase that is left.
#[tactic(auto, unfolding(crate::specs::Standing::descent_termination_of))]
fn descent_termination(phase: u64) -> Termination
    ensures { result ≡ descent_termination_of phase }
{
    match phase {
        BY_GRADIENT => Termination::GradientTolerance,
        BY_FUNCTION => Termination::FunctionTolerance,
        BY_STEP => Termination::StepTolerance,
        BY_ITERATIONS => Termination::MaxIterations,
        BY_FEVALS => Termination::MaxFevals,
        BY_SEARCH => Termination::LineSearchFailed,
        _ => Termination::GradientFailed,
    }
}

// Whether a gradient fit's phase is one of convergence: BY_GRADIENT, BY_FUNCTION or BY_STEP.
#[tactic(auto, unfolding(crate::specs::Standing::descent_converged_of))]
fn descent_converged(phase: u64) -> bool
    ensures { result ≡ descent_converged_of phase }
{
    matches!(phase, BY_GRADIENT..=BY_STEP)
}

// What stands in a gradient fit.
#[tactic(auto, unfolding(crate::specs::Spoken::descent_spoken_of))]
fn standing_descent(accepted: u64, counts: Counts, fixed: quasinewton::Fixed, d: &Descent) -> Spoken
    requires accepted_bound { accepted ≤ 40000000001 }
    requires n_bound { fixed.n ≤ 16 }
    ensures { result ≡ descent_spoken_of accepted counts fixed d.now }
{
    if d.asks() {
        let kind = if d.gradient_due() {
            Kind::Gradient
        } else {
            Kind::Value
        };
        return asks(accepted, kind, quasinewton::probe(fixed, *d));
    }
    match d.phase {
        BY_REFUSAL => refused(Refusal::new(d.number, d.detail)),
        phase => {
            ends(
                descent_termination(phase),
                descent_converged(phase),
                d.rounds,
                counts,
                &Vertex {
                    x: d.line.x,
                    f: d.line.f,
                },
            )
        }
    }
}

// What stands in differences.
#[tactic(auto, unfolding(crate::specs::Spoken::differences_spoken_of))]
pub fn standing_differences(accepted: u64, n: usize, diff: Differences) -> Spoken
    requires accepted_bound { accepted ≤ 40000000001 }
    requires n_bound { n ≤ 16 }
    requires at_le_n { diff.at ≤ n }
    ensures { result ≡ differences_spoken_of accepted n diff }
{
    if diff.at == n {
        return Spoken {
            said: Said::Differenced,
            x: diff.x,
            g: diff.g,
        };
    }
    asks(accepted, Kind::Value, diff.probe())
}

// The question or the outcome that stands.
#[tactic(auto, unfolding(crate::specs::Spoken::spoken_of, optim_record::specs::Record::gradient_job_of))]
pub fn standing(r: &Record) -> Spoken
    requires { Stands r.now }
    ensures { result ≡ spoken_of r.now }
{
    match r.job {
        SIMPLEX => standing_simplex(
            r.accepted,
            r.counts,
            r.simplex.phase,
            r.simplex.rounds,
            r.simplex.x,
            r.simplex.best,
        ),
        SEARCH => standing_search(
            r.accepted,
            search_fixed(*r),
            r.descent.line,
            r.descent.search,
        ),
        BFGS | LBFGS => standing_descent(r.accepted, r.counts, gradient_fixed(*r), &r.descent),
        _ => standing_differences(r.accepted, r.n, r.diff),
    }
}

// What is said, beside its record. By locals: with `x: s.x` and `g: s.g` in the literal the check does not take this function.
#[tactic(auto, unfolding(crate::specs::Spoken::reply_with, optim_record::specs::Record::outcome_of))]
pub fn answered(s: Spoken, r: Record) -> Answered
    ensures { (outcome_of result ≡ reply_with s r) × (spoken_in result ≡ s) }
{
    let x = s.x;
    let g = s.g;
    Answered {
        said: s.said,
        x,
        g,
        next: r,
    }
}
