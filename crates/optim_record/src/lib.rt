// The record that passes through every call of the engine, and refusal 1.
#![tactic(auto)]

mod blanks;

ghost use Rattle.std.specs.Prelude.{◌≡◌};
ghost use Rattle.optim_record.specs.Record.{gradient_job_of, valid_simplex_of, valid_search_part_of, valid_search_of, known_refusal_of, valid_ending_of, valid_options_of, valid_model_of, valid_descent_of, valid_part_of, valid_of};

pub use blanks::{blank, idle, no_gradient_options, no_options, wolfe_options};
use linesearch_moves::FAILED;
use neldermead::{NOT_FINITE, Simplex};
use objective::Differences;
use protocol::{BFGS, DIFFERENCES, GradientOptions, LBFGS, SEARCH, SIMPLEX, Said, SimplexOptions};
use quasinewton::Descent;
use quasinewton_model::Model;
use quasinewton_record::{BY_REFUSAL, SEARCHING};

// Any count above this is out of range.
const MOST: u64 = 40_000_000_000;
// Allowances, restarts and max_evals above these are past the limits; an absent max_fevals of a gradient
// fit is the largest u64.
pub const MOST_ALLOWED: u64 = 1_000_000;

pub const MOST_RESTARTS: u64 = 100;

pub const MOST_EVALS: u64 = 1_000;

pub const NO_LIMIT: u64 = u64::MAX;

// Accepted V answers, and accepted G answers.
#[derive(Clone, Copy, Default, PartialEq, Eq)]
pub struct Counts {
    pub fevals: u64,
    pub gevals: u64,
}

// max_iter and max_fevals of a fit, an absent one as its default.
#[derive(Clone, Copy, Default, PartialEq, Eq)]
pub struct Limits {
    pub iter: u64,
    pub fevals: u64,
}

// All that the engine keeps between two calls. `accepted` is the number last accepted, 0 before the
// first; the open question's is one more. A part that its job does not use is as in `blank`. Marks, phases and flags
// are plain: C hands back any number in them, which is taken and met with refusal 1.
#[derive(Clone, Copy)]
pub struct Record {
    pub accepted: u64,
    pub job: u64,
    pub n: usize,
    pub counts: Counts,
    pub limits: Limits,
    pub options: SimplexOptions,
    pub gradient: GradientOptions,
    pub diff: Differences,
    pub simplex: Simplex,
    pub descent: Descent,
    pub model: Model,
}

// A reply, with the point and the gradient that it speaks of, and the record for the next call. That what is said is what stands in the
// record (`spoken_in` is `spoken_by`) is in each start's contract, and no invariant of this struct: anyone may build one.
#[derive(Clone, Copy)]
pub struct Answered {
    pub said: Said,
    pub x: [f64; 16],
    pub g: [f64; 16],
    pub next: Record,
}

// Whether a job is bfgs or lbfgs, for who holds a record: the sources here match on the marks.
#[tactic(auto, unfolding(crate::specs::Record::gradient_job_of))]
pub fn gradient_job(job: u64) -> bool
    ensures { result ≡ gradient_job_of job }
{
    job == BFGS || job == LBFGS
}

// Whether a record of the job simplex is in range.
#[tactic(auto, unfolding(crate::specs::Record::valid_simplex_of))]
fn valid_simplex(r: Record) -> bool
    ensures { result ≡ valid_simplex_of r }
{
    let s = r.simplex;
    r.n != 0
        && s.at <= r.n
        && s.phase != 0
        && s.phase <= NOT_FINITE
        && s.rounds <= MOST
        && s.runs <= MOST
        && r.limits.iter <= MOST_ALLOWED
        && r.limits.fevals <= MOST_ALLOWED
        && r.options.restarts <= MOST_RESTARTS
}

// Whether the search that a record holds is in range: its mark, max_evals, trials and position.
#[tactic(auto, unfolding(crate::specs::Record::valid_search_part_of))]
fn valid_search_part(r: Record) -> bool
    ensures { result ≡ valid_search_part_of r }
{
    let s = r.descent.search;
    let w = r.gradient.wolfe;
    s.phase != 0
        && s.phase <= FAILED
        && w.evals <= MOST_EVALS
        && s.trials <= w.evals
        && s.diff.at <= r.n
}

// Whether a record of the job search is in range.
#[tactic(auto, unfolding(crate::specs::Record::valid_search_of))]
fn valid_search(r: Record) -> bool
    ensures { result ≡ valid_search_of r }
{
    r.n != 0 && r.descent.phase == SEARCHING && valid_search_part(r)
}

// Whether a number and a detail are those of a refusal that may end a gradient fit.
#[tactic(auto, unfolding(crate::specs::Record::known_refusal_of))]
fn known_refusal(number: u64, detail: u64) -> bool
    ensures { result ≡ known_refusal_of number detail }
{
    match number {
        5 => detail == 1 || detail == 2,
        12 => detail != 0 && detail <= 4,
        6 | 7 | 9..=11 | 13 | 14 | 18 | 19 => detail == 0,
        _ => false,
    }
}

// Whether a descent that a refusal ended knows it.
#[tactic(auto, unfolding(crate::specs::Record::valid_ending_of))]
fn valid_ending(d: Descent) -> bool
    ensures { result ≡ valid_ending_of d }
{
    d.phase != BY_REFUSAL || known_refusal(d.number, d.detail)
}

// Whether the allowances and the memory of a gradient fit are within the limits.
#[tactic(auto, unfolding(crate::specs::Record::valid_options_of))]
fn valid_options(r: Record) -> bool
    ensures { result ≡ valid_options_of r }
{
    r.limits.iter <= MOST_ALLOWED
        && r.gradient.memory <= 16
        && (r.limits.fevals == NO_LIMIT || r.limits.fevals <= MOST_ALLOWED)
}

// Whether a model holds no more pairs than its memory, and that no more than sixteen.
#[tactic(auto, unfolding(crate::specs::Record::valid_model_of))]
fn valid_model(m: Model) -> bool
    ensures { result ≡ valid_model_of m }
{
    m.memory <= 16 && m.pairs.count <= m.memory
}

// Whether a record of the jobs bfgs and lbfgs is in range.
#[tactic(auto, unfolding(crate::specs::Record::valid_descent_of))]
fn valid_descent(r: Record) -> bool
    ensures { result ≡ valid_descent_of r }
{
    let d = r.descent;
    r.n != 0
        && d.phase != 0
        && d.phase <= BY_REFUSAL
        && valid_ending(d)
        && d.rounds <= MOST
        && d.diff.at <= r.n
        && valid_options(r)
        && valid_model(r.model)
        && valid_search_part(r)
}

// Whether the part of a record that its job uses is in range.
#[tactic(auto, unfolding(crate::specs::Record::valid_part_of, crate::specs::Record::gradient_job_of))]
fn valid_part(r: Record) -> bool
    ensures { result ≡ valid_part_of r }
{
    match r.job {
        SIMPLEX => valid_simplex(r),
        BFGS | LBFGS => valid_descent(r),
        SEARCH => valid_search(r),
        DIFFERENCES => r.diff.at <= r.n,
        _ => false,
    }
}

// Refusal 1: whether the record is in range. It is no method, since optim passes it on by this name.
#[tactic(auto, unfolding(crate::specs::Record::valid_of))]
pub fn valid(r: Record) -> bool
    ensures { result ≡ valid_of r }
{
    r.n <= 16
        && r.accepted <= MOST
        && r.counts.fevals <= MOST
        && r.counts.gevals <= MOST
        && valid_part(r)
}
