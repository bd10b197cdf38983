// What a call says, as a struct of numbers: an enum does not cross to C.
ghost use Rattle.std.specs.Prelude.{◌≡◌, []};
ghost use Rattle.protocol.specs.declared.Said.TheVariants.{Fitted, Searched};
ghost use Rattle.protocol.specs.Protocol.{reply_of};
ghost use Rattle.c_api.specs.Reply.{reason_of, reply_as};

use protocol::{Found, Said, Summary, Termination};

// `what` is 1 for a question, 2 for a fit's result, 3 for a search's, 4 for a gradient by differences, 5 for a refusal. A field that
// a reply has no use for is zero, or false.
#[repr(C)]
#[derive(Clone, Copy, Default)]
pub struct Reply {
    pub what: u64,
    pub number: u64,
    pub reason: u64,
    pub iterations: u64,
    pub fevals: u64,
    pub gevals: u64,
    pub trials: u64,
    pub refusal: u64,
    pub detail: u64,
    pub f: f64,
    pub step: f64,
    pub kind: u8,
    pub converged: bool,
    pub success: bool,
}

// A reason's place among the nine, from 1. A match and no `From`: neither type is this crate's, and the numbers are include/fit.h's.
fn place(t: Termination) -> u64
    ensures { result ≡ reason_of t }
{
    match t {
        Termination::GradientTolerance => 1,
        Termination::SimplexTolerance => 2,
        Termination::StepTolerance => 3,
        Termination::FunctionTolerance => 4,
        Termination::MaxIterations => 5,
        Termination::MaxFevals => 6,
        Termination::LineSearchFailed => 7,
        Termination::GradientFailed => 8,
        Termination::ObjectiveResolution => 9,
    }
}

// A fit's result.
#[tactic(auto, unfolding(crate::specs::Reply::reply_as, protocol::specs::Protocol::reply_of))]
fn fitted(fit: Summary) -> Reply
    ensures { result ≡ reply_as (reply_of (Fitted fit) 0 [] []) }
{
    Reply {
        what: 2,
        reason: place(fit.reason),
        converged: fit.converged,
        iterations: fit.iterations,
        fevals: fit.fevals,
        gevals: fit.gevals,
        f: fit.f,
        ..Reply::default()
    }
}

// A search's.
#[tactic(auto, unfolding(crate::specs::Reply::reply_as, protocol::specs::Protocol::reply_of))]
fn searched(found: Found) -> Reply
    ensures { result ≡ reply_as (reply_of (Searched found) 0 [] []) }
{
    Reply {
        what: 3,
        success: found.success,
        step: found.step,
        f: found.f,
        trials: found.trials,
        ..Reply::default()
    }
}

// What is said, by its numbers alone: point and gradient are lent beside it.
#[tactic(auto, unfolding(crate::specs::Reply::reply_as, protocol::specs::Protocol::reply_of))]
impl From<Said> for Reply {
    ghost from_gives = { λ s r. r ≡ reply_as (reply_of s 0 [] []) };

    fn from(s: Said) -> Reply {
        match s {
            Said::Ask(number, k) => Reply {
                what: 1,
                number,
                kind: k.into(),
                ..Reply::default()
            },
            Said::Fitted(fit) => fitted(fit),
            Said::Searched(found) => searched(found),
            Said::Differenced => Reply {
                what: 4,
                ..Reply::default()
            },
            Said::Refused(why) => Reply {
                what: 5,
                refusal: why.number,
                detail: why.detail,
                ..Reply::default()
            },
        }
    }
}
