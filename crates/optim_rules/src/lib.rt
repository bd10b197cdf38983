// What an answer meets, and what an accepted one moves: the refusals and the repeat rule, the counts, and each job's part. These are
// functions, and no methods of the record: those only optim_record could declare.
#![tactic(auto)]

ghost use Rattle.std.specs.Prelude.{◌≡◌, ◌≤◌, ◌<◌, length};
ghost use Rattle.optim_record.specs.Record.{Ranges};
ghost use Rattle.protocol.specs.Protocol.{refusal, as_result, simplex_mark};
ghost use Rattle.optim_rules.specs.Rules.{repeats_of, suits_of, meets_of, met_of, accepts_of, accepted_of};
ghost use Rattle.optim_rules.specs.Moves.{Worded, counted_of, simplex_told_of, search_told_of, descent_told_of};

use neldermead::Simplex;
use optim_record::{Counts, Record};
use protocol::{Kind, Refusal};
use quasinewton::Descent;

// Whether a number is that of the last accepted answer; before the first none is.
#[tactic(auto, unfolding(crate::specs::Rules::repeats_of))]
fn repeats(accepted: u64, number: u64) -> bool
    ensures { result ≡ repeats_of accepted number }
{
    accepted != 0 && number == accepted
}

// Whether an answer's kind and count of words are those of the open question.
#[tactic(auto, unfolding(crate::specs::Rules::suits_of))]
fn suits(r: Record, kind: u8, count: usize) -> bool
    ensures { result ≡ suits_of r kind count }
{
    if optim_reply::gradient_due(r) {
        kind == u8::from(Kind::Gradient) && count == r.n
    } else {
        kind == u8::from(Kind::Value) && count == 1
    }
}

// The refusal that an answer meets: 1, then the repeat rule, then 15 to 17. A repeat meets none. The kind is a letter and no `Kind`: who
// answers may tell any byte, and one that is neither V nor G is met with refusal 17. Number, kind and the count of words
// come one by one, as C tells them.
#[tactic(auto, unfolding(crate::specs::Rules::meets_of, protocol::specs::Protocol::as_result))]
pub fn meets(r: Record, number: u64, kind: u8, count: usize) -> Result<(), Refusal>
    ensures { result ≡ as_result (refusal (meets_of r number kind count) 0) }
{
    if !optim_record::valid(r) {
        return Err(Refusal::new(1, 0));
    }
    if repeats(r.accepted, number) {
        return Ok(());
    }
    if optim_reply::over(r) {
        return Err(Refusal::new(15, 0));
    }
    if number != r.accepted + 1 {
        return Err(Refusal::new(16, 0));
    }
    if !suits(r, kind, count) {
        return Err(Refusal::new(17, 0));
    }
    Ok(())
}

// Whether an answer that met this refusal, or none, is accepted: it met none, and is no repeat. No refusal of 01 has the number 0; one that
// a caller makes with it counts as none.
#[tactic(auto, unfolding(crate::specs::Rules::accepts_of, crate::specs::Rules::met_of))]
pub fn accepts(r: Record, number: u64, met: Result<(), Refusal>) -> bool
    ensures { result ≡ accepts_of r number (met_of met) }
{
    match met {
        Err(why) if why.number != 0 => false,
        _ => !repeats(r.accepted, number),
    }
}

// Both: whether an answer is accepted, or the refusal that it meets. The kind is a letter for the same reason.
#[tactic(auto, unfolding(crate::specs::Rules::accepted_of, crate::specs::Rules::met_of))]
pub fn accepted(r: Record, number: u64, kind: u8, count: usize) -> Result<bool, Refusal>
    ensures { result ≡ accepted_of r number kind count }
{
    meets(r, number, kind, count)?;
    Ok(accepts(r, number, Ok(())))
}

// The counts with one answer more.
#[tactic(auto, unfolding(crate::specs::Moves::counted_of))]
pub fn counted(r: Record) -> Counts
    requires { Ranges r }
    ensures { result ≡ counted_of r }
{
    let counts = r.counts;
    if optim_reply::gradient_due(r) {
        Counts {
            gevals: counts.gevals + 1,
            ..counts
        }
    } else {
        Counts {
            fevals: counts.fevals + 1,
            ..counts
        }
    }
}

// The simplex after an answer: its value is read.
#[tactic(auto, unfolding(crate::specs::Moves::simplex_told_of))]
pub fn simplex_told(r: Record, words: &[f64]) -> Simplex
    requires ranges { Ranges r }
    requires job_value { r.job ≡ simplex_mark }
    requires words_nonzero { 0 < length words.now }
    ensures { result ≡ simplex_told_of r words.now }
{
    let fixed = optim_reply::fixed(r);
    let f = objective::read(words[0]);
    r.simplex.told(fixed, f, r.counts.fevals + 1)
}

// The descent of the job search after an answer: the value of a trial is read, one for differences is not.
#[tactic(auto, unfolding(crate::specs::Moves::search_told_of))]
pub fn search_told(r: Record, words: &[f64]) -> Descent
    requires n_bound { r.n ≤ 16 }
    requires worded { Worded r words.now }
    ensures { result ≡ search_told_of r words.now }
{
    let mut d = r.descent;
    let line = d.line;
    let search = d.search;
    let fixed = optim_reply::search_fixed(r);
    let setup = linesearch::Setup { fixed, line };
    if optim_reply::gradient_due(r) {
        let g = vector::from_slice(words, r.n);
        d.search = linesearch::told_gradient(&setup, search, g);
        return d;
    }
    let v = words[0];
    d.search = linesearch::told(&setup, search, objective::read(v), v);
    d
}

// The descent of a gradient fit after an answer: its value is read.
#[tactic(auto, unfolding(crate::specs::Moves::descent_told_of))]
pub fn descent_told(r: Record, words: &[f64]) -> Descent
    requires n_bound { r.n ≤ 16 }
    requires worded { Worded r words.now }
    ensures { result ≡ descent_told_of r words.now }
{
    let d = r.descent;
    let fixed = optim_reply::gradient_fixed(r);
    if optim_reply::gradient_due(r) {
        let g = vector::from_slice(words, r.n);
        return quasinewton::told_gradient(fixed, d, g);
    }
    let f = objective::read(words[0]);
    quasinewton::told(fixed, d, f)
}
