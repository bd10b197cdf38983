// The fit program: it reads standard input part by part, and writes each reply before it waits for more. Where
// a read or a write fails it says so on standard error, and ends: a line that a failed read left open is not
// decided, and no reply is written behind one that was lost.
#![tactic(auto)]

ghost use Rattle.std.specs.Prelude.{◌≡◌, ◌≢◌, ℕ, false, List, [], drop, Ok, Err, is_ok, IfSome, IfOk, OnOk};
ghost use Rattle.std.specs.Io.KnownBytes.{Appends, Consumes};
ghost use Rattle.fit_state.specs.States.{scanned_of};
ghost use Rattle.fit_dialogue.specs.Program.{by_bytes, first_place, output_of, passed_of, step_of, turned_of};
ghost use Rattle.fit.specs.Output.{Wrote};
ghost use Rattle.fit.specs.declared.End.TheVariants.{WriteFailed};

use fit_dialogue::{Place, Step};
use lines_reader::Form;
use std::io::{Read, Write};

// A reply was lost: a write took nothing of what was left of it, or failed.
#[derive(Clone, Copy, Debug, PartialEq, Eq)]
struct Lost;

// How a run ends early: at a read or a write that failed, or after 2^64 - 1 reads.
#[derive(Clone, Copy, Debug, PartialEq, Eq)]
enum End {
    ReadFailed,
    WriteFailed,
    Unfinished,
}

impl From<Lost> for End {
    ghost from_gives = { λ _ e. e ≡ WriteFailed };

    fn from(_lost: Lost) -> End {
        End::WriteFailed
    }
}

// Writes all the bytes, or stops at the first write that takes nothing or fails. The library's `write_all` does not
// say what was written of a text where it fails. A `while`: each write says itself how many bytes it took.
fn write_reply<W: Write>(output: &mut W, bytes: &[u8]) -> Result<(), Lost>
    ensures { Wrote (is_ok result) (W.contents output.old) (W.contents output.new) bytes.now }
{
    let mut rest = bytes;
    while !rest.is_empty() {
        match output.write(rest) {
            Ok(0) => return Err(Lost),
            Ok(n) => rest = &rest[n..],
            Err(_) => return Err(Lost),
        }
    }
    Ok(())
}

// One line of a part: what it brings is written.
fn line_fed<W: Write>(output: &mut W, p: Place, s: &[u8], from: usize) -> Result<Step, Lost>
    ensures step { IfOk result (λ q. q ≡ step_of p from (drop from s.now)) }
    ensures reply { Wrote (is_ok result) (W.contents output.old) (W.contents output.new)
        (turned_of p (scanned_of from (drop from s.now) p.reader)).0 }
{
    let mut out = [0u8; 512];
    let step = fit_dialogue::stepped(&mut out, p, s, from);
    write_reply(output, &out[..step.count])?;
    Ok(step)
}

// A part of the input, line by line, up to a reply that is lost. A `while`: the scan alone knows how many bytes a line
// has. A `for` over `split_inclusive` was tried: in a generic function the check's own term for it has a wrong type.
fn fed_part<W: Write>(output: &mut W, p: Place, s: &[u8]) -> Result<Place, Lost>
    ensures place { IfOk result (λ q. q ≡ (passed_of p s.now).1) }
    ensures replies { Wrote (is_ok result) (W.contents output.old) (W.contents output.new)
        (passed_of p s.now).0 }
{
    let mut place = p;
    let mut at: usize = 0;
    while at < s.len() {
        let q = line_fed(output, place, s, at)?;
        at = q.at;
        place = q.place;
    }
    Ok(place)
}

// The input ends: what a line that is begun brings is written.
fn ended<W: Write>(output: &mut W, p: Place) -> Result<(), Lost>
    ensures { Wrote (is_ok result) (W.contents output.old) (W.contents output.new)
        (by_bytes p.state p.reader []) }
{
    let mut out = [0u8; 512];
    let count = fit_dialogue::closed(&mut out, p);
    write_reply(output, &out[..count])
}

// The whole input, part by part as reads give it. `whole`: every reply that is due was written, and nothing
// else. `lost`: no more than a front of that. `cut`: where a read fails, be it the first or a later one, each
// line before it was answered, and the line that it left open was not, so that no reply waits for a read.
fn run<R: Read, W: Write>(input: &mut R, output: &mut W) -> Result<(), End>
    ensures whole { OnOk result (IfSome (R.remaining input.old)
        (λ bs. Appends (W.contents output.old) (W.contents output.new) (output_of bs))) }
    ensures lost { result ≡ Err End.WriteFailed → IfSome (R.remaining input.old)
        (λ bs. Wrote false (W.contents output.old) (W.contents output.new) (output_of bs)) }
    ensures cut { result ≢ Ok tt → result ≢ Err End.WriteFailed → (bs : List ℕ)
        × Consumes (R.remaining input.old) (R.remaining input.new) bs
        × Appends (W.contents output.old) (W.contents output.new) (passed_of first_place bs).0 }
{
    let mut buf = [0u8; 65536];
    let mut place = fit_dialogue::opened();
    for _ in 0..u64::MAX {
        match input.read(&mut buf) {
            Err(_) => return Err(End::ReadFailed),
            Ok(0) => {
                ended(output, place)?;
                return Ok(());
            }
            Ok(n) => place = fed_part(output, place, &buf[..n])?,
        }
        if let Form::Stopped = place.state.due {
            return Ok(());
        }
    }
    Err(End::Unfinished)
}

// Neither stream has a buffer: a write reaches the system as it is made. No contract knows what a stream of
// the system gives or takes, so `run` speaks of any reader and writer whose bytes are known.
fn main(rt: HostRuntime) {
    match run(&mut rt.stdin(), &mut rt.stdout()) {
        Err(End::ReadFailed) => {
            let _ = rt.eprintln("fit: a read of standard input failed");
        }
        Err(End::WriteFailed) => {
            let _ = rt.eprintln("fit: a write to standard output failed");
        }
        Err(End::Unfinished) | Ok(()) => {}
    }
}
