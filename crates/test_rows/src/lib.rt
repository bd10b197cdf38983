// What the programs that the gate runs share: whether values have the same bits, the count of the rows of a
// table of the Rust's results, and the loop that reads standard input.
#![tactic(auto)]

ghost use Rattle.std.specs.Prelude.{◌≡◌, ◌≤◌, ◌==◌, ◌++◌, ⊤, ℕ, length, IfOk, IfSome, OnOk};
ghost use Rattle.std.specs.Io.KnownBytes.{Appends};
ghost use Rattle.std.specs.List.{FoldsTo};
ghost use Rattle.std.specs.Float.{binary64};
ghost use Rattle.std.specs.Float.Ieee.{to_bits};
ghost use Rattle.lines_buffer.specs.Texts.{filled};
ghost use Rattle.test_rows.specs.declared.Tally.{Tally};
ghost use Rattle.test_rows.specs.Rows.{none_of, counted_of, report_text, said_text};
ghost use Rattle.test_rows.specs.Runs.{InParts, Counts};

use lines_buffer::{Text, bits};
use std::io;
use std::io::{Read, Write};

// What is counted: rows, those that differ, and the first of these.
#[derive(Clone, Copy)]
pub struct Tally {
    pub rows: u64,
    pub differ: u64,
    pub first: Option<u64>,
}

// Why a program stops before its input ends: it has said its last, or a read or a write failed.
#[derive(Clone, Copy)]
pub enum Stop {
    Over,
    ReadFailed,
    WriteFailed,
}

// A table that is replayed, as far as it is read.
pub trait Table: Copy {
    // What a byte may lead to, and what may be counted at the end. A table that claims nothing of them, as those of
    // the programs, is held to its rows by what the program prints.
    ghost feeds: { Self → ℕ → Self → Type 0 } = { λ _ _ _. ⊤ };

    ghost closes: { Self → Tally → Type 0 } = { λ _ _. ⊤ };

    // One byte more.
    fn fed(&mut self, b: u8)
        ensures { feeds self.old b self.new };

    // The count where the table ends.
    fn closed(self) -> Tally
        ensures { closes self result };
}

// Whether two values have the same bits, one pattern counting for every NaN.
pub fn same(a: f64, b: f64) -> bool
    ensures { result ≡ (to_bits binary64 a == to_bits binary64 b) }
{
    bits(a) == bits(b)
}

impl Tally {
    // Before the first row.
    pub fn none() -> Tally
        ensures { result ≡ none_of }
    {
        Tally {
            rows: 0,
            differ: 0,
            first: None,
        }
    }

    // One row more. A count stops at the largest u64.
    #[tactic(auto, unfolding(crate::specs::Rows::counted_of))]
    pub fn counted(self, same: bool) -> Tally
        ensures { result ≡ counted_of self same }
    {
        if self.rows == u64::MAX {
            return self;
        }
        let rows = self.rows + 1;
        if same {
            return Tally { rows, ..self };
        }
        if self.differ == u64::MAX {
            return self;
        }
        Tally {
            rows,
            differ: self.differ + 1,
            first: self.first.or(Some(rows)),
        }
    }

    // The line of a replay's end, put at the start of a lent buffer, and how many bytes it has. The
    // first row that differs is 0 where none does.
    pub fn put_report(self, out: &mut [u8; 512]) -> usize
        ensures { (result ≤ length out.new) × (result ≡ length (report_text self)) × (out.new ≡ filled out.old (report_text self)) }
    {
        let mut line = Text::new();
        line.push_decimal(self.rows);
        line.push_bytes(b" rows, ");
        line.push_decimal(self.differ);
        line.push_bytes(b" differ, the first is ");
        line.push_decimal(self.first.unwrap_or(0));
        line.push(b'\n');
        line.put(out)
    }
}

// What `fed` makes of the state at each part of the input, one after another up to its end, or why
// it stops before.
pub fn run<R: Read, S: Copy, F: Fn(S, &[u8]) -> Result<S, Stop>>(
    input: &mut R,
    begun: S,
    fed: F,
) -> Result<S, Stop>
    requires { F.IsAlwaysCallable fed }
    ensures { IfOk result (λ s. IfSome (R.remaining input.old) (λ bs. InParts (F.post fed) begun bs s)) }
{
    let mut buf = [0u8; 4096];
    let mut state = begun;
    for _ in 0..u64::MAX {
        match input.read(&mut buf) {
            Err(_) => return Err(Stop::ReadFailed),
            Ok(0) => return Ok(state),
            Ok(n) => state = fed(state, &buf[..n])?,
        }
    }
    Err(Stop::Over)
}

fn said<W: Write>(errors: &mut W, program: &str, what: &str) -> io::Result<()>
    ensures { OnOk result (Appends (W.contents errors.old) (W.contents errors.new) (program.now ++ what.now)) }
{
    errors.write_all(program.as_bytes())?;
    errors.write_all(what.as_bytes())
}

// Says what failed and in which program, where a read or a write did. Where a write fails no contract of this
// crate tells what was written: the library's `write_all` does not, nor what a stream of the system takes.
#[tactic(auto, unfolding(crate::specs::Rows::said_text))]
pub fn say<W: Write>(errors: &mut W, program: &str, end: Result<(), Stop>) -> io::Result<()>
    ensures { OnOk result (Appends (W.contents errors.old) (W.contents errors.new) (said_text program.now end)) }
{
    match end {
        Ok(()) | Err(Stop::Over) => Ok(()),
        Err(Stop::ReadFailed) => said(errors, program, ": a read of standard input failed\n"),
        Err(Stop::WriteFailed) => said(errors, program, ": a write to standard output failed\n"),
    }
}

fn fed_part<T: Table>(begun: T, part: &[u8]) -> T
    ensures { FoldsTo T.feeds begun part.now result }
{
    let mut t = begun;
    for b in part {
        t.fed(*b);
    }
    t
}

// What is counted where the input ends.
fn counted<T: Table, R: Read>(input: &mut R, begun: T) -> Result<Tally, Stop>
    ensures { IfOk result (λ t. IfSome (R.remaining input.old) (λ bs. Counts T.feeds T.closes begun bs t)) }
{
    let end = run(input, begun, |t, part| Ok(fed_part(t, part)))?;
    Ok(end.closed())
}

// Replays the table on an input byte by byte, and writes what is counted at its end.
pub fn replay<T: Table, R: Read, W: Write>(
    input: &mut R,
    output: &mut W,
    begun: T,
) -> Result<(), Stop>
    ensures { OnOk result (IfSome (R.remaining input.old) (λ bs.
        (t : Tally) × Counts T.feeds T.closes begun bs t × Appends (W.contents output.old) (W.contents output.new) (report_text t))) }
{
    let t = counted(input, begun)?;
    let mut out = [0u8; 512];
    let n = t.put_report(&mut out);
    output.write_all(&out[..n]).map_err(|_| Stop::WriteFailed)
}
