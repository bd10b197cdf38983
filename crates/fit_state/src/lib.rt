// The state of the fit program between two lines, and what several lines share: a bad line, the start of
// the job, and the scan of the input for a line's end.
#![tactic(auto)]

ghost use Rattle.std.specs.Prelude.{◌≡◌, drop};
ghost use Rattle.optim_record.specs.Record.{outcome_of};
ghost use Rattle.fit_state.specs.States.{Turned, begun_of, onward_of, kept_of, bad_of, form_after, start_of, scanned_of};

use lines_options::Reader;
use lines_reader::Form;
use optim::{Answered, Record};
use protocol::{Allowances, BFGS, GradientOptions, SIMPLEX, SimplexOptions};

// The state between two lines. `due` is the form of the line that is due, `Stopped` once the program has stopped.
// `number` is that line's number. The job's mark, n, the options (those of simplex, or `gradient`) and allowances
// are what lines 1 and 2 said, `engine` is the engine's record. No enum holds the job with its options: line 1 says the
// job and line 2 its options, so that it would have no value between the two. The mark, one of `protocol`'s, is a number:
// what line 1's field reads as, and what a record keeps. What moves it is written as functions: as methods, and with one
// function in fit_line for what a reply brings, a question costs the fit program a third more instructions.
#[derive(Clone, Copy)]
pub struct State {
    pub due: Form,
    pub number: u64,
    pub job: u64,
    pub n: u64,
    pub options: SimplexOptions,
    pub gradient: GradientOptions,
    pub allowances: Allowances,
    pub engine: Record,
}

// How many bytes are to be printed, and the next state.
#[derive(Clone, Copy)]
pub struct Turn {
    pub count: usize,
    pub state: State,
}

// Where a scan of bytes came to, whether a line feed ended it, and the line as far as it has come. `ended` is a flag
// and no Option: the place and the line are there either way.
#[derive(Clone, Copy)]
pub struct Scan {
    pub at: usize,
    pub ended: bool,
    pub reader: Reader,
}

// The state before line 1.
#[tactic(auto, unfolding(crate::specs::States::begun_of))]
pub fn begun() -> State
    ensures { result ≡ begun_of }
{
    State {
        due: Form::Line1,
        number: 1,
        job: 0,
        n: 0,
        options: optim_record::no_options(),
        gradient: optim_record::no_gradient_options(),
        allowances: Allowances::default(),
        engine: optim::blank(),
    }
}

// The state after a line that is not bad: the next one has its form and its number, which stays at the largest u64.
pub fn onward(s: State, due: Form) -> State
    ensures { result ≡ onward_of s due }
{
    State {
        due,
        number: s.number.saturating_add(1),
        ..s
    }
}

// How many of a point's words are lent to the engine: seventeen are as refused as more.
pub fn kept(n: u64) -> usize
    ensures { result ≡ kept_of n }
{
    n.min(17) as usize
}

// The line is bad: the program stops.
#[tactic(auto, unfolding(crate::specs::States::bad_of))]
pub fn bad(out: &mut [u8; 512], s: State) -> Turn
    ensures { Turned (bad_of s) out.old out.new result }
{
    let count = lines_print::put_bad(out, s.number);
    Turn {
        count,
        state: State {
            due: Form::Stopped,
            ..s
        },
    }
}

// The form of line 2.
#[tactic(auto, unfolding(crate::specs::States::form_after))]
pub fn form_after(job: u64) -> Form
    ensures { result ≡ form_after job }
{
    match job {
        SIMPLEX => Form::SimplexLine2,
        _ => Form::GradientLine2,
    }
}

// The engine's reply to the start of the job at x.
#[tactic(auto, unfolding(crate::specs::States::start_of))]
pub fn start(s: State, x: &[f64]) -> Answered
    ensures { outcome_of result ≡ start_of s x.now }
{
    match s.job {
        SIMPLEX => optim::simplex(x, s.options, s.allowances),
        BFGS => optim::bfgs(x, s.gradient, s.allowances),
        _ => optim::lbfgs(x, s.gradient, s.allowances),
    }
}

// Feeds the bytes from a place on to the line, up to the first line feed or to their end. The whole part is lent with
// the place, and no rest of it: where the scan came to is handed back as a place in the whole part, which is why the loop goes by
// places.
pub fn scanned(s: &[u8], from: usize, r: Reader) -> Scan
    ensures { result ≡ scanned_of from (drop from s.now) r }
{
    let mut reader = r;
    for i in from..s.len() {
        let b = s[i];
        if b == b'\n' {
            return Scan {
                at: i + 1,
                ended: true,
                reader,
            };
        }
        reader = reader.fed(b);
    }
    Scan {
        at: from.max(s.len()),
        ended: false,
        reader,
    }
}
