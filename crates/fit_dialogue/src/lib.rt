// What the fit program makes of its input: one function that takes the program's state and a line that
// was read, puts what is printed at the start of a lent buffer, and returns the next state; and steps over
// the lines of a part of the input.
#![tactic(auto)]

ghost use Rattle.std.specs.Prelude.{◌≡◌, [], drop, length};
ghost use Rattle.lines_buffer.specs.Texts.{filled};
ghost use Rattle.fit_state.specs.States.{Turned};
ghost use Rattle.fit_dialogue.specs.Talk.{decided_of};
ghost use Rattle.fit_dialogue.specs.Program.{by_bytes, first_place, Stepped};

use fit_line::{first, heard, second, second_gradient, third};
pub use fit_state::{Scan, State, Turn, begun, scanned};
use lines_options::{LineRead, Reader};
use lines_reader::Form;

// Where the program stands in its input: its state, and the line that is due as far as it has come.
#[derive(Clone, Copy)]
pub struct Place {
    pub state: State,
    pub reader: Reader,
}

// Where one line of a part of the input leads: how far into the part, how many bytes are to be printed,
// and the next place.
#[derive(Clone, Copy)]
pub struct Step {
    pub at: usize,
    pub count: usize,
    pub place: Place,
}

// What a line brings, in every state. After the stop, or where what is due is no line, it brings nothing.
#[tactic(auto, unfolding(crate::specs::Talk::decided_of))]
pub fn decided(out: &mut [u8; 512], s: State, l: LineRead) -> Turn
    ensures { Turned (decided_of s l) out.old out.new result }
{
    match s.due {
        Form::Stopped | Form::Other(_) => Turn { count: 0, state: s },
        Form::Line1 => first(out, s, l),
        Form::SimplexLine2 => second(out, s, l),
        Form::GradientLine2 => second_gradient(out, s, l),
        Form::Line3 => third(out, s, l),
        Form::Answers => heard(out, s, l),
    }
}

// Before the first byte.
#[tactic(auto, unfolding(crate::specs::Program::first_place))]
pub fn opened() -> Place
    ensures { result ≡ first_place }
{
    let state = begun();
    Place {
        state,
        reader: Reader::started(state.due),
    }
}

// The line that is due, out of the bytes from a place on: what it brings, or nothing where it goes on
// past them.
#[tactic(auto, unfolding(crate::specs::Program::turned_of))]
pub fn stepped(out: &mut [u8; 512], p: Place, s: &[u8], from: usize) -> Step
    ensures { Stepped p from (drop from s.now) out.old out.new result }
{
    let q = scanned(s, from, p.reader);
    if q.ended {
        let turn = decided(out, p.state, q.reader.finished());
        let reader = Reader::started(turn.state.due);
        return Step {
            at: q.at,
            count: turn.count,
            place: Place {
                state: turn.state,
                reader,
            },
        };
    }
    Step {
        at: q.at,
        count: 0,
        place: Place {
            state: p.state,
            reader: q.reader,
        },
    }
}

// The input ends: how many bytes are to be printed for a line that is begun.
#[tactic(auto, unfolding(crate::specs::Program::by_bytes))]
pub fn closed(out: &mut [u8; 512], p: Place) -> usize
    ensures { (result ≡ length (by_bytes p.state p.reader [])) × (out.new ≡ filled out.old (by_bytes p.state p.reader [])) }
{
    if p.reader.begun() {
        return decided(out, p.state, p.reader.finished()).count;
    }
    0
}
