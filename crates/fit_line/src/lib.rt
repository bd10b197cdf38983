// What each line of the fit program brings where it is due: what is printed, put at the start of a lent
// buffer, and the next state. Buffer, state and line stay three arguments: the buffer is lent by who calls, state
// and line are values, and a struct of the three would be made anew for each call.
#![tactic(auto)]

ghost use Rattle.std.specs.Prelude.{◌≡◌, length};
ghost use Rattle.lines_buffer.specs.Texts.{filled};
ghost use Rattle.optim_record.specs.Record.{outcome_of};
ghost use Rattle.fit_state.specs.States.{Turned};
ghost use Rattle.fit_line.specs.Turns.{reply_text, Few, due_after, first_of, second_of, second_gradient_of, started_of, third_of, told_of, heard_of};

use fit_state::{State, Turn, bad, form_after, kept, onward, start};
use lines_options::LineRead;
use lines_reader::Form;
use optim::Answered;
use protocol::Said;

// Line 1.
#[tactic(auto, unfolding(crate::specs::Turns::first_of))]
pub fn first(out: &mut [u8; 512], s: State, l: LineRead) -> Turn
    ensures { Turned (first_of s l) out.old out.new result }
{
    let Some(f) = lines_options::first_line(l) else {
        return bad(out, s);
    };
    let state = State {
        job: f.job,
        n: f.n,
        ..onward(s, form_after(f.job))
    };
    Turn { count: 0, state }
}

// Line 2 of simplex.
#[tactic(auto, unfolding(crate::specs::Turns::second_of))]
pub fn second(out: &mut [u8; 512], s: State, l: LineRead) -> Turn
    ensures { Turned (second_of s l) out.old out.new result }
{
    let Some((options, allowances)) = lines_options::simplex_line(l) else {
        return bad(out, s);
    };
    let state = State {
        options,
        allowances,
        ..onward(s, Form::Line3)
    };
    Turn { count: 0, state }
}

// Line 2 of bfgs and lbfgs. It differs from that of simplex in what reads it and in the field that it fills: one form
// for both would be given two closures, and be longer.
#[tactic(auto, unfolding(crate::specs::Turns::second_gradient_of))]
pub fn second_gradient(out: &mut [u8; 512], s: State, l: LineRead) -> Turn
    ensures { Turned (second_gradient_of s l) out.old out.new result }
{
    let Some((gradient, allowances)) = lines_options::gradient_line(l) else {
        return bad(out, s);
    };
    let state = State {
        gradient,
        allowances,
        ..onward(s, Form::Line3)
    };
    Turn { count: 0, state }
}

// Prints a reply of the engine, and returns its length. Those of a search and of differences, which no fit gets, print
// nothing.
#[tactic(auto, unfolding(optim_record::specs::Record::outcome_of))]
fn shown(out: &mut [u8; 512], a: Answered) -> usize
    requires { Few (outcome_of a).0 a.next.n }
    ensures { (result ≡ length (reply_text (outcome_of a).0)) × (out.new ≡ filled out.old (reply_text (outcome_of a).0)) }
{
    match a.said {
        Said::Ask(number, kind) => lines_print::put_ask(out, number, kind, a.x, a.next.n),
        Said::Fitted(summary) => lines_print::put_end(out, summary, a.x, a.next.n),
        Said::Searched(_) => 0,
        Said::Differenced => 0,
        Said::Refused(why) => lines_print::put_no(out, why.number, why.detail),
    }
}

// The form of the line that is due after the reply to a start: `Stopped` after a refusal.
#[tactic(auto, unfolding(crate::specs::Turns::due_after, optim_record::specs::Record::outcome_of, protocol::specs::Protocol::reply_of))]
fn due_after(a: Answered) -> Form
    ensures { result ≡ due_after (outcome_of a).0 }
{
    match a.said {
        Said::Ask(_, _) => Form::Answers,
        Said::Fitted(_) => Form::Answers,
        Said::Searched(_) => Form::Answers,
        Said::Differenced => Form::Answers,
        Said::Refused(_) => Form::Stopped,
    }
}

// The fit is started at x. This and `told` end alike: one function for both costs more, as fit_state says.
fn started(out: &mut [u8; 512], s: State, x: &[f64]) -> Turn
    ensures { Turned (started_of s x.now) out.old out.new result }
{
    let a = start(s, x);
    let count = shown(out, a);
    let state = State {
        engine: a.next,
        ..onward(s, due_after(a))
    };
    Turn { count, state }
}

// Line 3.
#[tactic(auto, unfolding(crate::specs::Turns::third_of))]
pub fn third(out: &mut [u8; 512], s: State, l: LineRead) -> Turn
    ensures { Turned (third_of s l) out.old out.new result }
{
    let Some(x) = lines_options::point_line(l, s.n) else {
        return bad(out, s);
    };
    let k = kept(s.n);
    started(out, s, &x[..k])
}

// The engine is told an answer.
fn told(out: &mut [u8; 512], s: State, number: u64, kind: u8, words: &[f64]) -> Turn
    ensures { Turned (told_of s number kind words.now) out.old out.new result }
{
    let a = optim::answer(s.engine, number, kind, words);
    let count = shown(out, a);
    let state = State {
        engine: a.next,
        ..onward(s, s.due)
    };
    Turn { count, state }
}

// An answer.
#[tactic(auto, unfolding(crate::specs::Turns::heard_of))]
pub fn heard(out: &mut [u8; 512], s: State, l: LineRead) -> Turn
    ensures { Turned (heard_of s l) out.old out.new result }
{
    let Some(f) = lines_options::answer_line(l) else {
        return bad(out, s);
    };
    told(out, s, f.number, f.kind, f.lent())
}
