// Holds the engine's `differences` and `answer` to a written dialogue whose questions and gradients are
// the Rust's (tests/README.md says how it is made and what a row is). Writes how many rows there are,
// how many differ, and the number of the first that does (0 for none). A row of another form differs.
#![tactic(auto)]

mod forge;
mod line;
mod same;

use line::Row;
use optim::{Answered, Record};
use protocol::Said;
use test_rows::{Table, Tally};

// A reply as a row has it: its form (0 a question, 1 an end, 2 a refusal, 3 another), two numbers and a
// list's length; and the list.
#[derive(Clone, Copy)]
struct Reply {
    head: [u64; 4],
    list: [f64; 16],
}

impl From<&Answered> for Reply {
    fn from(a: &Answered) -> Reply {
        let n = a.next.n as u64;
        match a.said {
            Said::Ask(number, kind) => Reply {
                head: [0, number, u64::from(u8::from(kind)), n],
                list: a.x,
            },
            Said::Differenced => Reply {
                head: [1, 0, 0, n],
                list: a.g,
            },
            Said::Refused(refusal) => Reply {
                head: [2, refusal.number, refusal.detail, 0],
                list: a.x,
            },
            _ => Reply {
                head: [3, 0, 0, 0],
                list: a.x,
            },
        }
    }
}

impl Reply {
    // Whether it is what the line has from a place on; and the place behind it.
    fn agrees(&self, l: &Row, at: usize) -> Option<usize> {
        let m = self.head[3] as usize;
        let from = at.saturating_add(4);
        let listed = self.list.get(..m)?;
        let head = self
            .head
            .iter()
            .enumerate()
            .all(|(i, w)| l.word(at.saturating_add(i)) == *w);
        let list = listed.iter().enumerate().all(|(i, v)| test_rows::same(
            *v,
            lines_forms::value(l.word(from.saturating_add(i))),
        ));
        if head && list {
            return Some(from.saturating_add(m));
        }
        None
    }
}

// Whether the line ends behind `at` with the record's counts and with 1 where the record must be as it
// was, or 0.
fn record_agrees(before: &Record, after: &Record, l: &Row, at: usize) -> bool {
    let unchanged = match l.word(at) {
        0 => true,
        1 => same::record(before, after),
        _ => false,
    };
    unchanged
        && l.count == at.saturating_add(3)
        && l.word(at.saturating_add(1)) == after.counts.fevals
        && l.word(at.saturating_add(2)) == after.counts.gevals
}

// Whether the reply and the record that came back are those of the line, whose operands have k words.
fn agrees(before: &Record, a: &Answered, l: &Row, k: usize) -> bool {
    match Reply::from(a).agrees(l, k.saturating_add(4)) {
        Some(at) => record_agrees(before, &a.next, l, at),
        None => false,
    }
}

// The values that the operands' words spell.
fn operands(l: &Row) -> [f64; 32] {
    let mut out = [0.0; 32];
    for (i, x) in out.iter_mut().enumerate() {
        *x = lines_forms::value(l.word(i.saturating_add(4)));
    }
    out
}

// Whether the row is as the engine has it; the record is then the one that came back. A row begins with its
// operation (0 a start, 1 an answer, 2 a forged field), two numbers and how many words follow them.
fn judged(kept: &mut Record, l: &Row) -> bool {
    let before = *kept;
    let k = l.word(3) as usize;
    let v = operands(l);
    let Some(given) = v.get(..k) else {
        return false;
    };
    match l.word(0) {
        0 => {
            let a = optim::differences(given);
            *kept = a.next;
            agrees(&a.next, &a, l, k)
        }
        1 => {
            let kind = u8::try_from(l.word(2)).unwrap_or(0);
            let a = optim::answer(before, l.word(1), kind, given);
            *kept = a.next;
            agrees(&before, &a, l, k)
        }
        2 => {
            *kept = forge::record(before, l.word(1), l.word(2), l.word(4));
            l.count == 5
        }
        _ => false,
    }
}

// The count so far, the record that was returned last, and the line as far as it is read, none where it
// has another form.
#[derive(Clone, Copy)]
struct State {
    tally: Tally,
    kept: Record,
    line: Option<Row>,
}

impl State {
    fn begun() -> State {
        State {
            tally: Tally::none(),
            kept: optim::differences(&[]).next,
            line: Some(Row::empty()),
        }
    }
}

impl Table for State {
    // One byte more.
    fn fed(&mut self, b: u8) {
        self.line = self.line.and_then(|l| l.fed(b));
        if b == b'\n' {
            let agrees = match self.line {
                Some(l) => judged(&mut self.kept, &l),
                None => false,
            };
            self.tally = self.tally.counted(agrees);
            self.line = Some(Row::empty());
        }
    }

    // Bytes past the last line feed are a row of another form.
    fn closed(self) -> Tally {
        match self.line {
            Some(l) if !l.begun() => self.tally,
            _ => self.tally.counted(false),
        }
    }
}

fn main(rt: HostRuntime) {
    let end = test_rows::replay(&mut rt.stdin(), &mut rt.stdout(), State::begun());
    let _ = test_rows::say(&mut rt.stderr(), "test_differences", end);
}
