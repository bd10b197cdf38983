// Holds what the fit program decides to a written sample of fits of the three jobs whose replies are the Rust's
// (tests/README.md says how it is made). A row is a line given behind `< `, a line due behind `> `, or
// empty, which ends a fit. Writes how many rows there are, how many differ, and the number of the first
// that does (0 for none). A row of another form differs.
#![tactic(auto)]

use fit_dialogue::State;
use lines_options::Reader;
use lines_reader::Form;
use test_rows::{Table, Tally};

// What a row is, by its sign.
#[derive(Clone, Copy)]
enum Side {
    Given,
    Due,
    Neither,
}

// The place in a row: before its sign, behind the sign, or behind the space.
#[derive(Clone, Copy)]
enum Place {
    Sign,
    Space(Side),
    Rest(Side),
}

// The bytes printed last, in the fixed memory that `decided` fills, how many they are, and how many of
// them rows have matched.
#[derive(Clone, Copy)]
struct Printed {
    bytes: [u8; 512],
    count: usize,
    matched: usize,
}

impl Printed {
    fn nothing() -> Printed {
        Printed {
            bytes: [0; 512],
            count: 0,
            matched: 0,
        }
    }

    fn all_matched(&self) -> bool {
        self.matched == self.count
    }

    // Whether b is the next byte that was printed. One that differs takes that byte's place.
    fn matches(&mut self, b: u8) -> bool {
        let at = self.matched;
        if self.count <= at {
            return false;
        }
        self.matched = at.saturating_add(1);
        self.bytes.get(at) == Some(&b)
    }
}

// The count so far; the fit's state and the line given as far as it has come; what was printed last; the
// row's place, and whether it agrees so far.
#[derive(Clone, Copy)]
struct Sample {
    tally: Tally,
    state: State,
    reader: Reader,
    printed: Printed,
    place: Place,
    same: bool,
}

impl Sample {
    // Before a fit.
    fn fresh(tally: Tally) -> Sample {
        Sample {
            tally,
            state: fit_dialogue::begun(),
            reader: Reader::started(Form::Line1),
            printed: Printed::nothing(),
            place: Place::Sign,
            same: true,
        }
    }

    // The row is over.
    fn end(&mut self) {
        self.tally = self.tally.counted(self.same);
        self.place = Place::Sign;
        self.same = true;
    }

    // The row's sign. All that was printed must be matched before a line is given, and before an empty row,
    // which ends the fit.
    fn sign(&mut self, b: u8) {
        let all = self.printed.all_matched();
        match b {
            b'\n' => *self = Sample::fresh(self.tally.counted(all)),
            b'<' => {
                self.place = Place::Space(Side::Given);
                self.same = all;
                self.reader = Reader::started(self.state.due);
            }
            b'>' => self.place = Place::Space(Side::Due),
            _ => {
                self.place = Place::Space(Side::Neither);
                self.same = false;
            }
        }
    }

    // The byte behind the sign.
    fn space(&mut self, side: Side, b: u8) {
        self.place = Place::Rest(side);
        if b != b' ' {
            self.same = false;
        }
        if b == b'\n' {
            self.end();
        }
    }

    // The line given ends: what it brings is kept, to be matched.
    fn turn(&mut self) {
        let line = self.reader.finished();
        let mut bytes = self.printed.bytes;
        let turn = fit_dialogue::decided(&mut bytes, self.state, line);
        self.state = turn.state;
        self.printed = Printed {
            bytes,
            count: turn.count,
            matched: 0,
        };
    }

    // A byte behind the space.
    fn rest(&mut self, side: Side, b: u8) {
        match side {
            Side::Given if b == b'\n' => self.turn(),
            Side::Given => self.reader = self.reader.fed(b),
            Side::Due => {
                if !self.printed.matches(b) {
                    self.same = false;
                }
            }
            Side::Neither => {}
        }
        if b == b'\n' {
            self.end();
        }
    }
}

impl Table for Sample {
    // One byte more.
    fn fed(&mut self, b: u8) {
        match self.place {
            Place::Sign => self.sign(b),
            Place::Space(side) => self.space(side, b),
            Place::Rest(side) => self.rest(side, b),
        }
    }

    // Bytes past the last line feed, or printed and not matched, are a row that differs.
    fn closed(self) -> Tally {
        match self.place {
            Place::Sign if self.printed.all_matched() => self.tally,
            _ => self.tally.counted(false),
        }
    }
}

fn main(rt: HostRuntime) {
    let end = test_rows::replay(
        &mut rt.stdin(),
        &mut rt.stdout(),
        Sample::fresh(Tally::none()),
    );
    let _ = test_rows::say(&mut rt.stderr(), "test_fits", end);
}
