// Holds the float crate to a table that Rust made on x86-64 hardware (tests/README.md says how).
// A row has 53 bytes: an operation's letter, two operands and Rust's result, as 16 hexadecimal digits
// each, with one space between and a line feed behind. Writes how many rows there are, how many
// differ, and the number of the first that does (0 for none). A row of another form differs.
#![tactic(auto)]

use test_rows::{Table, Tally};

// The number that hexadecimal digits spell, sixteen at most. It reads a slice, where test_differences is fed a line
// byte by byte.
fn read_word(digits: &[u8]) -> Option<u64> {
    let mut bits: u64 = 0;
    for b in digits {
        bits = (bits << 4) | lines_field::digit(*b)?;
    }
    Some(bits)
}

// 0, 1 or 2, as the table has it, where a comes before, with or after b.
fn ordering(a: f64, b: f64) -> u64 {
    if float::precedes(a, b) {
        return 0;
    }
    if float::precedes(b, a) { 2 } else { 1 }
}

// Whether the float crate's result of the operation is `expected`.
fn agrees(op: u8, a: f64, b: f64, expected: u64) -> bool {
    let found = match op {
        b's' => float::sqrt(a),
        b'a' => float::abs(a),
        b'g' => float::signum(a),
        b'M' => float::max(a, b),
        b'm' => float::min(a, b),
        b'c' => float::difference_factor(),
        b'f' => return u64::from(float::is_finite(a)) == expected,
        b't' => return ordering(a, b) == expected,
        _ => return false,
    };
    test_rows::same(found, lines_forms::value(expected))
}

// Whether a row has its form, and its result is the float crate's; none where it has another form.
fn row_agrees(row: &[u8; 53]) -> Option<bool> {
    let a = read_word(&row[2..18])?;
    let b = read_word(&row[19..35])?;
    let r = read_word(&row[36..52])?;
    let parted = row[1] == b' ' && row[18] == b' ' && row[35] == b' ' && row[52] == b'\n';
    Some(parted && agrees(row[0], lines_forms::value(a), lines_forms::value(b), r))
}

// The count so far, and the row as far as it has come: fixed memory, as the engine's, since a row has
// 53 bytes.
#[derive(Clone, Copy)]
struct Rows {
    tally: Tally,
    size: usize,
    row: [u8; 53],
}

impl Rows {
    fn begun() -> Rows {
        Rows {
            tally: Tally::none(),
            size: 0,
            row: [0; 53],
        }
    }
}

impl Table for Rows {
    // One byte more: a row is judged once it is whole.
    fn fed(&mut self, b: u8) {
        let at = self.size;
        if let Some(place) = self.row.get_mut(at) {
            *place = b;
        }
        self.size = at.saturating_add(1);
        if self.size >= 53 {
            let same = row_agrees(&self.row).unwrap_or(false);
            self.tally = self.tally.counted(same);
            self.size = 0;
        }
    }

    // Bytes past the last whole row are a row of another form.
    fn closed(self) -> Tally {
        if self.size != 0 {
            return self.tally.counted(false);
        }
        self.tally
    }
}

fn main(rt: HostRuntime) {
    let end = test_rows::replay(&mut rt.stdin(), &mut rt.stdout(), Rows::begun());
    let _ = test_rows::say(&mut rt.stderr(), "test_float", end);
}
