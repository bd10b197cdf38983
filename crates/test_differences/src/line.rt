// A line of hexadecimal words, taken in one byte at a time. Lines differ in length, so no part of the
// input is known to hold a whole one; and no line is longer than the words that have room.

// The words so far, in fixed memory as the engine's, and the word that is being spelled.
#[derive(Clone, Copy)]
pub struct Row {
    digits: u64,
    spelled: u64,
    pub count: usize,
    words: [u64; 64],
}

impl Row {
    pub fn empty() -> Row {
        Row {
            digits: 0,
            spelled: 0,
            count: 0,
            words: [0; 64],
        }
    }

    // Whether a byte of the line is read.
    pub fn begun(self) -> bool {
        0 < self.digits || 0 < self.count
    }

    // One digit more, of at most sixteen. A line is fed byte by byte, where test_float reads a slice.
    fn spelling(self, b: u8) -> Option<Row> {
        let d = lines_field::digit(b)?;
        if 15 < self.digits {
            return None;
        }
        Some(Row {
            digits: self.digits + 1,
            spelled: (self.spelled << 4) | d,
            ..self
        })
    }

    // The end of a word, which has a digit at least.
    fn ended(mut self) -> Option<Row> {
        if self.digits == 0 {
            return None;
        }
        let at = self.count;
        let spelled = self.spelled;
        let word = self.words.get_mut(at)?;
        *word = spelled;
        Some(Row {
            digits: 0,
            spelled: 0,
            count: at.saturating_add(1),
            ..self
        })
    }

    // One byte more, none where it gives the line another form. A space and a line feed end a word.
    pub fn fed(self, b: u8) -> Option<Row> {
        match b {
            b' ' | b'\n' => self.ended(),
            _ => self.spelling(b),
        }
    }

    // The word at a place, or 0 where the line has none: such a line has another count, and so it differs.
    pub fn word(&self, at: usize) -> u64 {
        self.words.get(at).copied().unwrap_or(0)
    }
}
