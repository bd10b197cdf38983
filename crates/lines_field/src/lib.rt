// One field of a line, byte by byte, and what it is when it ends.
#![tactic(auto)]

ghost use Rattle.std.specs.Prelude.{◌≡◌};
ghost use Rattle.lines_field.specs.Shapes.{digit_in, fits, given, number_in};
ghost use Rattle.lines_field.specs.Fields.{grow_of, blank_field_of, lengthened_of, added_of, counted_of, spells_of, word_of, decimal_of, maybe_of, flag_of, letter_of, job_of, judged_of};

use protocol::{BFGS, Kind, LBFGS, SIMPLEX};

// What the place of a field asks for; `Nothing` where there is to be none.
#[derive(Clone, Copy, PartialEq, Eq)]
pub enum Shape {
    Word,
    Decimal,
    Maybe,
    Flag,
    Letter,
    Job,
    Nothing,
}

// A field read as what its place asks for: it is not that, it is `-`, or it has a number. An enum of its own: `None`
// and `Some(None)` of an Option in an Option would not say which is which.
#[derive(Clone, Copy, PartialEq, Eq)]
pub enum Reading {
    Unfit,
    Absent,
    Given(u64),
}

impl Reading {
    // Whether the field is what its place asks for.
    pub fn fits(self) -> bool
        ensures { result ≡ fits self }
    {
        match self {
            Reading::Unfit => false,
            Reading::Absent | Reading::Given(_) => true,
        }
    }

    // Its number, if it has one.
    pub fn given(self) -> Option<u64>
        ensures { result ≡ given self }
    {
        match self {
            Reading::Unfit | Reading::Absent => None,
            Reading::Given(word) => Some(word),
        }
    }

    // Its number, 0 where it has none, as a word that a line lacks is +0.0: no Option, since who reads it has looked
    // whether the line has its form, or wants 0 there.
    pub fn number(self) -> u64
        ensures { result ≡ number_in self }
    {
        self.given().unwrap_or(0)
    }
}

// A byte as a hexadecimal digit.
#[tactic(auto, unfolding(crate::specs::Shapes::digit_in))]
pub fn digit(b: u8) -> Option<u64>
    ensures { result ≡ digit_in b }
{
    match b {
        b'0'..=b'9' => Some((b - b'0') as u64),
        b'A'..=b'F' => Some((b - 55) as u64),
        _ => None,
    }
}

// A number with one digit more to the base: none once a digit was none of the base, or the number too large.
#[tactic(auto, unfolding(crate::specs::Fields::grow_of))]
fn grow(base: u64, v: Option<u64>, d: Option<u64>) -> Option<u64>
    ensures { result ≡ grow_of base v d }
{
    let d = d?;
    if base <= d {
        return None;
    }
    v?.checked_mul(base)?.checked_add(d)
}

// One more, up to 17.
fn lengthened(n: u64) -> u64
    ensures { result ≡ lengthened_of n }
{
    if n < 17 { n + 1 } else { n }
}

// A number that was read is what the field is.
impl From<Option<u64>> for Reading {
    ghost from_gives = { λ v r. r ≡ counted_of v };

    fn from(v: Option<u64>) -> Reading {
        match v {
            Some(word) => Reading::Given(word),
            None => Reading::Unfit,
        }
    }
}

// A field as far as it has come: its length, 17 for any above 16, and its number to the bases 10, 16 and 256, none
// where a byte is no digit of it or the number too large for a u64. To the base 256 up to eight bytes are one
// number, so that a short text is told by it, and no text is kept.
#[derive(Clone, Copy)]
pub struct Field {
    pub size: u64,
    pub dec: Option<u64>,
    pub hex: Option<u64>,
    pub text: Option<u64>,
}

impl Field {
    pub fn blank() -> Self
        ensures { result ≡ blank_field_of }
    {
        Field {
            size: 0,
            dec: Some(0),
            hex: Some(0),
            text: Some(0),
        }
    }

    // One byte more.
    #[tactic(auto, unfolding(crate::specs::Fields::added_of))]
    pub fn added(self, b: u8) -> Self
        ensures { result ≡ added_of self b }
    {
        let d = digit(b);
        Field {
            size: lengthened(self.size),
            dec: grow(10, self.dec, d),
            hex: grow(16, self.hex, d),
            text: grow(256, self.text, Some(b as u64)),
        }
    }

    // Whether the field is a text of so many bytes, eight at most, that is this number to the base 256.
    #[tactic(auto, unfolding(crate::specs::Fields::spells_of))]
    pub fn spells(self, size: u64, text: u64) -> bool
        ensures { result ≡ spells_of self size text }
    {
        self.size == size && self.text == Some(text)
    }

    #[tactic(auto, unfolding(crate::specs::Fields::word_of))]
    fn word(self) -> Reading
        ensures { result ≡ word_of self }
    {
        if self.size == 16 {
            return self.hex.into();
        }
        Reading::Unfit
    }

    #[tactic(auto, unfolding(crate::specs::Fields::decimal_of))]
    fn decimal(self) -> Reading
        ensures { result ≡ decimal_of self }
    {
        if self.size == 0 {
            return Reading::Unfit;
        }
        self.dec.into()
    }

    #[tactic(auto, unfolding(crate::specs::Fields::maybe_of))]
    fn maybe(self) -> Reading
        ensures { result ≡ maybe_of self }
    {
        if self.spells(1, b'-' as u64) {
            return Reading::Absent;
        }
        self.decimal()
    }

    // No `match` on size and text, here and in `job`: with it a byte of a line costs 217 instructions to read, in place
    // of 69.
    #[tactic(auto, unfolding(crate::specs::Fields::flag_of))]
    fn flag(self) -> Reading
        ensures { result ≡ flag_of self }
    {
        if self.spells(1, b'0' as u64) {
            return Reading::Given(0);
        }
        if self.spells(1, b'1' as u64) {
            return Reading::Given(1);
        }
        Reading::Unfit
    }

    // No `match`: the letters are those that `From<Kind>` gives, and a pattern calls nothing.
    #[tactic(auto, unfolding(crate::specs::Fields::letter_of))]
    fn letter(self) -> Reading
        ensures { result ≡ letter_of self }
    {
        let value = u8::from(Kind::Value) as u64;
        let gradient = u8::from(Kind::Gradient) as u64;
        if self.spells(1, value) {
            return Reading::Given(value);
        }
        if self.spells(1, gradient) {
            return Reading::Given(gradient);
        }
        Reading::Unfit
    }

    #[tactic(auto, unfolding(crate::specs::Fields::job_of))]
    fn job(self) -> Reading
        ensures { result ≡ job_of self }
    {
        if self.spells(7, 0x73_696d_706c_6578) {
            return Reading::Given(SIMPLEX);
        }
        if self.spells(4, 0x6266_6773) {
            return Reading::Given(BFGS);
        }
        if self.spells(5, 0x6c_6266_6773) {
            return Reading::Given(LBFGS);
        }
        Reading::Unfit
    }

    // The field read as a shape.
    pub fn judged(self, shape: Shape) -> Reading
        ensures { result ≡ judged_of shape self }
    {
        match shape {
            Shape::Word => self.word(),
            Shape::Decimal => self.decimal(),
            Shape::Maybe => self.maybe(),
            Shape::Flag => self.flag(),
            Shape::Letter => self.letter(),
            Shape::Job => self.job(),
            Shape::Nothing => Reading::Unfit,
        }
    }
}
