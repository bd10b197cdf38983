// A text that is being printed: bytes, numbers and values put one behind another. No `Display`: the library's `write!`
// does not promise that it succeeds where there is room (as lines_print says).
#![tactic(auto)]

ghost use Rattle.std.specs.Prelude.{◌≡◌, ℕ, List, [], ◌∷◌, ◌++◌, ◌+◌, ◌*◌, ◌≤◌, ◌<◌, length, take};
ghost use Rattle.std.specs.Float.Ieee.{to_bits};
ghost use Rattle.std.specs.Float.{binary64};
ghost use Rattle.lines_buffer.specs.Texts.{Written, filled, glyph_of, numeral, places_of, decimal_text, value_text, values_text};

use std::marker::Model;

// The bits of a value, one pattern for every NaN.
pub fn bits(x: f64) -> u64
    ensures { result ≡ to_bits binary64 x }
{
    if x.is_nan() {
        return 0x7ff8_0000_0000_0000;
    }
    x.to_bits()
}

fn glyph(d: u64) -> u8
    requires { d < 16 }
    ensures { result ≡ glyph_of d }
{
    if d < 10 {
        return b'0' + d as u8;
    }
    b'A' + (d - 10) as u8
}

// The last digits of n to the base, as many as there is room for. By index and no `iter_mut`: of a slice written
// through it the library tells a proof the length, and no element.
fn put_digits(out: &mut [u8], base: u64, n: u64)
    requires { (1 < base) × (base ≤ 16) }
    ensures { out.new ≡ numeral base (length out.old) n }
{
    let mut rest = n;
    for i in (0..out.len()).rev() {
        out[i] = glyph(rest % base);
        rest /= base;
    }
}

// How many decimal digits n has.
fn places(n: u64) -> usize
    ensures { (result ≡ places_of n) × (result ≤ 20) }
{
    n.checked_ilog10().map_or(1, |k| k as usize + 1)
}

// A text of any length put at a place of a lent slice, whose other bytes stay; and the place behind it.
pub fn put_text(out: &mut [u8], at: usize, s: &[u8]) -> usize
    requires { at + length s.now ≤ length out.old }
    ensures { Written out.old at out.new result s.now }
{
    let end = at + s.len();
    out[at..end].copy_from_slice(s);
    end
}

// At most N bytes, seen as the list of them. No heap, so no `String`.
#[derive(Drop)]
pub struct Text<const N: usize> {
    bytes: [u8; N],
    len: usize,
}

impl<const N: usize> Model for Text<N> {
    ghost Value = { List ℕ };

    ghost view = { λ t. take t.len t.bytes };

    ghost invariant = { λ t. t.len ≤ N };
}

impl<const N: usize> Text<N> {
    pub fn new() -> Self
        ensures { result ≡ [] }
    {
        Text {
            bytes: [0; N],
            len: 0,
        }
    }

    // The bytes so far.
    pub fn as_bytes(&self) -> &[u8]
        ensures { (result.now ≡ self.now) × (length self.now ≤ N) }
    {
        let bytes = &self.bytes[..];
        &bytes[..self.len]
    }

    pub fn push(&mut self, b: u8)
        requires { length self.old < N }
        ensures { self.new ≡ self.old ++ (b ∷ []) }
    {
        self.bytes[self.len] = b;
        self.len += 1;
    }

    pub fn push_bytes(&mut self, s: &[u8])
        requires { length self.old + length s.now ≤ N }
        ensures { self.new ≡ self.old ++ s.now }
    {
        let at = self.len;
        self.len = at + s.len();
        let bytes = &mut self.bytes[..];
        bytes[at..self.len].copy_from_slice(s);
    }

    // The last k digits of n to the base.
    fn push_digits(&mut self, base: u64, k: usize, n: u64)
        requires lt_base { (1 < base) × (base ≤ 16) }
        requires room { length self.old + k ≤ N }
        ensures { self.new ≡ self.old ++ numeral base k n }
    {
        let at = self.len;
        self.len = at + k;
        let bytes = &mut self.bytes[..];
        put_digits(&mut bytes[at..self.len], base, n);
    }

    pub fn push_decimal(&mut self, n: u64)
        requires { length self.old + 20 ≤ N }
        ensures text { self.new ≡ self.old ++ decimal_text n }
        ensures room { length self.new ≤ length self.old + 20 }
    {
        self.push_digits(10, places(n), n);
    }

    // A decimal with a space before it.
    pub fn push_count(&mut self, n: u64)
        requires { length self.old + 21 ≤ N }
        ensures text { self.new ≡ self.old ++ (32 ∷ decimal_text n) }
        ensures room { length self.new ≤ length self.old + 21 }
    {
        self.push(b' ');
        self.push_decimal(n);
    }

    // A value's bits with a space before them.
    pub fn push_value(&mut self, x: f64)
        requires { length self.old + 17 ≤ N }
        ensures text { self.new ≡ self.old ++ (32 ∷ value_text x) }
        ensures room { length self.new ≡ length self.old + 17 }
    {
        self.push(b' ');
        self.push_digits(16, 16, bits(x));
    }

    // Values, each with a space before it.
    pub fn push_values(&mut self, xs: &[f64])
        requires { length self.old + 17 * length xs.now ≤ N }
        ensures text { self.new ≡ self.old ++ values_text xs.now }
        ensures room { length self.new ≡ length self.old + 17 * length xs.now }
    {
        for x in xs {
            self.push_value(*x);
        }
    }

    // Put at a place of a lent slice, whose other bytes stay; and the place behind it.
    pub fn put_at(&self, out: &mut [u8], at: usize) -> usize
        requires { at + length self.now ≤ length out.old }
        ensures { Written out.old at out.new result self.now }
    {
        put_text(out, at, self.as_bytes())
    }

    // Put at the start of a lent buffer of its size, whose other bytes stay; and how many bytes it has.
    pub fn put(&self, out: &mut [u8; N]) -> usize
        ensures text { (result ≡ length self.now) × (out.new ≡ filled out.old self.now) }
        ensures fits { result ≤ N }
    {
        put_text(out, 0, self.as_bytes())
    }
}
