// What the fits take of an f64 beside its operations and comparisons: most of it Rust's f64 has as a method, and here it is worked
// out from the bits of a value, as the requirement (01) asks: sign, exponent and fraction are taken apart by shifts and masks. Which bits
// a NaN has is not fixed: they are never read, and a NaN is looked for first. What is worked out is claimed to be bit for bit the
// Rust's: the library's max and min leave open which of two equal values they give, 0.0 or -0.0, and its total_cmp takes no NaN.
#![tactic(auto)]

ghost use Rattle.std.specs.Prelude.{◌≡◌, ◌*◌, ◌^◌, ◌≤◌, ◌<◌, pos};
ghost use Rattle.std.specs.Float.{binary64};
ghost use Rattle.std.specs.Float.Ieee.{lt, to_bits};
ghost use Rattle.float.specs.Binary64.{Number, negative};
ghost use Rattle.float.specs.Values.{abs_of, finite_of, signum_of, max_of, min_of, tolerance_of, positive_of};
ghost use Rattle.float.specs.Order.{rank_of, key_of, precedes_of};
ghost use Rattle.float.specs.Roots.{difference_factor};
ghost use Rattle.float.specs.Sqrt.{sqrt_of, root_of, quanta_of_bits, IntegerRoot, guess_of, NotBelowRoot, FullWidth};

// All bits but the sign's.
const MAGNITUDE: u64 = 0x7fff_ffff_ffff_ffff;
// The 52 bits of the fraction.
const FRACTION: u64 = 0x000f_ffff_ffff_ffff;
// The exponent field of infinities and NaNs.
const TOP: u64 = 0x7ff;

pub fn abs(x: f64) -> f64
    ensures { result ≡ abs_of x }
{
    if x != x {
        return x;
    }
    f64::from_bits(f64::to_bits(x) & MAGNITUDE)
}

pub fn is_finite(x: f64) -> bool
    ensures { result ≡ finite_of x }
{
    if x != x {
        return false;
    }
    (f64::to_bits(x) >> 52) & TOP < TOP
}

// What a tolerance may be: neither negative nor not finite.
pub fn tolerance(x: f64) -> bool
    ensures { result ≡ tolerance_of x }
{
    0.0 <= x && is_finite(x)
}

// Likewise, and not zero. The two differ in one comparison: one function of both would need a word for which, and be no shorter.
pub fn positive(x: f64) -> bool
    ensures { result ≡ positive_of x }
{
    0.0 < x && is_finite(x)
}

#[tactic(auto, using(crate::proofs::Bits::number))]
pub fn signum(x: f64) -> f64
    ensures { result ≡ signum_of x }
{
    if x != x {
        return x;
    }
    if is_negative(x) { -1.0 } else { 1.0 }
}

// Whether a number has a minus, a zero too.
fn is_negative(x: f64) -> bool
    requires { Number x }
    ensures { result ≡ negative x }
{
    f64::to_bits(x) >> 63 == 1
}

// The bits of |x|, which an i64 holds.
fn magnitude(x: f64) -> i64
    requires { Number x }
    ensures { result ≡ pos (to_bits binary64 (abs_of x)) }
{
    (f64::to_bits(x) & MAGNITUDE) as i64
}

// The bits of |x| with the sign of x, by which numbers compare as `<` has them.
#[tactic(auto, using(crate::proofs::Bits::number))]
fn rank(x: f64) -> i64
    ensures { result ≡ rank_of x }
{
    if x != x {
        return i64::MAX;
    }
    let m = magnitude(x);
    if is_negative(x) { 0 - m } else { m }
}

// a < b
fn less(a: f64, b: f64) -> bool
    ensures { result ≡ lt a b }
{
    if a != a {
        return false;
    }
    if b != b {
        return false;
    }
    rank(a) < rank(b)
}

// max and min ask `less` of their operands, each in its own order: one function of both would need a word for which, and be no
// shorter. A NaN is passed over, and of two that are equal the first is returned.
pub fn max(a: f64, b: f64) -> f64
    ensures { result ≡ max_of a b }
{
    if a != a {
        return b;
    }
    if less(a, b) { b } else { a }
}

pub fn min(a: f64, b: f64) -> f64
    ensures { result ≡ min_of a b }
{
    if a != a {
        return b;
    }
    if less(b, a) { b } else { a }
}

// The key of `total_cmp`. It and `rank` differ in what a negative value becomes, and each meets a definition of its own.
#[tactic(auto, using(crate::proofs::Bits::number))]
pub fn key(x: f64) -> i64
    ensures { result ≡ key_of x }
{
    if x != x {
        return i64::MAX;
    }
    let m = magnitude(x);
    if is_negative(x) { -1 - m } else { m }
}

// Whether a comes before b in IEEE 754's total order: -0.0 before +0.0, a NaN last.
pub fn precedes(a: f64, b: f64) -> bool
    ensures { result ≡ precedes_of a b }
{
    key(a) < key(b)
}

// c, the f64 nearest the cube root of 2^-52.
pub fn difference_factor() -> f64
    ensures { result ≡ difference_factor }
{
    f64::from_bits(0x3ed9_65fe_a53d_6e3d)
}

// A significand of full width, 53 bits, and its exponent: the value is m * 2^(e - 2098).
#[derive(Clone, Copy)]
struct Scaled {
    m: u64,
    e: u64,
}

// The bits of a finite value above zero, taken apart. The leading zeros of a subnormal value's
// significand give the shift that brings it to full width.
fn full_width(b: u64) -> Scaled
    requires b_nonzero { 0 < b }
    requires b_bound { b < 0x7ff0_0000_0000_0000 }
    ensures { FullWidth b result.m result.e }
{
    let exponent = b >> 52;
    let fraction = b & FRACTION;
    if exponent == 0 {
        let shift = u64::leading_zeros(fraction) - 11;
        Scaled {
            m: fraction << shift,
            e: 1024 - (shift as u64),
        }
    } else {
        Scaled {
            m: 0x0010_0000_0000_0000 + fraction,
            e: exponent + 1023,
        }
    }
}

// A guess at the root of w: a parabola of the highest 16 of its 60 bits, less than 1 in 100 away. Here and below w < 2 ^ 60 is the
// one width that the root takes; no type says it more shortly.
fn guess(w: u64) -> u64
    requires { w < 2 ^ 60 }
    ensures { result ≡ guess_of w }
{
    let x = w >> 44;
    278_750_000 + x * (1_100_000 - x * 5) / 64
}

// Newton's step for the root of w, from a guess g at it: half of g + w / g is never below the root.
fn newton(w: u64, g: u64) -> u64
    requires w_bound { w < 2 ^ 60 }
    requires g_large { 2 ^ 28 ≤ g }
    requires g_bound { g < 2 ^ 32 }
    ensures { NotBelowRoot w result }
{
    (g + w / g) / 2
}

// The integer square root of w. Two steps bring the guess to it or to one more, which the loop takes
// off: it counts no index, so that it is a `while`. No proof leans on the guess being near: a far one would cost turns.
fn word_root(w: u64) -> u64
    requires w_large { 2 ^ 58 ≤ w }
    requires w_bound { w < 2 ^ 60 }
    ensures { IntegerRoot w result }
{
    let mut r = newton(w, newton(w, guess(w)));
    while w < r * r {
        r -= 1;
    }
    r
}

// The integer square root of w * 2^48, as in Zimmermann's Karatsuba Square Root. That of w has its
// upper 30 digits, and what that leaves over, divided by twice itself, gives the other 24, or one more
// where their square is above what is left then.
fn integer_root(w: u64) -> u64
    requires w_large { 2 ^ 58 ≤ w }
    requires w_bound { w < 2 ^ 60 }
    ensures { IntegerRoot (w * 2 ^ 48) result }
{
    let s = word_root(w);
    let rest = (w - s * s) << 23;
    let q = rest / s;
    let r = (s << 24) + q;
    if q * q <= (rest % s) << 25 { r } else { r - 1 }
}

// The root of the finite value above zero that has the bits b, correctly rounded. A root of 54 digits
// that ends in 1 is never exact, so half of it, rounded up, is the nearest of 53.
fn positive_root(b: u64) -> f64
    requires b_nonzero { 0 < b }
    requires b_bound { b < 0x7ff0_0000_0000_0000 }
    ensures { result ≡ root_of (quanta_of_bits b) }
{
    let p = full_width(b);
    let w = p.m << (6 + p.e % 2);
    let q = (integer_root(w) + 1) / 2;
    f64::from_bits(((p.e / 2 - 1) << 52) + q)
}

pub fn sqrt(x: f64) -> f64
    ensures { result ≡ sqrt_of x }
{
    if x != x {
        return x;
    }
    let b = f64::to_bits(x);
    if b & MAGNITUDE == 0 {
        return x;
    }
    if b >> 63 == 1 {
        return 0.0 / 0.0;
    }
    if b >> 52 == TOP {
        return x;
    }
    positive_root(b)
}
