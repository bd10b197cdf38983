// What the fit program prints: questions, results, refusals and bad lines, put at the start of a lent
// buffer. Each public function returns how many bytes it put; the rest of the buffer stays as it was. A count and no
// slice: a slice would keep the buffer lent for as long as the turn that holds it.
// n stands beside a point, which is sixteen numbers in every crate.
// No `Display`: the library's `write!` does not promise that it succeeds where there is room.
#![tactic(auto)]

mod reasons;

ghost use Rattle.std.specs.Prelude.{◌≡◌, ◌≤◌, length};
ghost use Rattle.vector.specs.Lists.{first};
ghost use Rattle.lines_buffer.specs.Texts.{filled};
ghost use Rattle.lines_print.specs.Print.{limited_of, question_of, result_of, ask_text, end_text, no_text, bad_text};

use lines_buffer::Text;
use protocol::{Kind, Summary};
use reasons::{flag_text, reason_text};

// The first n of sixteen coordinates, all of them for any n above.
fn coordinates(x: &[f64; 16], n: usize) -> &[f64]
    ensures { (result.now ≡ first (limited_of n) x.now) × (length result.now ≤ 16) }
{
    &x[..n.min(16)]
}

// `bad`, the line's number.
pub fn put_bad(out: &mut [u8; 512], line: u64) -> usize
    ensures { (result ≡ length (bad_text line)) × (out.new ≡ filled out.old (bad_text line)) }
{
    let mut t = Text::new();
    t.push_bytes(b"bad ");
    t.push_decimal(line);
    t.push(b'\n');
    t.put(out)
}

// `no`, a refusal's number and detail.
pub fn put_no(out: &mut [u8; 512], number: u64, detail: u64) -> usize
    ensures { (result ≡ length (no_text number detail)) × (out.new ≡ filled out.old (no_text number detail)) }
{
    let mut t = Text::new();
    t.push_bytes(b"no ");
    t.push_decimal(number);
    t.push_count(detail);
    t.push(b'\n');
    t.put(out)
}

// `ask`, a question's number, kind and point: the first n of sixteen coordinates.
pub fn put_ask(out: &mut [u8; 512], number: u64, kind: Kind, x: [f64; 16], n: usize) -> usize
    ensures { (result ≡ length (ask_text (question_of number kind x n))) × (out.new ≡ filled out.old (ask_text (question_of number kind x n))) }
{
    let mut t = Text::new();
    t.push_bytes(b"ask ");
    t.push_decimal(number);
    t.push(b' ');
    t.push(kind.into());
    t.push_values(coordinates(&x, n));
    t.push(b'\n');
    t.put(out)
}

// `end`, a result: reason, converged, iterations, fevals, gevals, f, x.
pub fn put_end(out: &mut [u8; 512], s: Summary, x: [f64; 16], n: usize) -> usize
    ensures { (result ≡ length (end_text (result_of s x n))) × (out.new ≡ filled out.old (end_text (result_of s x n))) }
{
    let mut t = Text::new();
    t.push_bytes(b"end ");
    t.push_bytes(reason_text(s.reason));
    t.push(b' ');
    t.push_bytes(flag_text(s.converged));
    t.push_count(s.iterations);
    t.push_count(s.fevals);
    t.push_count(s.gevals);
    t.push_value(s.f);
    t.push_values(coordinates(&x, n));
    t.push(b'\n');
    t.put(out)
}
