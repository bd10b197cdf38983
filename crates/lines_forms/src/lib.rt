// What line 1, line 3 and an answer say, once the reader has read them: none where the line has another form.
#![tactic(auto)]

ghost use Rattle.std.specs.Prelude.{◌≡◌, ◌≤◌, take};
ghost use Rattle.float.specs.Binary64.{bits};
ghost use Rattle.lines_forms.specs.Lines.{words_of, whole_of, first_line_of, point_holds_of, point_line_of, answer_holds_of, answer_line_of};

use lines_field::Reading;
use lines_reader::LineRead;
use std::array;

// Line 1: the job's mark (simplex 1, bfgs 2, lbfgs 3), and n. The mark is the field's number, as n is, and as a record
// keeps it: an enum would be made of it and turned back. `jobs` of fit_theory says that it is one of the three.
#[derive(Clone, Copy)]
pub struct FirstLine {
    pub job: u64,
    pub n: u64,
}

// An answer: its number, its letter, how many words it has, 17 for any above, and the first seventeen. The letter is
// a byte and no `Kind`, since it is what `answer` takes. There is no heap, so the words are an array beside their
// count; an answer of seventeen is as refused as a longer one.
#[derive(Clone, Copy)]
pub struct AnswerLine {
    pub number: u64,
    pub kind: u8,
    pub count: usize,
    pub words: [f64; 17],
}

impl AnswerLine {
    // The words that it has, of those that are kept.
    pub fn lent(&self) -> &[f64]
        ensures { result.now ≡ take self.now.count self.now.words }
    {
        &self.words[..self.count.min(17)]
    }
}

// The f64 that has these bits. Every NaN pattern is taken in as one NaN, since the bits of a NaN are not to
// be read back.
pub fn value(b: u64) -> f64
    ensures { result ≡ bits b }
{
    if 0x7ff0_0000_0000_0000 < b & 0x7fff_ffff_ffff_ffff {
        return 0.0 / 0.0;
    }
    f64::from_bits(b)
}

// The f64s of seventeen fields, from a place on.
pub fn words(fields: [Reading; 20], from: usize) -> [f64; 17]
    requires { from ≤ 3 }
    ensures { result ≡ words_of fields from 17 }
{
    array::from_fn(|i| value(fields[from + i].number()))
}

// Whether a line has n fields, each of its shape.
#[tactic(auto, unfolding(crate::specs::Lines::whole_of))]
pub fn whole(l: LineRead, n: usize) -> bool
    ensures { result ≡ whole_of l n }
{
    l.count == n && l.ok
}

// Line 1, as the reader has read it.
#[tactic(auto, unfolding(crate::specs::Lines::first_line_of))]
pub fn first_line(l: LineRead) -> Option<FirstLine>
    ensures { result ≡ first_line_of l }
{
    whole(l, 2).then_some(FirstLine {
        job: l.fields[0].number(),
        n: l.fields[1].number(),
    })
}

// Whether line 3 has n words; of none it is empty.
#[tactic(auto, unfolding(crate::specs::Lines::point_holds_of))]
fn point_holds(l: LineRead, n: u64) -> bool
    ensures { result ≡ point_holds_of l n }
{
    if n == 0 {
        return l.empty;
    }
    whole(l, n as usize)
}

// Line 3, where line 1 said n: its first seventeen words; a word that it lacks is +0.0.
#[tactic(auto, unfolding(crate::specs::Lines::point_line_of))]
pub fn point_line(l: LineRead, n: u64) -> Option<[f64; 17]>
    ensures { result ≡ point_line_of l n }
{
    point_holds(l, n).then_some(words(l.fields, 0))
}

#[tactic(auto, unfolding(crate::specs::Lines::answer_holds_of))]
fn answer_holds(l: LineRead) -> bool
    ensures { result ≡ answer_holds_of l }
{
    2 <= l.count && l.ok
}

// An answer: number, kind, words.
#[tactic(auto, unfolding(crate::specs::Lines::answer_line_of))]
pub fn answer_line(l: LineRead) -> Option<AnswerLine>
    ensures { result ≡ answer_line_of l }
{
    answer_holds(l).then_some(AnswerLine {
        number: l.fields[0].number(),
        kind: (l.fields[1].number() % 256) as u8,
        count: l.count.saturating_sub(2).min(17),
        words: words(l.fields, 2),
    })
}
