// The engine over a record that is lent as lists: one start for each job, and one call for each answer. The lists are loaded, the
// engine's call is made, and what it leaves is stored. `point` gets the point of which the reply speaks, `slopes` the gradient that a
// bare search or bare differences end with; a refusal leaves both as they were. The two travel together in eight functions here and in
// optim_lent_start: C passes them as two pointers, and a struct of them would be made and taken apart in each.
#![tactic(auto)]

ghost use Rattle.std.specs.Prelude.{◌≡◌, drop};
ghost use Rattle.optim_lists.specs.Layout as place;
ghost use Rattle.optim_lists.specs.Lists.{flags_only};
ghost use Rattle.optim_lists.specs.Lent.{lists_in, lists_left};
ghost use Rattle.optim_lists.specs.Answered.{answered_of, said_over, point_after, slopes_after};

pub use optim_lent_start::{bfgs, differences, lbfgs, search, simplex};
use optim_lists::Lent;
use protocol::{Refusal, Said};

// Whether every flag is 0 or 1.
fn formed(m: &[u64; 36]) -> bool
    ensures { result ≡ flags_only (drop place.flags m.now) }
{
    m[25..].iter().all(|k| *k <= 1)
}

// An answer to the open question: its number, its kind's letter (a u8, since any byte may come), and its words. A refused or repeated
// answer leaves every list of the record as it was.
pub fn answer(
    l: Lent<'_>,
    number: u64,
    kind: u8,
    words: &[f64],
    point: &mut [f64; 16],
    slopes: &mut [f64; 16],
) -> Said
    ensures outcome { said_over result (lists_left l.exit) point.new slopes.new ≡ answered_of (lists_in l.entry) number kind words.now }
    ensures said_point { point.new ≡ point_after (answered_of (lists_in l.entry) number kind words.now) point.old }
    ensures said_slopes { slopes.new ≡ slopes_after (answered_of (lists_in l.entry) number kind words.now) slopes.old }
{
    if !formed(l.m) {
        return Said::Refused(Refusal::new(1, 0));
    }
    let before = l.m[0];
    let a = optim::answer(optim_load::load(&l.held()), number, kind, words);
    optim_lent_start::speak(a.said, a.x, a.g, point, slopes);
    if a.next.accepted != before {
        optim_store::store(l, a.next);
    }
    a.said
}
