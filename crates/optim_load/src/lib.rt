// The record that lent lists are, loaded part by part.
#![tactic(auto)]

mod parts;

ghost use Rattle.std.specs.Prelude.{◌≡◌};
ghost use Rattle.optim_lists.specs.Lists.{record_of};
ghost use Rattle.optim_lists.specs.Lent.{lists_held};

use optim_lists::Held;
use optim_record::{Counts, Limits, Record};

// The record that the lists are. It is no `From`: neither type is this crate's. A flag is read as whether it is not 0; one above 1 is refused by who answers (optim_lent's `formed`).
#[tactic(auto, unfolding(optim_lists::specs::Lists::record_of))]
pub fn load(l: &Held<'_>) -> Record
    ensures { result ≡ record_of (lists_held l.now) }
{
    Record {
        accepted: l.m[0],
        job: l.m[1],
        n: l.m[2] as usize,
        counts: Counts {
            fevals: l.m[3],
            gevals: l.m[4],
        },
        limits: Limits {
            iter: l.m[5],
            fevals: l.m[6],
        },
        options: parts::options(l),
        gradient: parts::gradient_options(l),
        diff: parts::differences(l),
        simplex: parts::simplex(l),
        descent: parts::descent(l),
        model: parts::model(l),
    }
}
