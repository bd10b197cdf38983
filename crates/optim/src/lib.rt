// The engine: one start for each job, and one call for each answer. The record goes in by value and
// comes back beside the reply.
#![tactic(auto)]

ghost use Rattle.std.specs.Prelude.{◌≡◌};
ghost use Rattle.optim_record.specs.Record.{outcome_of};
ghost use Rattle.optim_reply.specs.Spoken.{spoken_by, spoken_in};
ghost use Rattle.optim.specs.Answer.{answer_of};

pub use optim_record::{Answered, Record, blank, valid};
pub use optim_start::{bfgs, differences, lbfgs, search, simplex};
use protocol::{SEARCH, SIMPLEX};

// An answer to the open question: its number, its kind's letter, and its words, one by one, as C tells them. A letter and no `Kind`: who
// answers may tell any byte, and one that is neither V nor G is met with refusal 17. A refused or repeated
// answer returns the very record that was passed. One record is kept and parts of it are replaced, so that
// it is copied no more than its passing asks for; a gradient fit that still asks has no use for its model. All parts but the model
// come by a local: stored straight from the call, a question of a simplex fit costs 64 instructions more, and one of a gradient fit 93.
pub fn answer(r: Record, number: u64, kind: u8, words: &[f64]) -> Answered
    ensures outcome { outcome_of result ≡ answer_of r number kind words.now }
    ensures spoken { spoken_in result ≡ spoken_by (answer_of r number kind words.now) }
{
    let mut q = r;
    let accepted = match optim_rules::accepted(q, number, kind, words.len()) {
        Ok(accepted) => accepted,
        Err(why) => return optim_reply::answered(optim_reply::refused(why), q),
    };
    if accepted {
        let counts = optim_rules::counted(q);
        let last = q.accepted + 1;
        match q.job {
            SIMPLEX => {
                let next = optim_rules::simplex_told(q, words);
                q.simplex = next;
            }
            SEARCH => {
                let next = optim_rules::search_told(q, words);
                q.descent = next;
            }
            job if optim_record::gradient_job(job) => {
                let told = optim_rules::descent_told(q, words);
                if told.asks() {
                    q.descent = told;
                } else {
                    let fixed = optim_reply::gradient_fixed(q);
                    if quasinewton::stores(fixed, told) {
                        q.model = quasinewton::updated(fixed, told, q.model);
                    }
                    let next = quasinewton::settled(fixed, told, q.model, counts.fevals);
                    q.descent = next;
                }
            }
            _ => {
                let next = q.diff.told(words[0]);
                q.diff = next;
            }
        }
        q.accepted = last;
        q.counts = counts;
    }
    optim_reply::answered(optim_reply::standing(&q), q)
}
