// The open question of a gradient fit and its answer. A move takes what is told for the question, and gives
// the record with the next question in it, or at rest: at the head of a round, or with its search ended. The moves
// are functions, and no methods: the crate that declares the record cannot see what they stand on. `fixed` and the record
// are two arguments: `quasinewton_record` says why. `told` and
// `told_gradient` tell phases apart by `if` and `return`: a `match` in their place costs fits by bfgs and lbfgs of 2 and of 8
// coordinates 14% to 16% more instructions.
#![tactic(auto)]

ghost use Rattle.std.specs.Prelude.{◌≡◌, ◌≤◌};
ghost use Rattle.quasinewton_answer.specs.Questions.{probe_of, told_of, told_gradient_of};

use linesearch::Setup;
use quasinewton_record::{
    Descent, FIRST_DIFFERENCES, FIRST_GRADIENT, FIRST_VALUE, Fixed, SEARCHING,
};

// The point of the open question.
#[tactic(auto, unfolding(crate::specs::Questions::probe_of))]
pub fn probe(fixed: Fixed, q: Descent) -> [f64; 16]
    requires { fixed.n ≤ 16 }
    ensures { result ≡ probe_of fixed q }
{
    match q.phase {
        SEARCHING => {
            let setup = Setup {
                fixed: fixed.search_fixed(),
                line: q.line,
            };
            linesearch::probe(&setup, q.search)
        }
        FIRST_DIFFERENCES if q.diff.at < fixed.n => q.diff.probe(),
        FIRST_DIFFERENCES => q.diff.x,
        _ => q.line.x,
    }
}

// A value as it is read. A record that asks for none stays as it is.
#[tactic(auto, unfolding(crate::specs::Questions::told_of))]
pub fn told(fixed: Fixed, mut q: Descent, v: f64) -> Descent
    requires { fixed.n ≤ 16 }
    ensures { result ≡ told_of fixed q v }
{
    if q.phase == SEARCHING {
        let setup = Setup {
            fixed: fixed.search_fixed(),
            line: q.line,
        };
        q.search = linesearch::told(&setup, q.search, v, v);
        return q;
    }
    if q.phase == FIRST_VALUE {
        return quasinewton_round::valued(fixed, q, v);
    }
    if q.phase == FIRST_DIFFERENCES && q.diff.at < fixed.n {
        return quasinewton_round::differing(fixed, q, q.diff.told(v));
    }
    q
}

// A gradient. A record that asks for none stays as it is.
#[tactic(auto, unfolding(crate::specs::Questions::told_gradient_of))]
pub fn told_gradient(fixed: Fixed, mut q: Descent, g: [f64; 16]) -> Descent
    requires { fixed.n ≤ 16 }
    ensures { result ≡ told_gradient_of fixed q g }
{
    if q.phase == SEARCHING {
        let setup = Setup {
            fixed: fixed.search_fixed(),
            line: q.line,
        };
        q.search = linesearch::told_gradient(&setup, q.search, g);
        return q;
    }
    if q.phase == FIRST_GRADIENT {
        return quasinewton_round::graded(fixed, q, g);
    }
    q
}
