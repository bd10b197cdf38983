// What a call says in `point` and `slopes`, and what a start leaves.
ghost use Rattle.std.specs.Prelude.{◌≡◌};
ghost use Rattle.protocol.specs.Protocol.{reply_of};
ghost use Rattle.optim_record.specs.Record.{outcome_of};
ghost use Rattle.optim_reply.specs.Spoken.{spoken_by, spoken_in};
ghost use Rattle.optim_lists.specs.Lent.{lists_left};
ghost use Rattle.optim_lists.specs.Answered.{started_of, said_over, point_with, slopes_with, point_after, slopes_after};

use optim_lists::Lent;
use optim_record::Answered;
use protocol::Said;

// The point and the gradient of which a reply speaks.
#[tactic(auto, unfolding(protocol::specs::Protocol::reply_of, optim_lists::specs::Answered::point_with, optim_lists::specs::Answered::slopes_with))]
pub fn speak(said: Said, x: [f64; 16], g: [f64; 16], point: &mut [f64; 16], slopes: &mut [f64; 16])
    ensures said_point { point.new ≡ point_with (reply_of said 0 x g) x point.old }
    ensures said_slopes { slopes.new ≡ slopes_with (reply_of said 0 x g) g slopes.old }
{
    match said {
        Said::Ask(_, _) | Said::Fitted(_) => {
            *point = x;
        }
        Said::Searched(_) | Said::Differenced => {
            *point = x;
            *slopes = g;
        }
        Said::Refused(_) => {}
    }
}

// What a start says, and the record that it leaves.
pub fn opened(l: Lent<'_>, a: Answered, point: &mut [f64; 16], slopes: &mut [f64; 16]) -> Said
    requires { spoken_in a ≡ spoken_by (outcome_of a) }
    ensures outcome { said_over result (lists_left l.exit) point.new slopes.new ≡ started_of (outcome_of a) }
    ensures said_point { point.new ≡ point_after (started_of (outcome_of a)) point.old }
    ensures said_slopes { slopes.new ≡ slopes_after (started_of (outcome_of a)) slopes.old }
{
    speak(a.said, a.x, a.g, point, slopes);
    optim_store::store(l, a.next);
    a.said
}
