// A decision carried out: the changes of its effect, on the table's bytes. It writes what the effect holds, and reads nothing to decide.
ghost use Rattle.std.specs.Prelude.{◌≡◌};
ghost use Rattle.table.specs.Parts.{Long};
ghost use Rattle.table.specs.Put.{put_changes};
ghost use Rattle.table.specs.Fits.{FitsAll};
ghost use Rattle.outcome.specs.Decided.{changes_of};

use outcome::Effect;
use record::{Letter, Message};
use vector::Vector;

pub fn carry_out(t: &mut [u8], effect: Effect)
    requires { Long t.old × FitsAll (changes_of effect) t.old }
    ensures { t.new ≡ put_changes (changes_of effect) t.old }
{
    match effect {
        Effect::Nothing => {}
        Effect::Keep { session, kept } => {
            table::set_session(t, session, kept);
        }
        Effect::Clock { node, time } => {
            table::set_clock(t, node, time);
        }
        Effect::Beat { node, stamp } => {
            let message = Message::Heartbeat { stamp };
            let letter = Letter {
                message,
                carried: Vector::ZERO,
            };
            table::publish(t, node, letter);
        }
        Effect::Put {
            session,
            kept,
            node,
            letter,
        } => {
            table::publish(t, node, letter);
            table::set_session(t, session, kept);
        }
        Effect::Deliver { from, node, letter } => {
            table::receive(t, from as usize, node, letter);
        }
    }
}
