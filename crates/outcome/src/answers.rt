// Answers, and the decisions that are made of them. In order: the answer that shows a search's result, and the vector raised by it; then what a read needs to hear, a
// session that is kept, an effect without a session, a record that is stored, a message that is taken.
ghost use Rattle.std.specs.Prelude.{◌≡◌, true, false, [], ◌∷◌, ◌<◌, OnOk, IfErr};
ghost use Rattle.vector.specs.Vec.{with_entry};
ghost use Rattle.vector.specs.Entries.{entry};
ghost use Rattle.vector.specs.Meaning.{as_vec};
ghost use Rattle.protocol.specs.Record.{Update, raised_by};
ghost use Rattle.protocol.specs.State.{with_vec};
ghost use Rattle.protocol.specs.Change.{Publish, Receive, SetSession};
ghost use Rattle.protocol.specs.Serve.{written, ◌and◌};
ghost use Rattle.protocol.specs.declared.Answer.TheVariants.{Done, Stamped};
ghost use Rattle.protocol.specs.Event.{shown};
ghost use Rattle.record.specs.Meaning.{as_message};
ghost use Rattle.parts.specs.Meaning.{as_session};
ghost use Rattle.search.specs.Found.{found_of, Sited};
ghost use Rattle.outcome.specs.Hears.{enough, lacks};
ghost use Rattle.outcome.specs.Decided.{outcome_of};

use crate::{Decided, Effect, keeping};
use parts::Session;
use protocol::limits::{NodeAt, SessionAt};
use protocol::{Answer, Reading, Reason};
use record::{Letter, Message, Numbers, Record};
use vector::Vector;

// The answer that shows it.
pub fn shown(found: Option<Record>) -> Answer
    ensures { result ≡ shown (found_of found) }
{
    match found {
        None => Answer::Nothing,
        Some(record) => {
            let r = record.numbers;
            Answer::Value(Reading {
                source: r.source,
                quality: r.quality,
                level: r.level,
                stamp: r.stamp,
            })
        }
    }
}

// The vector, raised by what a search gave: unchanged if nothing was found.
pub fn raised_by(v: Vector, found: Option<Record>) -> Vector
    requires { Sited found }
    ensures { as_vec result ≡ raised_by (as_vec v) (found_of found) }
{
    match found {
        None => v,
        Some(r) => v.raised(r.carried, r.numbers.source as usize, r.numbers.stamp),
    }
}

// A read that needs to hear this, of every site but the one that is spared: at the lowest that is short it waits, for the stamp that is needed there (R51).
pub fn hears(needed: Vector, heard: Vector, spared: Option<u8>) -> Result<(), Reason>
    ensures ok { OnOk result (enough spared (as_vec needed) (as_vec heard) ≡ true) }
    ensures err { IfErr result (λ w. (enough spared (as_vec needed) (as_vec heard) ≡ false) × (w ≡ lacks spared (as_vec needed) (as_vec heard))) }
{
    let short = match spared {
        None => needed.first_short(heard),
        Some(m) => needed.first_short_but(heard, m as usize),
    };
    match short {
        None => Ok(()),
        Some(site) => Err(Reason::Wait {
            site: site as u8,
            stamp: needed.entries[site],
        }),
    }
}

// The answer, and session s is now x.
pub fn kept(answer: Answer, s: SessionAt, x: Session) -> Decided
    ensures { outcome_of result ≡ (answer and SetSession s.number (as_session x) ∷ []) }
{
    Decided {
        answer,
        effect: Effect::Keep {
            session: s,
            kept: x,
        },
    }
}

// Done, and a node's clock or a heartbeat or nothing.
pub fn done(effect: Effect) -> Decided
    ensures { (result.answer ≡ Done) × (result.effect ≡ effect) }
{
    Decided {
        answer: Answer::Done,
        effect,
    }
}

// R45: the record carries the session's vector as it was before; then the session's own entry becomes the stamp. The node is one of the session's site.
pub fn stored(
    s: SessionAt,
    x: Session,
    node: NodeAt,
    key: u8,
    quality: u8,
    level: i32,
    stamp: u64,
) -> Decided
    ensures { outcome_of result ≡ (Stamped node.site stamp and Publish node.site node.partition (Update (written (as_session x) key quality level stamp)) ∷ SetSession s.number (with_vec (as_session x) (with_entry (as_session x).vec node.site stamp)) ∷ []) }
{
    let vec = x.vec.with_entry(node.site as usize, stamp);
    let message = Message::Update(Numbers {
        key,
        source: x.site,
        quality,
        level,
        stamp,
    });
    let letter = Letter {
        message,
        carried: x.vec,
    };
    Decided {
        answer: Answer::Stamped {
            source: node.site,
            stamp,
        },
        effect: Effect::Put {
            session: s,
            kept: keeping::with_vector(x, vec),
            node,
            letter,
        },
    }
}

// The message leaves the channel from site i to the node.
pub fn taken(i: u8, node: NodeAt, letter: Letter) -> Decided
    ensures { outcome_of result ≡ (Done and Receive i node.site node.partition (as_message letter) ∷ []) }
{
    Decided {
        answer: Answer::Done,
        effect: Effect::Deliver {
            from: i,
            node,
            letter,
        },
    }
}
