// The decisions of a session without a page: OPEN, CLOSE and GET. Each takes the session, tests it from top to bottom as R60 has it,
// and decides.
ghost use Rattle.std.specs.Prelude.{◌≡◌, ◌<◌};
ghost use Rattle.protocol.specs.Event.{OPEN, CLOSE, GET};
ghost use Rattle.table.specs.Parts.{Whole};
ghost use Rattle.table.specs.Decode.{decode};
ghost use Rattle.outcome.specs.Decided.{decided_of};
ghost use Rattle.decision.specs.Answered.{answered};

use crate::lookup;
use lawful::Table;
use outcome::{Decided, answers, keeping, raising};
use protocol::limits::SessionAt;
use protocol::{Answer, Reason};

// OPEN of session s at site m.
pub fn open_session(table: Table, s: SessionAt, m: u8) -> Result<Decided, Reason>
    ensures { decided_of result ≡ answered (decode table.entry.bytes.now) (OPEN s.number m) }
{
    if lookup::session(table, s).open {
        return Err(Reason::SessionOpen);
    }
    Ok(answers::kept(Answer::Done, s, keeping::opened(m)))
}

pub fn close_session(table: Table, s: SessionAt) -> Result<Decided, Reason>
    ensures { decided_of result ≡ answered (decode table.entry.bytes.now) (CLOSE s.number) }
{
    lookup::opened(table, s)?;
    Ok(answers::kept(Answer::Done, s, keeping::closed()))
}

// R44, GET of key k: the node's entry for every other site is at least the session's, and then the newest record is shown. Where one is not it waits,
// for the lowest such site (R51).
pub fn get(table: Table, s: SessionAt, k: u8) -> Result<Decided, Reason>
    requires { Whole table.bytes.now × (k < 64) }
    ensures { decided_of result ≡ answered (decode table.entry.bytes.now) (GET s.number k) }
{
    let x = lookup::opened(table, s)?;
    if x.paged {
        return Err(Reason::PageOpen);
    }
    let node = lookup::node_of(table, x.site, k);
    let heard = lookup::heard(table, node);
    answers::hears(x.vec, heard, Some(x.site))?;
    let found = lookup::at_hand(table, node, k);
    Ok(answers::kept(answers::shown(found), s, raising::raised_by(x, found)))
}
