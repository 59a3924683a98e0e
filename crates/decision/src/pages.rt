// The decisions of a page: BEGIN, READ and END. Each takes the session, tests it from top to bottom as R60 has it, and decides.
ghost use Rattle.std.specs.Prelude.{◌≡◌, ◌<◌, ◌≤◌};
ghost use Rattle.protocol.specs.Event.{BEGIN, READ, END};
ghost use Rattle.parts.specs.Pages.{keys_on};
ghost use Rattle.table.specs.Decode.{decode};
ghost use Rattle.outcome.specs.Decided.{decided_of};
ghost use Rattle.decision.specs.Answered.{answered};

use crate::lookup;
use lawful::Table;
use outcome::{Decided, answers, keeping, raising};
use parts::Keys;
use protocol::limits::{NodeAt, SessionAt};
use protocol::{Answer, Reason};

// BEGIN of a page of these keys, with the node of partition p as its coordinator.
pub fn begin(table: Table, s: SessionAt, p: u8, keys: Keys) -> Result<Decided, Reason>
    requires { (p < 4) × (keys.count ≤ 8) }
    ensures { decided_of result ≡ answered (decode table.entry.bytes.now) (BEGIN s.number p (keys_on keys)) }
{
    let x = lookup::opened(table, s)?;
    if x.paged {
        return Err(Reason::PageOpen);
    }
    if !keys.distinct() {
        return Err(Reason::KeyTwice);
    }
    let node = NodeAt {
        site: x.site,
        partition: p,
    };
    let coordinator = lookup::heard(table, node);
    Ok(answers::kept(Answer::Done, s, keeping::begun(x, coordinator, keys)))
}

// R47, READ of key k: every entry of the node's vector is at least the page's, and then the newest candidate is shown. Where one is not it waits, for the lowest
// such site (R51): no site is spared.
pub fn read(table: Table, s: SessionAt, k: u8) -> Result<Decided, Reason>
    ensures { decided_of result ≡ answered (decode table.entry.bytes.now) (READ s.number k) }
{
    let x = lookup::opened(table, s)?;
    if !x.paged {
        return Err(Reason::NoPageOpen);
    }
    if !x.marks.awaited(k) {
        return Err(Reason::KeyNotAwaited);
    }
    let page = x.snapshot;
    let node = lookup::node_of(table, x.site, k);
    let heard = lookup::heard(table, node);
    answers::hears(page, heard, None)?;
    let found = lookup::newest(table, node, k, page);
    Ok(answers::kept(answers::shown(found), s, keeping::read_on(x, k, found)))
}

// R48, END of the page: raises the session by what the page gathered, which has no stamp of its own.
pub fn end(table: Table, s: SessionAt) -> Result<Decided, Reason>
    ensures { decided_of result ≡ answered (decode table.entry.bytes.now) (END s.number) }
{
    let mut x = lookup::opened(table, s)?;
    if !x.paged {
        return Err(Reason::NoPageOpen);
    }
    if !x.marks.all_read() {
        return Err(Reason::KeyUnread);
    }
    let gathered = x.gathered;
    let site = x.site;
    raising::raise(&mut x, gathered, site, 0);
    Ok(answers::kept(Answer::Done, s, keeping::ended(x)))
}
