// The whole table's bytes. `places` says where each part stands, and lends it for reading; `sites` has the changes of a site's part, and `kept` the kept
// places. Here are the setup's constants as they are read, and the protocol's four changes, each of which lends the part that it changes: a session's, or a
// site's, which starts in the table's middle; where a node may have stored a record, its kept place follows.

#![tactic(auto)]

ghost use Rattle.std.specs.Prelude.{◌≡◌, ◌-◌, ◌<◌, ◌≤◌};
ghost use Rattle.protocol.specs.Meaning.{setting_of};
ghost use Rattle.protocol.specs.Change.{SetSession, SetClock, Publish, Receive};
ghost use Rattle.record.specs.Meaning.{as_message};
ghost use Rattle.parts.specs.Node.{received};
ghost use Rattle.parts.specs.Channel.{wait_in, popped};
ghost use Rattle.parts.specs.Room.{Room};
ghost use Rattle.parts.specs.Meaning.{as_session};
ghost use Rattle.table.specs.Parts.{Long, place_of, site_of, node_of, channel_of, on_site, on_node, on_channel};
ghost use Rattle.table.specs.Decode.{setting_in};
ghost use Rattle.table.specs.Put.{put_change};
ghost use Rattle.table.specs.Fits.{FitsPublish, FitsReceive};

use codec::Number;
use parts::{Session, sessions};
use protocol::limits::{NodeAt, SessionAt, Setting};
use record::Letter;

pub mod kept;
pub mod places;
pub mod sites;

// The place of site m among the sites other than i: the number of i's channel to m.
pub fn place_of(i: usize, m: usize) -> usize
    requires { (i < 4) × (m < 4) × (i ≡ m → ⊥) }
    ensures { (result ≡ place_of i m) × (result < 3) }
{
    if m < i { m } else { m - 1 }
}

// Bytes 0 and 1.
pub fn setting(t: &[u8]) -> Setting
    requires { Long t.now }
    ensures { setting_of result ≡ setting_in t.now }
{
    Setting {
        sites: u8::load(t, 0),
        partitions: u8::load(t, 1),
    }
}

pub fn set_session(t: &mut [u8], session: SessionAt, x: Session)
    requires { Long t.old × (x.marks.page.count ≤ 8) }
    ensures { t.new ≡ put_change (SetSession session.number (as_session x)) t.old }
{
    let off = places::session_at(session.number as usize);
    sessions::store(&mut t[off..off + places::SESSION], x);
}

pub fn set_clock(t: &mut [u8], node: NodeAt, time: u64)
    requires { Long t.old }
    ensures { t.new ≡ put_change (SetClock node.site node.partition time) t.old }
{
    let off = places::site_at(node.site as usize);
    sites::set_clock(
        &mut t[off..off + places::SITE],
        node.partition as usize,
        time,
    );
}

// The node makes a message.
pub fn publish(t: &mut [u8], node: NodeAt, x: Letter)
    requires { FitsPublish node.site node.partition (as_message x) t.old }
    ensures { t.new ≡ put_change (Publish node.site node.partition (as_message x)) t.old }
{
    let m = node.site as usize;
    let p = node.partition as usize;
    let n = u8::load(t, 0) as usize - 1;
    let off = places::site_at(m);
    sites::publish(&mut t[off..off + places::SITE], n, m, p, x);
    kept::note_message(t, node, x);
}

// The node takes a message of site i in.
fn take_in(t: &mut [u8], i: usize, node: NodeAt, x: Letter)
    requires { Long t.old × (i < 4) × Room (as_message x) (node_of (site_of t.old node.site) node.partition) }
    ensures { t.new ≡ on_site node.site (on_node node.partition (received i (as_message x))) t.old }
{
    let off = places::site_at(node.site as usize);
    sites::receive(
        &mut t[off..off + places::SITE],
        i,
        node.partition as usize,
        x,
    );
}

// The message in front leaves channel d of site i at partition p.
fn take_off(t: &mut [u8], i: usize, p: usize, d: usize)
    requires { Long t.old × (i < 4) × (p < 4) × (d < 3) × (0 < wait_in (channel_of (site_of t.old i) p d)) }
    ensures { t.new ≡ on_site i (on_channel p d popped) t.old }
{
    let off = places::site_at(i);
    sites::pop(&mut t[off..off + places::SITE], p, d);
}

// The node takes the message off the front of the channel from site i.
pub fn receive(t: &mut [u8], i: usize, node: NodeAt, x: Letter)
    requires { FitsReceive i node.site node.partition (as_message x) t.old }
    ensures { t.new ≡ put_change (Receive i node.site node.partition (as_message x)) t.old }
{
    let d = place_of(i, node.site as usize);
    take_in(t, i, node, x);
    take_off(t, i, node.partition as usize, d);
    kept::note_message(t, node, x);
}
