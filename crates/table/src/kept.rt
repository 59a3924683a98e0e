// The kept places: a byte for each key at each node, which says where the node's newest record of the key stands, counted from 1, or that there is none.
// In order: one of them read, one of them kept when a record was stored, and when a message came.
ghost use Rattle.std.specs.Prelude.{◌≡◌, ◌≤◌, ◌<◌};
ghost use Rattle.codec.specs.Le.{load};
ghost use Rattle.record.specs.Meaning.{as_message};
ghost use Rattle.parts.specs.Node.{held_in};
ghost use Rattle.table.specs.Parts.{Whole, site_of, node_of, kept_of};
ghost use Rattle.table.specs.Noted.{noted, message_noted, Notable};

use crate::places;
use codec::Number;
use parts::nodes;
use protocol::limits::NodeAt;
use record::{Letter, Message};

// The kept place of key k at the node.
pub fn place(t: &[u8], node: NodeAt, k: usize) -> usize
    requires { Whole t.now × (k < 64) }
    ensures { result ≡ load 1 (kept_of t.now node.site node.partition) k }
{
    u8::load(places::kept(t, node), k) as usize
}

// The node's last record is of key k: it is compared with the kept one alone.
fn note(t: &mut [u8], node: NodeAt, k: usize)
    requires { Whole t.old × (k < 64) × (0 < held_in (node_of (site_of t.old node.site) node.partition)) × (held_in (node_of (site_of t.old node.site) node.partition) ≤ 32) × (load 1 (kept_of t.old node.site node.partition) k ≤ 32) }
    ensures { t.new ≡ noted node.site node.partition k t.old }
{
    let best = place(t, node, k);
    let n = places::node(t, node);
    let last = nodes::held(n) as usize - 1;
    let newest = search::later(n, last, best) as u8;
    let off = places::kept_at(node);
    newest.store(&mut t[off..off + places::KEPT], k);
}

// The message that the node made or took in.
pub fn note_message(t: &mut [u8], node: NodeAt, x: Letter)
    requires { Whole t.old × Notable node.site node.partition (as_message x) t.old }
    ensures { t.new ≡ message_noted node.site node.partition (as_message x) t.old }
{
    let message = x.message;
    match message {
        Message::Update(numbers) => {
            note(t, node, numbers.key as usize);
        }
        Message::Heartbeat { stamp: _ } => {}
    }
}
