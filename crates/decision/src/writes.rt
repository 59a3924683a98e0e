// The decisions of the four events that write to nodes: CLOCK, BEAT, PUT and DELIVER. In order: room, and an event each.
ghost use Rattle.std.specs.Prelude.{◌≡◌, ◌-◌, ◌≤◌, ◌<◌, max, ltb};
ghost use Rattle.codec.specs.Le.{load};
ghost use Rattle.codec.specs.Below.{all_below};
ghost use Rattle.vector.specs.Vec.{largest};
ghost use Rattle.vector.specs.Entries.{entry};
ghost use Rattle.vector.specs.Meaning.{as_vec};
ghost use Rattle.protocol.specs.Event.{CLOCK, BEAT, PUT, DELIVER};
ghost use Rattle.parts.specs.Node.{heard_in, held_in};
ghost use Rattle.parts.specs.Channel.{wait_in};
ghost use Rattle.table.specs.Parts.{site_of, node_of, channel_of};
ghost use Rattle.table.specs.Decode.{decode};
ghost use Rattle.outcome.specs.Decided.{decided_of};
ghost use Rattle.decision.specs.Answered.{answered};

use crate::lookup;
use codec::Number;
use lawful::Table;
use outcome::{Decided, Effect, answers};
use parts::{channels, nodes};
use protocol::Reason;
use protocol::limits::{NodeAt, SessionAt};
use table::places;
use vector::Vector;

// What the node has heard of its own site: its latest stamp.
fn own(table: Table, node: NodeAt) -> u64
    ensures { result ≡ heard_in (node_of (site_of table.entry.bytes.now node.site) node.partition) node.site }
{
    let heard = lookup::heard(table, node).entries;
    heard[node.site as usize]
}

// Whether the node holds fewer than 32 records.
fn has_slot(table: Table, node: NodeAt) -> bool
    ensures { result ≡ ltb (held_in (node_of (site_of table.entry.bytes.now node.site) node.partition)) 32 }
{
    nodes::held(places::node(table.bytes, node)) < 32
}

// Whether each outgoing channel of the node holds fewer than 8 messages.
fn has_room(table: Table, node: NodeAt) -> bool
    ensures { result ≡ all_below (load 1 table.entry.bytes.now 0 - 1) (λ d. ltb (wait_in (channel_of (site_of table.entry.bytes.now node.site) node.partition d)) 8) }
{
    let n = u8::load(table.bytes, 0) as usize - 1;
    let mut all = true;
    for d in 0..n {
        all &= channels::waiting(places::channel(table.bytes, node, d)) < 8;
    }
    all
}

// R43: an equal time is done.
pub fn clock(table: Table, node: NodeAt, time: u64) -> Result<Decided, Reason>
    requires { (node.site < load 1 table.bytes.now 0) × (node.partition < load 1 table.bytes.now 1) }
    ensures { decided_of result ≡ answered (decode table.entry.bytes.now) (CLOCK node.site node.partition time) }
{
    if time < nodes::clock(places::node(table.bytes, node)) {
        return Err(Reason::TimeBeforeClock);
    }
    Ok(answers::done(Effect::Clock { node, time }))
}

// R49: where the clock is not greater than its own entry nothing is sent, and no room is asked for.
pub fn beat(table: Table, node: NodeAt) -> Result<Decided, Reason>
    requires { (node.site < load 1 table.bytes.now 0) × (node.partition < load 1 table.bytes.now 1) }
    ensures { decided_of result ≡ answered (decode table.entry.bytes.now) (BEAT node.site node.partition) }
{
    let stamp = nodes::clock(places::node(table.bytes, node));
    if stamp <= own(table, node) {
        return Ok(answers::done(Effect::Nothing));
    }
    if !has_room(table, node) {
        return Err(Reason::ChannelFull);
    }
    Ok(answers::done(Effect::Beat { node, stamp }))
}

// R45: the stamp that the clock of the node must pass, for a session with vector v: the largest of v's entries and the node's own entry.
fn to_pass(table: Table, node: NodeAt, v: Vector) -> u64
    ensures { result ≡ max (largest (as_vec v)) (heard_in (node_of (site_of table.entry.bytes.now node.site) node.partition) node.site) }
{
    let seen = v.largest();
    let latest = own(table, node);
    vector::later(seen, latest)
}

pub fn put(table: Table, s: SessionAt, key: u8, quality: u8, level: i32) -> Result<Decided, Reason>
    ensures { decided_of result ≡ answered (decode table.entry.bytes.now) (PUT s.number key quality level) }
{
    let x = lookup::opened(table, s)?;
    if x.paged {
        return Err(Reason::PageOpen);
    }
    let node = lookup::node_of(table, x.site, key);
    if !has_slot(table, node) {
        return Err(Reason::NodeFull);
    }
    if !has_room(table, node) {
        return Err(Reason::ChannelFull);
    }
    let pass = to_pass(table, node, x.vec);
    let stamp = nodes::clock(places::node(table.bytes, node));
    if stamp <= pass {
        return Err(Reason::Wait {
            site: x.site,
            stamp: pass,
        });
    }
    Ok(answers::stored(s, x, node, key, quality, level, stamp))
}

pub fn deliver(table: Table, i: u8, node: NodeAt) -> Result<Decided, Reason>
    requires { (i < load 1 table.bytes.now 0) × (node.site < load 1 table.bytes.now 0) × (i ≡ node.site → ⊥) × (node.partition < load 1 table.bytes.now 1) }
    ensures { decided_of result ≡ answered (decode table.entry.bytes.now) (DELIVER i node.site node.partition) }
{
    let sender = NodeAt {
        site: i,
        partition: node.partition,
    };
    let d = table::place_of(i as usize, node.site as usize);
    let c = places::channel(table.bytes, sender, d);
    if channels::waiting(c) == 0 {
        return Err(Reason::ChannelEmpty);
    }
    let x = channels::first(c);
    if x.is_update() & !has_slot(table, node) {
        return Err(Reason::NodeFull);
    }
    Ok(answers::taken(i, node, x))
}
