// A site's part of the table, 13,056 bytes: 4 nodes, and for each partition 3 outgoing channels. Each function lends the node or the channel that it
// is about, itself: of what a function gives back as `&mut` no proof was found. In order: a node, a channel, and a message that goes to every other site.
ghost use Rattle.std.specs.Prelude.{◌≡◌, ◌≤◌, ◌<◌, length};
ghost use Rattle.record.specs.Meaning.{as_message};
ghost use Rattle.parts.specs.Node.{clock_set, published, received};
ghost use Rattle.parts.specs.Channel.{wait_in, pushed, popped};
ghost use Rattle.parts.specs.Room.{Room};
ghost use Rattle.table.specs.Parts.{node_of, channel_of, on_node, on_channel};
ghost use Rattle.table.specs.Put.{sent_to, published_on};
ghost use Rattle.table.specs.Free.{Free};

use crate::places;
use parts::{channels, nodes};
use record::Letter;

pub fn set_clock(site: &mut [u8], p: usize, t: u64)
    requires { (length site.old ≡ 13056) × (p < 4) }
    ensures { site.new ≡ on_node p (clock_set t) site.old }
{
    let off = places::node_at(p);
    nodes::set_clock(&mut site[off..off + places::NODE], t);
}

// The message is of the site's own node p, and m is the site's number.
fn publish_node(site: &mut [u8], m: usize, p: usize, x: Letter)
    requires { (length site.old ≡ 13056) × (m < 4) × (p < 4) × Room (as_message x) (node_of site.old p) }
    ensures { site.new ≡ on_node p (published m (as_message x)) site.old }
{
    let off = places::node_at(p);
    nodes::publish(&mut site[off..off + places::NODE], m, x);
}

// The message is of site i.
pub fn receive(site: &mut [u8], i: usize, p: usize, x: Letter)
    requires { (length site.old ≡ 13056) × (i < 4) × (p < 4) × Room (as_message x) (node_of site.old p) }
    ensures { site.new ≡ on_node p (received i (as_message x)) site.old }
{
    let off = places::node_at(p);
    nodes::receive(&mut site[off..off + places::NODE], i, x);
}

pub fn pop(site: &mut [u8], p: usize, d: usize)
    requires { (length site.old ≡ 13056) × (p < 4) × (d < 3) × (0 < wait_in (channel_of site.old p d)) }
    ensures { site.new ≡ on_channel p d popped site.old }
{
    let off = places::channel_at(p, d);
    channels::pop(&mut site[off..off + places::CHANNEL]);
}

fn push(site: &mut [u8], m: u8, p: usize, d: usize, x: Letter)
    requires { (length site.old ≡ 13056) × (p < 4) × (d < 3) × (wait_in (channel_of site.old p d) < 8) }
    ensures { site.new ≡ on_channel p d (pushed m (as_message x)) site.old }
{
    let off = places::channel_at(p, d);
    channels::push(&mut site[off..off + places::CHANNEL], m, x);
}

// A message of site m goes into the first n channels of partition p.
fn send(site: &mut [u8], n: usize, m: u8, p: usize, x: Letter)
    requires { (length site.old ≡ 13056) × (n ≤ 3) × (p < 4) × Free n p site.old }
    ensures { site.new ≡ sent_to n m p (as_message x) site.old }
{
    for d in 0..n {
        push(site, m, p, d, x);
    }
}

// Node p of site m makes a message, which goes to n other sites.
pub fn publish(site: &mut [u8], n: usize, m: usize, p: usize, x: Letter)
    requires { (length site.old ≡ 13056) × (n ≤ 3) × (m < 4) × (p < 4) × Room (as_message x) (node_of site.old p) × Free n p site.old }
    ensures { site.new ≡ published_on n m p (as_message x) site.old }
{
    publish_node(site, m, p, x);
    send(site, n, m as u8, p, x);
}
