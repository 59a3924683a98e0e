// A node's 1,856 bytes: its clock, what it has heard and its records. In order: reading, one more record, and the changes.
ghost use Rattle.std.specs.Prelude.{◌≡◌, ◌+◌, ◌<◌, length};
ghost use Rattle.codec.specs.Le.{put};
ghost use Rattle.vector.specs.Entries.{entry};
ghost use Rattle.vector.specs.Meaning.{as_vec};
ghost use Rattle.record.specs.RecordBytes.{put_message};
ghost use Rattle.record.specs.Meaning.{as_message};
ghost use Rattle.parts.specs.Node.{clock_in, heard_in, held_in, slot_at, clock_set, stored, published, received};
ghost use Rattle.parts.specs.Room.{Room};

use codec::Number;
use record::{Letter, Message, bytes};
use vector::Vector;

pub fn clock(n: &[u8]) -> u64
    requires { length n.now ≡ 1856 }
    ensures { result ≡ clock_in n.now }
{
    u64::load(n, 0)
}

pub fn heard(n: &[u8]) -> Vector
    requires { length n.now ≡ 1856 }
    ensures { as_vec result ≡ heard_in n.now }
{
    vector::load_vector(n, 8)
}

// How many records it holds.
pub fn held(n: &[u8]) -> u8
    requires { length n.now ≡ 1856 }
    ensures { result ≡ held_in n.now }
{
    u8::load(n, 40)
}

pub fn set_clock(n: &mut [u8], t: u64)
    requires { length n.old ≡ 1856 }
    ensures { n.new ≡ clock_set t n.old }
{
    t.store(n, 0);
}

// An update goes behind the other records. It says itself whose it is, so the site that sends it is not asked.
fn add(n: &mut [u8], x: Letter)
    requires { (length n.old ≡ 1856) × (held_in n.old < 32) }
    ensures { n.new ≡ put 1 (put_message n.old (slot_at (held_in n.old)) 0 (as_message x)) 40 (held_in n.old + 1) }
{
    let k = held(n);
    bytes::store_message(n, 64 + 56 * (k as usize), 0, x);
    (k + 1).store(n, 40);
}

// A heartbeat changes nothing.
pub fn store(n: &mut [u8], x: Letter)
    requires { (length n.old ≡ 1856) × Room (as_message x) n.old }
    ensures { n.new ≡ stored (as_message x) n.old }
{
    let message = x.message;
    match message {
        Message::Update(_) => {
            add(n, x);
        }
        Message::Heartbeat { stamp: _ } => {}
    }
}

// The message is of site m, the node's own.
pub fn publish(n: &mut [u8], m: usize, x: Letter)
    requires { (length n.old ≡ 1856) × (m < 4) × Room (as_message x) n.old }
    ensures { n.new ≡ published m (as_message x) n.old }
{
    x.stamp().store(n, 8 + 8 * m);
    store(n, x);
}

// The message is of another site, i.
pub fn receive(n: &mut [u8], i: usize, x: Letter)
    requires { (length n.old ≡ 1856) × (i < 4) × Room (as_message x) n.old }
    ensures { n.new ≡ received i (as_message x) n.old }
{
    let at = 8 + 8 * i;
    let heard = u64::load(n, at);
    vector::later(heard, x.stamp()).store(n, at);
    store(n, x);
}
