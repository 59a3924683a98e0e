// A channel's 464 bytes, a ring of 8 places: the messages that wait stand behind the front, one after the other. In order: a place of the ring,
// reading, and the two changes.
ghost use Rattle.std.specs.Prelude.{◌≡◌, ◌+◌, ◌≤◌, ◌<◌, length};
ghost use Rattle.record.specs.RecordBytes.{message_at};
ghost use Rattle.record.specs.Meaning.{as_message};
ghost use Rattle.parts.specs.Channel.{front_in, wait_in, ring_at, pushed, popped};

use codec::Number;
use record::{Letter, bytes};

// Where the message k behind the front stands.
pub fn place(front: u8, k: u8) -> usize
    ensures { (result ≡ ring_at front k) × (result + 48 ≤ 464) }
{
    16 + 56 * ((front as usize + k as usize) % 8)
}

// How many messages wait.
pub fn waiting(c: &[u8]) -> u8
    requires { length c.now ≡ 464 }
    ensures { result ≡ wait_in c.now }
{
    u8::load(c, 1)
}

fn front(c: &[u8]) -> u8
    requires { length c.now ≡ 464 }
    ensures { result ≡ front_in c.now }
{
    u8::load(c, 0)
}

// The message in front, where one waits.
pub fn first(c: &[u8]) -> Letter
    requires { length c.now ≡ 464 }
    ensures { as_message result ≡ message_at c.now (ring_at (front_in c.now) 0) }
{
    bytes::load_message(c, place(front(c), 0))
}

// A message of site m goes behind the last.
pub fn push(c: &mut [u8], m: u8, x: Letter)
    requires { (length c.old ≡ 464) × (wait_in c.old < 8) }
    ensures { c.new ≡ pushed m (as_message x) c.old }
{
    let wait = waiting(c);
    let at = place(front(c), wait);
    bytes::store_message(c, at, m, x);
    (wait + 1).store(c, 1);
}

// The message in front leaves.
pub fn pop(c: &mut [u8])
    requires { (length c.old ≡ 464) × (0 < wait_in c.old) }
    ensures { c.new ≡ popped c.old }
{
    let wait = waiting(c);
    let next = (front(c) as usize + 1) % 8;
    (next as u8).store(c, 0);
    (wait - 1).store(c, 1);
}
