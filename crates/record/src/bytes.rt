// R17: a record and a message at a place of the bytes, read and written.
// In order: reading, writing.
ghost use Rattle.std.specs.Prelude.{◌≡◌, ◌+◌, ◌≤◌, length};
ghost use Rattle.record.specs.RecordBytes.{record_at, message_at, put_record, put_message};
ghost use Rattle.record.specs.Meaning.{record_of, as_record, as_message};

use crate::{Letter, Message, Numbers, Record};
use codec::Number;
use vector::Vector;

// A record's kind byte: an update, which every stored record is, or a heartbeat.
pub(crate) const UPDATE: u8 = 1;

pub(crate) const HEARTBEAT: u8 = 2;

pub fn load_record(b: &[u8], at: usize) -> Record
    requires { at + 48 ≤ length b.now }
    ensures { as_record result ≡ record_at b.now at }
{
    let key = u8::load(b, at);
    let source = u8::load(b, at + 1);
    let quality = u8::load(b, at + 2);
    let level = codec::load_level(b, at + 4);
    let stamp = u64::load(b, at + 8);
    let carried = vector::load_vector(b, at + 16);
    let numbers = Numbers {
        key,
        source,
        quality,
        level,
        stamp,
    };
    Record { numbers, carried }
}

// What is no update is read as a heartbeat.
pub fn load_message(b: &[u8], at: usize) -> Letter
    requires { at + 48 ≤ length b.now }
    ensures { as_message result ≡ message_at b.now at }
{
    if u8::load(b, at + 3) == UPDATE {
        let r = load_record(b, at);
        let numbers = r.numbers;
        let message = Message::Update(numbers);
        let carried = r.carried;
        Letter { message, carried }
    } else {
        let message = Message::Heartbeat {
            stamp: u64::load(b, at + 8),
        };
        Letter {
            message,
            carried: Vector::ZERO,
        }
    }
}

// The seven fields, in the order of their places.
fn store_fields(b: &mut [u8], at: usize, kind: u8, r: Numbers, carried: Vector)
    requires { at + 48 ≤ length b.old }
    ensures { b.new ≡ put_record b.old at kind (record_of r carried) }
{
    r.key.store(b, at);
    r.source.store(b, at + 1);
    r.quality.store(b, at + 2);
    kind.store(b, at + 3);
    codec::store_level(b, at + 4, r.level);
    r.stamp.store(b, at + 8);
    vector::store_vector(b, at + 16, carried);
}

// A heartbeat has key, quality, level and vector zero; its source is the site m that sends it.
pub fn store_message(b: &mut [u8], at: usize, m: u8, x: Letter)
    requires { at + 48 ≤ length b.old }
    ensures { b.new ≡ put_message b.old at m (as_message x) }
{
    let message = x.message;
    match message {
        Message::Update(r) => {
            store_fields(b, at, UPDATE, r, x.carried);
        }
        Message::Heartbeat { stamp } => {
            let r = Numbers {
                key: 0,
                source: m,
                quality: 0,
                level: 0,
                stamp,
            };
            store_fields(b, at, HEARTBEAT, r, Vector::ZERO);
        }
    }
}
