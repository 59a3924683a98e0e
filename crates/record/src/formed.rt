// R26 and R27: when a record and a message in use are well formed. In order: a record's fields, a record of a partition, a stored
// record, an update, a heartbeat, a message.
ghost use Rattle.std.specs.Prelude.{◌≡◌, ◌+◌, ◌≤◌, ◌<◌, length};
ghost use Rattle.protocol.specs.Record.{Update};
ghost use Rattle.protocol.specs.Meaning.{setting_of};
ghost use Rattle.record.specs.RecordBytes.{record_at};
ghost use Rattle.record.specs.Ranges.{record_in_range, record_lawful, message_lawful};
ghost use Rattle.record.specs.RecordFormed.{record_formed, heartbeat_formed, message_formed};

use crate::bytes::UPDATE;
use crate::times;
use codec::Number;
use protocol::limits;
use protocol::limits::Setting;

// Qualities are below this number (R7).
const QUALITIES: u8 = 3;
// The kinds are an update and, the last, a heartbeat (R17).
const LAST_KIND: u8 = 2;

// The fields of the record at `at`. Each is loaded where it is tested, so that a lawful one costs one comparison.
pub fn record_in_range(b: &[u8], at: usize, setting: Setting) -> bool
    requires { at + 48 ≤ length b.now }
    ensures { result ≡ record_in_range (setting_of setting) (record_at b.now at) }
{
    if 64 <= u8::load(b, at) {
        return false;
    }
    if setting.sites <= u8::load(b, at + 1) {
        return false;
    }
    if QUALITIES <= u8::load(b, at + 2) {
        return false;
    }
    if !limits::level_lawful(codec::load_level(b, at + 4)) {
        return false;
    }
    if !times::stamp_lawful(u64::load(b, at + 8), setting) {
        return false;
    }
    times::vector_formed(b, at + 16, setting)
}

// The record at `at`, of partition p.
pub fn record_lawful(b: &[u8], at: usize, setting: Setting, p: u8) -> bool
    requires { at + 48 ≤ length b.now }
    ensures { result ≡ record_lawful (setting_of setting) p (record_at b.now at) }
{
    if limits::partition_of(u8::load(b, at), setting.partitions) != p {
        return false;
    }
    record_in_range(b, at, setting)
}

// A stored record is an update.
pub fn record_formed(n: &[u8], at: usize, setting: Setting, p: u8) -> bool
    requires { at + 48 ≤ length n.now }
    ensures { result ≡ record_formed (setting_of setting) p n.now at }
{
    if u8::load(n, at + 3) != UPDATE {
        return false;
    }
    record_lawful(n, at, setting, p)
}

// What stands at `at`, as an update of site i.
fn update_formed(b: &[u8], at: usize, setting: Setting, i: u8, p: u8) -> bool
    requires { at + 48 ≤ length b.now }
    ensures { result ≡ message_lawful (setting_of setting) i p (Update (record_at b.now at)) }
{
    if u8::load(b, at + 1) != i {
        return false;
    }
    record_lawful(b, at, setting, p)
}

// R27: a heartbeat's zeros. Wide numbers are compared with the key, which is 0: with a plain 0 they would be
// compared byte by byte.
fn heartbeat_formed(b: &[u8], at: usize, i: u8) -> bool
    requires { at + 48 ≤ length b.now }
    ensures { result ≡ heartbeat_formed i b.now at }
{
    let key = u8::load(b, at);
    let source = u8::load(b, at + 1);
    let quality = u8::load(b, at + 2);
    let level = u32::load(b, at + 4);
    (key == 0)
        & ((source == i)
            & ((quality == 0)
                & ((level <= key as u32) & times::none_above(b, at + 16, key as u64))))
}

// A message of the channel from site i at partition p: an update or a heartbeat, by its kind.
pub fn message_formed(b: &[u8], at: usize, setting: Setting, i: u8, p: u8) -> bool
    requires { at + 48 ≤ length b.now }
    ensures { result ≡ message_formed (setting_of setting) i p b.now at }
{
    let kind = u8::load(b, at + 3);
    if kind == UPDATE {
        return update_formed(b, at, setting, i, p);
    }
    if kind != LAST_KIND {
        return false;
    }
    heartbeat_formed(b, at, i) & times::stamp_lawful(u64::load(b, at + 8), setting)
}
