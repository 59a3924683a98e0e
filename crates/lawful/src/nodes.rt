// A node's 1,856 bytes and its 64 kept places: clock and vector within the limits, records that are lawful, none where the node is absent, and the newest of
// each key kept. In order: how many there may be, the records, the node.
ghost use Rattle.std.specs.Prelude.{◌≡◌, cond, ◌&&◌, ◌≤◌, ◌<◌, length};
ghost use Rattle.codec.specs.Below.{all_below};
ghost use Rattle.protocol.specs.Meaning.{setting_of};
ghost use Rattle.record.specs.RecordFormed.{record_formed};
ghost use Rattle.parts.specs.Node.{slot_at, held_in};
ghost use Rattle.lawful.specs.WellFormed.{node_formed, kept_formed};

use crate::kept;
use codec::Number;
use protocol::limits::Setting;
use record::{formed, times};

// R24, R25: nodes and channels that do not exist hold nothing.
pub fn most(exists: bool, n: u8) -> u8
    ensures { (result ≡ cond exists n 0) × (result ≤ n) }
{
    if exists { n } else { 0 }
}

// The first `held` records, which are all, and the kept places s. One walk does both: `best` has for each key the place of the newest record so far.
fn records_formed(n: &[u8], s: &[u8], setting: Setting, p: u8, held: u8) -> bool
    requires { (length n.now ≡ 1856) × (length s.now ≡ 64) × (held ≤ 32) × (held ≡ held_in n.now) }
    ensures { result ≡ (all_below held (λ k. record_formed (setting_of setting) p n.now (slot_at k)) && kept_formed (setting_of setting) n.now s.now) }
{
    let mut best = [0u8; 64];
    // k is a byte: counted as a usize the check of a full table is slower by a tenth.
    for k in 0..held {
        let slot = k as usize;
        if !formed::record_formed(n, 64 + 56 * slot, setting, p) {
            return false;
        }
        let key = u8::load(n, 64 + 56 * slot) as usize;
        best[key] = search::later(n, slot, best[key] as usize) as u8;
    }
    kept::same_places(s, &best)
}

// The node n of site m and partition p, and its kept places s.
pub fn node_formed(n: &[u8], s: &[u8], setting: Setting, m: u8, p: u8) -> bool
    requires { (length n.now ≡ 1856) × (length s.now ≡ 64) }
    ensures { result ≡ (node_formed (setting_of setting) m p n.now && kept_formed (setting_of setting) n.now s.now) }
{
    let held = parts::nodes::held(n);
    if most((m < setting.sites) & (p < setting.partitions), 32) < held {
        return false;
    }
    if !times::time_lawful(parts::nodes::clock(n)) {
        return false;
    }
    if !times::vector_formed(n, 8, setting) {
        return false;
    }
    records_formed(n, s, setting, p, held)
}
