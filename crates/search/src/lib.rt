// The search for the newest record of a node that fits a page. In order: whether a record fits, one more record beside the best so far, all, what stands at
// a place, and what is found. A place is counted from 1, and 0 is none. Nothing of a record is read but what these tests ask.

#![tactic(auto)]

ghost use Rattle.std.specs.Prelude.{◌≡◌, ℕ, ◌+◌, ◌*◌, ◌-◌, ◌≤◌, ◌<◌, length};
ghost use Rattle.protocol.specs.Record.{Setting, newest};
ghost use Rattle.protocol.specs.Search.{later_place, better_place, newest_place, placed};
ghost use Rattle.record.specs.RecordBytes.{record_at};
ghost use Rattle.parts.specs.Node.{slot_at, held_in, store_in};
ghost use Rattle.search.specs.Found.{fits, found_of, Sited};

use codec::Number;
use parts::nodes;
use record::{Record, bytes};
use vector::Vector;

// What a page asks of a record: its key, and that it carries no more than the page's vector.
#[derive(Clone, Copy)]
pub struct Wanted {
    pub key: u8,
    pub snapshot: Vector,
}

// Whether the record at `at` is one that the page wants. The key is compared first: it is one byte.
fn is_candidate(n: &[u8], at: usize, w: Wanted) -> bool
    requires { at + 48 ≤ length n.now }
    ensures { result ≡ fits w (record_at n.now at) }
{
    if u8::load(n, at) != w.key {
        return false;
    }
    vector::load_vector(n, at + 16).at_most(w.snapshot)
}

// The record in slot k, which fits, beside the best so far, where their stamps are equal: the greater source is newer (R35), and of two alike the one that
// was stored first (R36). The record at a place stands 56 times the place from byte 8; of place 0 what is compared does not matter.
fn by_source(n: &[u8], k: usize, best: usize) -> usize
    requires { (length n.now ≡ 1856) × (k < 32) × (best ≤ 32) × ((record_at n.now (8 + 56 * best)).id.stamp ≡ (record_at n.now (slot_at k)).id.stamp) }
    ensures { ((c : Setting) → result ≡ later_place c (λ i. record_at n.now (slot_at i)) k best) × (result ≤ 32) }
{
    let than = u8::load(n, 8 + 56 * best + 1);
    let source = u8::load(n, 64 + 56 * k + 1);
    if (best == 0) | (than < source) {
        k + 1
    } else {
        best
    }
}

// The record in slot k, which fits, beside the best so far. Equal stamps are seldom, so a processor guesses that test right; which of two stamps is greater it
// would guess wrong every other time, so both tests are made.
pub fn later(n: &[u8], k: usize, best: usize) -> usize
    requires { (length n.now ≡ 1856) × (k < 32) × (best ≤ 32) }
    ensures { ((c : Setting) → result ≡ later_place c (λ i. record_at n.now (slot_at i)) k best) × (result ≤ 32) }
{
    let than = u64::load(n, 8 + 56 * best + 8);
    let stamp = u64::load(n, 64 + 56 * k + 8);
    if than == stamp {
        return by_source(n, k, best);
    }
    if (best == 0) | (than < stamp) {
        k + 1
    } else {
        best
    }
}

// The record in slot k, which fits or not, beside the best of those before it.
fn better(n: &[u8], k: usize, best: usize, w: Wanted) -> usize
    requires { (length n.now ≡ 1856) × (k < 32) × (best ≤ k) }
    ensures { (c : Setting) → result ≡ better_place c (fits w) (λ i. record_at n.now (slot_at i)) k best }
{
    if !is_candidate(n, 64 + 56 * k, w) {
        return best;
    }
    later(n, k, best)
}

// The place of the newest of the first `held` records of a node that fits.
fn newest_place(n: &[u8], held: usize, w: Wanted) -> usize
    requires { (length n.now ≡ 1856) × (held ≤ 32) }
    ensures { (result ≤ held) × ((c : Setting) → result ≡ newest_place c (fits w) (λ k. record_at n.now (slot_at k)) held) }
{
    let mut best = 0;
    for k in 0..held {
        best = better(n, k, best, w);
    }
    best
}

// What stands at a place, which is nothing at 0: the byte that the table keeps.
pub fn found_at(n: &[u8], place: usize) -> Option<Record>
    requires { (length n.now ≡ 1856) × (place ≤ 32) × (0 < place → (record_at n.now (slot_at (place - 1))).id.source < 4) }
    ensures { (found_of result ≡ placed (λ i. record_at n.now (slot_at i)) place) × Sited result }
{
    if place == 0 {
        return None;
    }
    Some(bytes::load_record(n, 64 + 56 * (place - 1)))
}

// The newest record of a node that fits.
pub fn newest(n: &[u8], w: Wanted) -> Option<Record>
    requires { (length n.now ≡ 1856) × (held_in n.now ≤ 32) × ((k : ℕ) → k < held_in n.now → (record_at n.now (slot_at k)).id.source < 4) }
    ensures { ((c : Setting) → found_of result ≡ newest c (fits w) (store_in n.now)) × Sited result }
{
    let held = nodes::held(n) as usize;
    found_at(n, newest_place(n, held, w))
}
