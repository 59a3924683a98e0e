// R23: clocks, stamps and vectors. In order: a time, a stamp, an entry and its limit, a vector
// by value and in bytes, and one without an entry above a number.
ghost use Rattle.std.specs.Prelude.{◌≡◌, cond, ◌+◌, ◌≤◌, ltb, leb, eqb, length};
ghost use Rattle.codec.specs.Below.{all_below};
ghost use Rattle.vector.specs.Vec.{width};
ghost use Rattle.vector.specs.Entries.{entry, load_vec};
ghost use Rattle.vector.specs.Meaning.{as_vec};
ghost use Rattle.protocol.specs.Times.{top_of};
ghost use Rattle.protocol.specs.Meaning.{setting_of};
ghost use Rattle.record.specs.Ranges.{time_lawful, stamp_lawful, vec_lawful};

use codec::Number;
use protocol::limits;
use protocol::limits::Setting;
use vector::Vector;

pub fn time_lawful(x: u64) -> bool
    ensures { result ≡ time_lawful x }
{
    x < limits::TIMES
}

// Every setting has the same limit.
pub fn stamp_lawful(x: u64, setting: Setting) -> bool
    ensures { result ≡ stamp_lawful (setting_of setting) x }
{
    x < limits::TIMES
}

// How many numbers an entry of site i may be: of an absent site just 0.
fn entry_limit(i: usize, setting: Setting) -> u64
    ensures { result ≡ cond (ltb i setting.sites) (top_of (setting_of setting)) 1 }
{
    if i < setting.sites as usize {
        limits::TIMES
    } else {
        1
    }
}

// The entry x of site i. One comparison for both kinds of site, so that eight bytes are loaded as one number.
fn entry_lawful(x: u64, i: usize, setting: Setting) -> bool
    ensures { result ≡ cond (ltb i setting.sites) (stamp_lawful (setting_of setting) x) (eqb x 0) }
{
    x < entry_limit(i, setting)
}

fn vector_lawful(v: Vector, setting: Setting) -> bool
    ensures { result ≡ vec_lawful (setting_of setting) (as_vec v) }
{
    (0..Vector::WIDTH).all(|i| entry_lawful(v.entries[i], i, setting))
}

// The vector at `at`.
pub fn vector_formed(b: &[u8], at: usize, setting: Setting) -> bool
    requires { at + 32 ≤ length b.now }
    ensures { result ≡ vec_lawful (setting_of setting) (load_vec b.now at) }
{
    vector_lawful(vector::load_vector(b, at), setting)
}

// No entry of the vector at `at` is above x.
pub fn none_above(b: &[u8], at: usize, x: u64) -> bool
    requires { at + 32 ≤ length b.now }
    ensures { result ≡ all_below width (λ i. leb (load_vec b.now at i) x) }
{
    (0..Vector::WIDTH).all(|i| u64::load(b, at + 8 * i) <= x)
}
