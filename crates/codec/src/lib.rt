// The numbers of a table and an event: little-endian, of 1, 4 and 8 bytes, and signed levels of 4. Reads and writes only the bytes named.
// In order: a number of any width, the three types that are used, eight bytes, levels.

#![tactic(auto)]

ghost use Rattle.std.specs.Prelude.{ℕ, ◌≡◌, ◌+◌, ◌≤◌, ◌<◌, length};
ghost use Rattle.codec.specs.Le.{load, put};
ghost use Rattle.codec.specs.Tabulate.{tabulate};
ghost use Rattle.codec.specs.Level.{level_from, bits_of};

use std::array;

// The number in the n bytes at `at`: the highest byte first, so that what is read is scaled once a turn.
pub fn load_le(t: &[u8], at: usize, n: usize) -> u64
    requires { (at + n ≤ length t.now) × (n ≤ 8) }
    ensures { result ≡ load n t.now at }
{
    let mut r: u64 = 0;
    for i in (0..n).rev() {
        r = u64::from(t[at + i]) + 256 * r;
    }
    r
}

// The low n bytes of x go to `at`.
pub fn store_le(t: &mut [u8], at: usize, n: usize, x: u64)
    requires { at + n ≤ length t.old }
    ensures { t.new ≡ put n t.old at x }
{
    let mut y = x;
    for i in 0..n {
        t[at + i] = (y % 256) as u8;
        y /= 256;
    }
}

// An unsigned number that stands in bytes, and its width.
pub trait Number: Copy {
    ghost width: { ℕ };

    ghost value: { Self → ℕ };

    fn load(t: &[u8], at: usize) -> Self
        requires { at + width ≤ length t.now }
        ensures { value result ≡ load width t.now at };

    fn store(self, t: &mut [u8], at: usize)
        requires { at + width ≤ length t.old }
        ensures { t.new ≡ put width t.old at (value self) };
}

impl Number for u8 {
    ghost width = { 1 };

    ghost value = { λ x. x };

    fn load(t: &[u8], at: usize) -> u8 {
        t[at]
    }

    fn store(self, t: &mut [u8], at: usize) {
        t[at] = self;
    }
}

impl Number for u32 {
    ghost width = { 4 };

    ghost value = { λ x. x };

    fn load(t: &[u8], at: usize) -> u32 {
        load_le(t, at, 4) as u32
    }

    fn store(self, t: &mut [u8], at: usize) {
        store_le(t, at, 4, u64::from(self));
    }
}

impl Number for u64 {
    ghost width = { 8 };

    ghost value = { λ x. x };

    fn load(t: &[u8], at: usize) -> u64 {
        load_le(t, at, 8)
    }

    fn store(self, t: &mut [u8], at: usize) {
        store_le(t, at, 8, self);
    }
}

// The eight bytes from `at`, each a number.
pub fn load_eight(t: &[u8], at: usize) -> [u8; 8]
    requires { at + 8 ≤ length t.now }
    ensures { result ≡ tabulate 8 (λ i. load 1 t.now (at + i)) }
{
    array::from_fn(|i| u8::load(t, at + i))
}

// A level is in two's complement, which is another law than `Number`'s.
pub fn load_level(t: &[u8], at: usize) -> i32
    requires { at + 4 ≤ length t.now }
    ensures { result ≡ level_from (load 4 t.now at) }
{
    u32::load(t, at).cast_signed()
}

pub fn store_level(t: &mut [u8], at: usize, x: i32)
    requires { at + 4 ≤ length t.old }
    ensures { t.new ≡ put 4 t.old at (bits_of x) }
{
    x.cast_unsigned().store(t, at)
}
