// 64 kept places beside those that the search finds.
ghost use Rattle.std.specs.Prelude.{◌≡◌, eqb, length};
ghost use Rattle.codec.specs.Le.{load};
ghost use Rattle.codec.specs.Below.{all_below};

use codec::Number;

// Whether 64 bytes are the same as 64 others: as eight words, each of which is compared.
// A loop: `==` of slices compares single bytes, and `all` has a branch at every word.
pub fn same_places(a: &[u8], b: &[u8]) -> bool
    requires { (length a.now ≡ 64) × (length b.now ≡ 64) }
    ensures { result ≡ all_below 64 (λ k. eqb (load 1 a.now k) (load 1 b.now k)) }
{
    let mut same = true;
    for i in 0..8 {
        same &= u64::load(a, 8 * i) == u64::load(b, 8 * i);
    }
    same
}
