// R22. In order: a key among n bytes; n bytes as different keys in range; the keys of a session's page.
ghost use Rattle.std.specs.Prelude.{◌≡◌, not, ◌&&◌, ◌||◌, [], ◌∷◌, ◌+◌, ◌≤◌, ltb, eqb, length};
ghost use Rattle.codec.specs.Le.{load};
ghost use Rattle.codec.specs.Tabulate.{tabulate};
ghost use Rattle.codec.specs.Lists.{has};
ghost use Rattle.codec.specs.Tests.{every};
ghost use Rattle.protocol.specs.Needs.{keys_lawful, distinct};

use codec::Number;

// The key k is one of the n from `at`.
fn holds_key(b: &[u8], at: usize, n: usize, k: u8) -> bool
    requires { at + n ≤ length b.now }
    ensures { result ≡ has (tabulate n (λ i. load 1 b.now (at + i))) k }
{
    (0..n).any(|i| u8::load(b, at + i) == k)
}

// The n keys from `at` are 0 to 63 and differ: none is one of those before it. A loop: with `all` it is not unrolled, and slower.
fn keys_formed(b: &[u8], at: usize, n: usize) -> bool
    requires { at + n ≤ length b.now }
    ensures { result ≡ (keys_lawful (tabulate n (λ i. load 1 b.now (at + i))) && distinct (tabulate n (λ i. load 1 b.now (at + i)))) }
{
    for i in 0..n {
        let k = u8::load(b, at + i);
        if 64 <= k {
            return false;
        }
        if holds_key(b, at, i, k) {
            return false;
        }
    }
    true
}

// The keys of a session's page, of which `count` are in use, where the page is open.
pub fn page_keys(b: &[u8], count: u8) -> bool
    requires { (length b.now ≡ 128) × (count ≤ 8) }
    ensures { result ≡ (not (eqb (load 1 b.now 2) 1) || every (ltb 0 count ∷ keys_lawful (tabulate count (λ i. load 1 b.now (8 + i))) ∷ distinct (tabulate count (λ i. load 1 b.now (8 + i))) ∷ [])) }
{
    if u8::load(b, 2) != 1 {
        return true;
    }
    if count == 0 {
        return false;
    }
    keys_formed(b, 8, count as usize)
}
