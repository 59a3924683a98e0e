// A session's 128 bytes: flags and marks, its site, its vector, its page. In order: flags, the page, the site, the session.
ghost use Rattle.std.specs.Prelude.{◌≡◌, not, ◌||◌, ◌+◌, ◌≤◌, ltb, eqb, length};
ghost use Rattle.codec.specs.Le.{load};
ghost use Rattle.protocol.specs.Meaning.{setting_of};
ghost use Rattle.parts.specs.Session.{session_in};
ghost use Rattle.lawful.specs.LawfulValues.{page_lawful};
ghost use Rattle.lawful.specs.WellFormed.{flags_at, session_formed};

use crate::pages;
use codec::Number;
use protocol::limits::Setting;
use record::times;

// A flag or a mark is below this number (R21).
const FLAGS: u8 = 2;

// R21: the n flags or marks from `at` are 0 or 1.
fn flags_formed(b: &[u8], at: usize, n: usize) -> bool
    requires { at + n ≤ length b.now }
    ensures { result ≡ flags_at b.now at n }
{
    (0..n).all(|i| u8::load(b, at + i) < FLAGS)
}

// The keys of a page that is not open are not looked at.
fn page_lawful(b: &[u8], setting: Setting) -> bool
    requires { length b.now ≡ 128 }
    ensures { result ≡ page_lawful (setting_of setting) (session_in b.now).page }
{
    let count = u8::load(b, 3);
    if 8 < count {
        return false;
    }
    if !pages::page_keys(b, count) {
        return false;
    }
    if !times::vector_formed(b, 64, setting) {
        return false;
    }
    times::vector_formed(b, 96, setting)
}

// R21: an open session's site exists.
fn site_lawful(b: &[u8], setting: Setting) -> bool
    requires { length b.now ≡ 128 }
    ensures { result ≡ (not (eqb (load 1 b.now 0) 1) || ltb (load 1 b.now 1) setting.sites) }
{
    if u8::load(b, 0) != 1 {
        return true;
    }
    u8::load(b, 1) < setting.sites
}

// Single bytes first, then the vector and the page.
pub fn session_formed(b: &[u8], setting: Setting) -> bool
    requires { length b.now ≡ 128 }
    ensures { result ≡ session_formed (setting_of setting) b.now }
{
    if FLAGS <= u8::load(b, 0) {
        return false;
    }
    if FLAGS <= u8::load(b, 2) {
        return false;
    }
    if !site_lawful(b, setting) {
        return false;
    }
    if !flags_formed(b, 16, 8) {
        return false;
    }
    if !times::vector_formed(b, 32, setting) {
        return false;
    }
    page_lawful(b, setting)
}
