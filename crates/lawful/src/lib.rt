// R20 to R29: whether a table is well formed, computed over the whole table. It only reads, and of records and messages only those in use. In
// order: the numbers of sites and partitions; a table that is well formed, lent for reading; the sessions; the sites with the kept places of their nodes;
// the table. What each thing must be stands in a file of its own.

#![tactic(auto)]

ghost use Rattle.std.specs.Prelude.{T, ◌≡◌, ◌&&◌, ◌<◌, leb, ltb};
ghost use Rattle.codec.specs.Below.{all_below};
ghost use Rattle.protocol.specs.Meaning.{setting_of};
ghost use Rattle.table.specs.Parts.{Long, Whole, session_of, site_of, node_of, kept_of};
ghost use Rattle.lawful.specs.LawfulValues.{setting_lawful};
ghost use Rattle.lawful.specs.WellFormed.{session_formed, site_formed, kept_formed, well_formed};

use protocol::limits::{SessionAt, Setting};
use table::places;

mod channels;
mod kept;
mod nodes;
mod pages;
mod sessions;
mod sites;

// R20
pub fn number_lawful(n: u32) -> bool
    ensures { result ≡ (ltb 0 n && leb n 4) }
{
    (0 < n) & (n <= 4)
}

pub fn setting_lawful(setting: Setting) -> bool
    ensures { result ≡ setting_lawful (setting_of setting) }
{
    number_lawful(setting.sites as u32) & number_lawful(setting.partitions as u32)
}

// A table that is well formed, lent for reading.
#[derive(Clone, Copy)]
pub struct Table<'a> {
    pub bytes: &'a [u8],
    ghost long: { Long bytes.now },
    ghost formed: { T (well_formed bytes.now) },
}

// Loops, in this and the next: with `all` the check of a table is slower by a twentieth.
fn sessions_formed(t: &[u8], setting: Setting) -> bool
    requires { Long t.now }
    ensures { result ≡ all_below 16 (λ s. session_formed (setting_of setting) (session_of t.now s)) }
{
    for s in 0..16 {
        if !sessions::session_formed(places::session(t, SessionAt { number: s }), setting) {
            return false;
        }
    }
    true
}

fn sites_formed(t: &[u8], setting: Setting) -> bool
    requires { Whole t.now }
    ensures { result ≡ (all_below 4 (λ m. site_formed (setting_of setting) m (site_of t.now m)) && all_below 4 (λ m. all_below 4 (λ p. kept_formed (setting_of setting) (node_of (site_of t.now m) p) (kept_of t.now m p)))) }
{
    for m in 0..4 {
        if !sites::site_formed(t, setting, m) {
            return false;
        }
    }
    true
}

// The numbers of sites and partitions first: nothing else is looked at unless they are lawful.
pub fn well_formed(t: &[u8]) -> bool
    requires { Whole t.now }
    ensures { result ≡ well_formed t.now }
{
    let setting = table::setting(t);
    if !setting_lawful(setting) {
        return false;
    }
    if !sessions_formed(t, setting) {
        return false;
    }
    sites_formed(t, setting)
}
