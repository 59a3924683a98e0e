// A site's part of the table, 13,056 bytes: 4 nodes, and for each partition 3 outgoing channels. In order: the
// channels of a partition, the site.
ghost use Rattle.std.specs.Prelude.{◌≡◌, ◌&&◌, ◌<◌, length};
ghost use Rattle.codec.specs.Below.{all_below};
ghost use Rattle.protocol.specs.Meaning.{setting_of};
ghost use Rattle.table.specs.Parts.{Whole, site_of, node_of, channel_of, kept_of};
ghost use Rattle.lawful.specs.WellFormed.{channel_formed, site_formed, kept_formed};

use crate::{channels, nodes};
use protocol::limits::{NodeAt, Setting};
use table::places;

fn channels_formed(site: &[u8], setting: Setting, m: u8, p: u8) -> bool
    requires { (length site.now ≡ 13056) × (p < 4) }
    ensures { result ≡ all_below 3 (λ d. channel_formed (setting_of setting) m p d (channel_of site.now p d)) }
{
    (0..3).all(|d| channels::channel_formed(
        places::channel_of(site, p, d as usize),
        setting,
        m,
        p,
        d,
    ))
}

// Site m, and the kept places of its nodes. A loop: with `all`, whose closure joins two tests, the proof did not close. Not inlined: beside the sessions, the walk
// over a node's records has too few registers, and the check of a full table takes a tenth more instructions.
#[inline(never)]
pub fn site_formed(t: &[u8], setting: Setting, m: u8) -> bool
    requires { Whole t.now × (m < 4) }
    ensures { result ≡ (site_formed (setting_of setting) m (site_of t.now m) && all_below 4 (λ p. kept_formed (setting_of setting) (node_of (site_of t.now m) p) (kept_of t.now m p))) }
{
    let site = places::site(t, m);
    for p in 0..4 {
        let node = NodeAt {
            site: m,
            partition: p,
        };
        if !nodes::node_formed(
            places::node_of(site, p),
            places::kept(t, node),
            setting,
            m,
            p,
        ) {
            return false;
        }
        if !channels_formed(site, setting, m, p) {
            return false;
        }
    }
    true
}
