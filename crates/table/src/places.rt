// Where each part of the table starts, and the part itself, lent for reading: a session, a site, a node's kept places, and of a site a node or a channel. docs/LAYOUT.md has
// the same numbers. In order: the sizes, where each part starts, the parts of the table, and the parts of a site's part.
ghost use Rattle.std.specs.Prelude.{◌≡◌, ◌+◌, ◌≤◌, ◌<◌, length};
ghost use Rattle.table.specs.Parts.{Whole, Long, session_at, site_at, node_at, channel_at, kept_at, session_of, site_of, node_of, channel_of, kept_of};

use protocol::limits::{NodeAt, SessionAt};

pub const SESSION: usize = 128;

pub const SITE: usize = 13056;

pub const NODE: usize = 1856;

pub const CHANNEL: usize = 464;

pub const KEPT: usize = 64;

// Where session s starts in the table.
pub fn session_at(s: usize) -> usize
    requires { s < 16 }
    ensures { (result ≡ session_at s) × (result + 128 ≤ 4096) }
{
    128 + SESSION * s
}

// Where site m starts in the table.
pub fn site_at(m: usize) -> usize
    requires { m < 4 }
    ensures { (result ≡ site_at m) × (result + 13056 ≤ 56320) }
{
    4096 + SITE * m
}

// Where node p starts in a site's part.
pub fn node_at(p: usize) -> usize
    requires { p < 4 }
    ensures { (result ≡ node_at p) × (result + 1856 ≤ 7424) }
{
    NODE * p
}

// Where the channel of partition p to the place d starts in a site's part.
pub fn channel_at(p: usize, d: usize) -> usize
    requires { (p < 4) × (d < 3) }
    ensures { (result ≡ channel_at p d) × (result + 464 ≤ 13056) }
{
    7424 + CHANNEL * (3 * p + d)
}

// Where the kept places of a node start in the table.
pub fn kept_at(node: NodeAt) -> usize
    ensures { (result ≡ kept_at node.site node.partition) × (result + 64 ≤ 57344) }
{
    56320 + KEPT * (4 * (node.site as usize) + node.partition as usize)
}

pub fn session(t: &[u8], session: SessionAt) -> &[u8]
    requires { Long t.now }
    ensures { (result.now ≡ session_of t.now session.number) × (length result.now ≡ 128) }
{
    let off = session_at(session.number as usize);
    &t[off..off + SESSION]
}

// The part of site m: its nodes and its outgoing channels.
pub fn site(t: &[u8], m: u8) -> &[u8]
    requires { Long t.now × (m < 4) }
    ensures { (result.now ≡ site_of t.now m) × (length result.now ≡ 13056) }
{
    let off = site_at(m as usize);
    &t[off..off + SITE]
}

pub fn node(t: &[u8], node: NodeAt) -> &[u8]
    requires { Long t.now }
    ensures { (result.now ≡ node_of (site_of t.now node.site) node.partition) × (length result.now ≡ 1856) }
{
    node_of(site(t, node.site), node.partition)
}

// The channel of the node to the place d.
pub fn channel(t: &[u8], node: NodeAt, d: usize) -> &[u8]
    requires { Long t.now × (d < 3) }
    ensures { (result.now ≡ channel_of (site_of t.now node.site) node.partition d) × (length result.now ≡ 464) }
{
    channel_of(site(t, node.site), node.partition, d)
}

// The node's kept places.
pub fn kept(t: &[u8], node: NodeAt) -> &[u8]
    requires { Whole t.now }
    ensures { (result.now ≡ kept_of t.now node.site node.partition) × (length result.now ≡ 64) }
{
    let off = kept_at(node);
    &t[off..off + KEPT]
}

// Node p of a site's part.
pub fn node_of(site: &[u8], p: u8) -> &[u8]
    requires { (length site.now ≡ 13056) × (p < 4) }
    ensures { (result.now ≡ node_of site.now p) × (length result.now ≡ 1856) }
{
    let off = node_at(p as usize);
    &site[off..off + NODE]
}

// The channel of partition p to the place d, of a site's part.
pub fn channel_of(site: &[u8], p: u8, d: usize) -> &[u8]
    requires { (length site.now ≡ 13056) × (p < 4) × (d < 3) }
    ensures { (result.now ≡ channel_of site.now p d) × (length result.now ≡ 464) }
{
    let off = channel_at(p as usize, d);
    &site[off..off + CHANNEL]
}
