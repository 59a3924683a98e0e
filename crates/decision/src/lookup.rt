// What decisions read of a well-formed table: a session, and one that has to be open; a key's partition; and of a node what it has heard, its newest record for
// a page, and its newest record of a key by the kept place.
ghost use Rattle.std.specs.Prelude.{◌≡◌, true, false, ◌<◌, ◌≤◌, IfOk, IfErr};
ghost use Rattle.vector.specs.Entries.{entry};
ghost use Rattle.codec.specs.Le.{load};
ghost use Rattle.vector.specs.Meaning.{as_vec};
ghost use Rattle.protocol.specs.Record.{partition_of, of_key, fits_page};
ghost use Rattle.protocol.specs.Shelf.{found};
ghost use Rattle.parts.specs.Node.{heard_in, store_in};
ghost use Rattle.parts.specs.Session.{session_in};
ghost use Rattle.parts.specs.Meaning.{as_session};
ghost use Rattle.search.specs.Found.{found_of, Sited};
ghost use Rattle.table.specs.Parts.{Whole, session_of, site_of, node_of};
ghost use Rattle.table.specs.Decode.{setting_in};
ghost use Rattle.decision.specs.Opened.{Opened};

use lawful::Table;
use parts::{Session, nodes, sessions};
use protocol::Reason;
use protocol::limits::{self, NodeAt, SessionAt};
use record::Record;
use search::Wanted;
use table::places;
use vector::Vector;

// A session, of which at most eight keys are in use; the site of an open one exists.
pub fn session(table: Table, s: SessionAt) -> Session
    ensures { (as_session result ≡ session_in (session_of table.entry.bytes.now s.number)) × (result.marks.page.count ≤ 8) × (result.open ≡ true → result.site < 4) × (result.open ≡ true → result.site < load 1 table.entry.bytes.now 0) }
{
    sessions::load(places::session(table.bytes, s))
}

// A session that has to be open. Inlined, so that it is not copied whole into the result: `run` takes a sixth less time.
#[inline]
pub fn opened(table: Table, s: SessionAt) -> Result<Session, Reason>
    ensures ok { IfOk result (Opened table.entry.bytes.now s.number) }
    ensures err { IfErr result (λ w. (w ≡ Reason.SessionNotOpen) × ((session_in (session_of table.entry.bytes.now s.number)).is_open ≡ false)) }
{
    let x = session(table, s);
    if x.open {
        Ok(x)
    } else {
        Err(Reason::SessionNotOpen)
    }
}

// R2
pub fn partition(table: Table, k: u8) -> u8
    ensures { (result ≡ partition_of (setting_in table.entry.bytes.now) k) × (result < 4) }
{
    let setting = table::setting(table.bytes);
    limits::partition_of(k, setting.partitions)
}

// The node of a session's site that holds a key.
pub fn node_of(table: Table, m: u8, k: u8) -> NodeAt
    requires { m < 4 }
    ensures { (result.site ≡ m) × (result.partition ≡ partition_of (setting_in table.entry.bytes.now) k) }
{
    NodeAt {
        site: m,
        partition: partition(table, k),
    }
}

// What the node has heard.
pub fn heard(table: Table, node: NodeAt) -> Vector
    ensures { as_vec result ≡ heard_in (node_of (site_of table.entry.bytes.now node.site) node.partition) }
{
    nodes::heard(places::node(table.bytes, node))
}

// The newest record there of the key that carries no more than the page's vector: all records of the node are looked at.
pub fn newest(table: Table, node: NodeAt, key: u8, snapshot: Vector) -> Option<Record>
    ensures { (found_of result ≡ found (setting_in table.entry.bytes.now) (fits_page key (as_vec snapshot)) (store_in (node_of (site_of table.entry.bytes.now node.site) node.partition))) × Sited result }
{
    let w = Wanted { key, snapshot };
    search::newest(places::node(table.bytes, node), w)
}

// The newest record there of the key: nothing is searched, its place is kept.
pub fn at_hand(table: Table, node: NodeAt, key: u8) -> Option<Record>
    requires { Whole table.bytes.now × (key < 64) }
    ensures { (found_of result ≡ found (setting_in table.entry.bytes.now) (of_key key) (store_in (node_of (site_of table.entry.bytes.now node.site) node.partition))) × Sited result }
{
    let place = table::kept::place(table.bytes, node, key as usize);
    search::found_at(places::node(table.bytes, node), place)
}
