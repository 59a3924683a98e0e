// The parts of a table, each by its own bytes and wherever it stands: a node's 1,856, a channel's 464 and a session's 128. Each file has what a part's bytes say
// and how they change; pages has what is asked of a page's keys and marks. Here are those keys and marks, and the session that the code holds.

#![tactic(auto)]

use vector::Vector;

pub mod channels;
pub mod nodes;
pub mod pages;
pub mod sessions;

// The keys of a page: the first `count` of eight are in use. That they are at most eight is asked where it is needed and not here: `outcome::raising::raise`
// takes a session whatever it counts.
#[derive(Clone, Copy)]
pub struct Keys {
    pub keys: [u8; 8],
    pub count: u8,
}

// The keys of a page, and which of them were read.
#[derive(Clone, Copy)]
pub struct Marks {
    pub page: Keys,
    pub read: [bool; 8],
}

// A session and its page: `snapshot` is the page's vector. `open` and `paged` are flags, since the bytes of a session and of a page that are not open count too.
#[derive(Clone, Copy)]
pub struct Session {
    pub open: bool,
    pub site: u8,
    pub vec: Vector,
    pub paged: bool,
    pub marks: Marks,
    pub snapshot: Vector,
    pub gathered: Vector,
}
