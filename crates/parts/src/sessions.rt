// A session's 128 bytes. In order: reading, where all eight keys and marks are read and those below the count are in use; and writing, which leaves
// the keys and marks that are not in use as they were.
ghost use Rattle.std.specs.Prelude.{◌≡◌, false, ℕ, ◌+◌, ◌≤◌, ◌<◌, eqb, length, get_or};
ghost use Rattle.codec.specs.Le.{load, put};
ghost use Rattle.codec.specs.Fields.{put_all};
ghost use Rattle.codec.specs.Tabulate.{tabulate};
ghost use Rattle.parts.specs.Session.{mark_at, session_in, flag, put_marks, head_fields, put_session};
ghost use Rattle.parts.specs.Pages.{marks_on};
ghost use Rattle.parts.specs.Meaning.{as_session};

use crate::{Keys, Marks, Session};
use codec::Number;

fn load_read(b: &[u8]) -> [bool; 8]
    requires { length b.now ≡ 128 }
    ensures { (i : ℕ) → i < 8 → get_or result i false ≡ eqb (load 1 b.now (16 + i)) 1 }
{
    let mut read = [false; 8];
    for (i, mark) in read.iter_mut().enumerate() {
        *mark = u8::load(b, 16 + i) == 1;
    }
    read
}

fn load_marks(b: &[u8]) -> Marks
    requires { (length b.now ≡ 128) × (load 1 b.now 3 ≤ 8) }
    ensures { marks_on result ≡ tabulate (load 1 b.now 3) (mark_at b.now) }
{
    let count = u8::load(b, 3);
    let keys = codec::load_eight(b, 8);
    Marks {
        page: Keys { keys, count },
        read: load_read(b),
    }
}

pub fn load(b: &[u8]) -> Session
    requires { (length b.now ≡ 128) × (load 1 b.now 3 ≤ 8) }
    ensures { as_session result ≡ session_in b.now }
{
    let open = u8::load(b, 0) == 1;
    let site = u8::load(b, 1);
    let paged = u8::load(b, 2) == 1;
    let marks = load_marks(b);
    let vec = vector::load_vector(b, 32);
    let snapshot = vector::load_vector(b, 64);
    let gathered = vector::load_vector(b, 96);
    Session {
        open,
        site,
        vec,
        paged,
        marks,
        snapshot,
        gathered,
    }
}

fn store_mark(b: &mut [u8], i: usize, key: u8, read: bool)
    requires { (length b.old ≡ 128) × (i < 8) }
    ensures { b.new ≡ put 1 (put 1 b.old (8 + i) key) (16 + i) (flag read) }
{
    key.store(b, 8 + i);
    u8::from(read).store(b, 16 + i);
}

fn store_marks(b: &mut [u8], x: Marks)
    requires { (length b.old ≡ 128) × (x.page.count ≤ 8) }
    ensures { b.new ≡ put_marks b.old 0 (marks_on x) }
{
    let page = x.page;
    let count = page.count as usize;
    for i in 0..count {
        store_mark(b, i, page.keys[i], x.read[i]);
    }
}

// Bytes 0 to 3: open, site, page open, count.
fn store_head(b: &mut [u8], x: Session)
    requires { length b.old ≡ 128 }
    ensures { b.new ≡ put_all 0 (head_fields (as_session x)) b.old }
{
    u8::from(x.open).store(b, 0);
    x.site.store(b, 1);
    u8::from(x.paged).store(b, 2);
    x.marks.page.count.store(b, 3);
}

pub fn store(b: &mut [u8], x: Session)
    requires { (length b.old ≡ 128) × (x.marks.page.count ≤ 8) }
    ensures { b.new ≡ put_session (as_session x) b.old }
{
    let vec = x.vec;
    let snapshot = x.snapshot;
    let gathered = x.gathered;
    let marks = x.marks;
    store_head(b, x);
    vector::store_vector(b, 32, vec);
    vector::store_vector(b, 64, snapshot);
    vector::store_vector(b, 96, gathered);
    store_marks(b, marks);
}
