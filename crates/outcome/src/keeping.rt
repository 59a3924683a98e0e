// Sessions as decisions leave them, by value. In order: closed and opened, another vector, and a page that is begun, read on and ended.
ghost use Rattle.std.specs.Prelude.{◌≡◌, ◌≤◌};
ghost use Rattle.vector.specs.Meaning.{as_vec};
ghost use Rattle.protocol.specs.State.{no_page, closed, opened, with_vec, with_page};
ghost use Rattle.protocol.specs.Serve.{begun, read_on};
ghost use Rattle.parts.specs.Pages.{keys_on};
ghost use Rattle.parts.specs.Meaning.{as_session};
ghost use Rattle.search.specs.Found.{found_of, Sited};

use crate::answers;
use parts::{Keys, Marks, Session};
use record::Record;
use vector::Vector;

pub fn closed() -> Session
    ensures { as_session result ≡ closed }
{
    let zero = Vector::zero();
    let none = Keys {
        keys: [0; 8],
        count: 0,
    };
    Session {
        open: false,
        site: 0,
        vec: zero,
        paged: false,
        marks: Marks::unread(none),
        snapshot: zero,
        gathered: zero,
    }
}

// R41: zero vectors, no page.
pub fn opened(m: u8) -> Session
    ensures { as_session result ≡ opened m }
{
    Session {
        open: true,
        site: m,
        ..closed()
    }
}

// With another vector.
pub fn with_vector(x: Session, vec: Vector) -> Session
    ensures { as_session result ≡ with_vec (as_session x) (as_vec vec) }
{
    Session { vec, ..x }
}

// With a page of these keys, none read, begun by a coordinator that has this vector.
pub fn begun(x: Session, coordinator: Vector, keys: Keys) -> Session
    requires { keys.count ≤ 8 }
    ensures { as_session result ≡ with_page (as_session x) (begun (as_vec coordinator) (as_session x).vec (keys_on keys)) }
{
    Session {
        paged: true,
        snapshot: coordinator.larger_of(x.vec),
        marks: Marks::unread(keys),
        gathered: Vector::zero(),
        ..x
    }
}

// With key k of its page read, and gathered what was found.
pub fn read_on(x: Session, k: u8, found: Option<Record>) -> Session
    requires { (x.marks.page.count ≤ 8) × Sited found }
    ensures { as_session result ≡ with_page (as_session x) (read_on (as_session x).page k (found_of found)) }
{
    Session {
        paged: true,
        marks: x.marks.with_read(k),
        gathered: answers::raised_by(x.gathered, found),
        ..x
    }
}

// With no page.
pub fn ended(x: Session) -> Session
    ensures { as_session result ≡ with_page (as_session x) no_page }
{
    Session {
        open: x.open,
        site: x.site,
        vec: x.vec,
        ..closed()
    }
}
