// A record that is shown raises the session's vector (R37); the session is lent to that raising and updated there. In order: `raise`, through `&mut`;
// `raised_by`, for GET, which owns the session and lends it. GET and END raise sessions by `raise` and by nothing else.
ghost use Rattle.std.specs.Prelude.{◌≡◌, ◌<◌};
ghost use Rattle.vector.specs.Vec.{raised};
ghost use Rattle.vector.specs.Meaning.{as_vec};
ghost use Rattle.protocol.specs.Record.{raised_by};
ghost use Rattle.protocol.specs.State.{with_vec};
ghost use Rattle.parts.specs.Meaning.{as_session};
ghost use Rattle.search.specs.Found.{found_of, Sited};

use parts::Session;
use record::Record;
use vector::Vector;

// The session is lent, and raised where it lies.
pub fn raise(x: &mut Session, carried: Vector, source: u8, stamp: u64)
    requires { source < 4 }
    ensures { as_session x.new ≡ with_vec (as_session x.old) (raised (as_session x.old).vec (as_vec carried) source stamp) }
{
    x.vec = x.vec.raised(carried, source as usize, stamp);
}

// A session after a read: raised by the record that was found, or as it is.
pub fn raised_by(x: Session, found: Option<Record>) -> Session
    requires { Sited found }
    ensures { as_session result ≡ with_vec (as_session x) (raised_by (as_session x).vec (found_of found)) }
{
    let mut y = x;
    if let Some(r) = found {
        raise(&mut y, r.carried, r.numbers.source, r.numbers.stamp);
    }
    y
}
