// A step on a table known to be well formed: the protocol's decision, carried out; and many of them. In order: what is decided of an event, a step that may be
// turned away, and the step.

#![tactic(auto)]

ghost use Rattle.std.specs.Prelude.{◌≡◌, true, T, length};
ghost use Rattle.protocol.specs.Needs.{ranges};
ghost use Rattle.event.specs.Event.{met};
ghost use Rattle.event.specs.Meaning.{as_event};
ghost use Rattle.table.specs.Parts.{Whole};
ghost use Rattle.table.specs.Decode.{setting_in, decode};
ghost use Rattle.lawful.specs.WellFormed.{well_formed};
ghost use Rattle.outcome.specs.Decided.{decided_of};
ghost use Rattle.decision.specs.Answered.{answered};
ghost use Rattle.steps.specs.Step.{gives, step_on, told};

use decision::{pages, sessions, writes};
use event::{Event, EventBytes};
use lawful::Table;
use outcome::Decided;
use parts::Keys;
use protocol::limits::{NodeAt, SessionAt};
use protocol::{Answer, Reason};

pub mod answers;
pub mod effects;
pub mod runs;

// What the protocol decides of an event whose fields are in range.
pub fn decide(table: Table, event: Event) -> Result<Decided, Reason>
    requires { Whole table.bytes.now × (met (ranges (setting_in table.bytes.now) (as_event event)) ≡ true) }
    ensures { decided_of result ≡ answered (decode table.entry.bytes.now) (as_event event) }
{
    match event {
        Event::Open { session, site } => sessions::open_session(
            table,
            SessionAt { number: session },
            site,
        ),
        Event::Close { session } => sessions::close_session(table, SessionAt { number: session }),
        Event::Clock {
            site,
            partition,
            time,
        } => writes::clock(table, NodeAt { site, partition }, time),
        Event::Get { session, key } => sessions::get(table, SessionAt { number: session }, key),
        Event::Put {
            session,
            key,
            quality,
            level,
        } => writes::put(table, SessionAt { number: session }, key, quality, level),
        Event::Begin {
            session,
            partition,
            count,
            keys,
        } => pages::begin(
            table,
            SessionAt { number: session },
            partition,
            Keys { keys, count },
        ),
        Event::Read { session, key } => pages::read(table, SessionAt { number: session }, key),
        Event::End { session } => pages::end(table, SessionAt { number: session }),
        Event::Beat { site, partition } => writes::beat(table, NodeAt { site, partition }),
        Event::Deliver {
            from,
            site,
            partition,
        } => writes::deliver(table, from, NodeAt { site, partition }),
    }
}

// What an event is answered, or why it is turned away: then nothing is changed.
fn served(t: &mut [u8], e: &EventBytes) -> Result<Answer, Reason>
    requires { Whole t.old × T (well_formed t.old) }
    ensures { gives (told result) t.new ≡ step_on t.old e.now }
{
    let event = event::read(e, table::setting(t))?;
    let decided = decide(Table { bytes: t }, event)?;
    effects::carry_out(t, decided.effect);
    Ok(decided.answer)
}

// A code that is not 1 to 10 is refused before any other field is loaded.
pub fn step(t: &mut [u8], e: &[u8]) -> Answer
    requires { Whole t.old × T (well_formed t.old) × (length e.now ≡ 32) }
    ensures { gives result t.new ≡ step_on t.old e.now }
{
    let bytes = <&EventBytes>::try_from(e).unwrap();
    if !event::code_lawful(bytes) {
        return Answer::from(Reason::UnknownCode);
    }
    match served(t, bytes) {
        Ok(answer) => answer,
        Err(reason) => Answer::from(reason),
    }
}
