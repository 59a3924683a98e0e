// R30: what an event's 32 bytes say, and refusals 10 and 11. In order: the bytes, the fields as values, the code's test, the event that they say by their code, all
// the fields' tests, and an event that is read and tested. Which code uses which field is in flags, the range of each field in bounds. It reads the event alone.

#![tactic(auto)]

ghost use Rattle.std.specs.Prelude.{◌≡◌, ℕ, ◌-◌, ◌<◌, T, true, false, ◌&&◌, get_or, IfOk, IfErr};
ghost use Rattle.codec.specs.Le.{load};
ghost use Rattle.codec.specs.Below.{all_below};
ghost use Rattle.protocol.specs.Needs.{ranges};
ghost use Rattle.protocol.specs.Meaning.{setting_of};
ghost use Rattle.event.specs.Fields.{uses, unused_zero};
ghost use Rattle.event.specs.Event.{code_lawful, event_of, met};
ghost use Rattle.event.specs.Meaning.{fields_in, as_event, Says, IsRefusal};
ghost use Rattle.event.specs.Ranges.{in_range, field_lawful};

use codec::Number;
use protocol::Reason;
use protocol::limits::Setting;

mod bounds;
mod flags;

// Whoever has a slice tests its length, so that an event of another length is not read.
pub const EVENT: usize = 32;

pub type EventBytes = [u8; EVENT];

// The numbers of an event's fields, of whatever code.
#[derive(Clone, Copy)]
pub struct Fields {
    pub code: u8,
    pub site: u8,
    pub partition: u8,
    pub session: u8,
    pub key: u8,
    pub quality: u8,
    pub from: u8,
    pub count: u8,
    pub time: u64,
    pub level: i32,
    pub keys: [u8; 8],
}

pub fn load_fields(e: &EventBytes) -> Fields
    ensures { result ≡ fields_in e.now }
{
    Fields {
        code: u8::load(e, 0),
        site: u8::load(e, 1),
        partition: u8::load(e, 2),
        session: u8::load(e, 3),
        key: u8::load(e, 4),
        quality: u8::load(e, 5),
        from: u8::load(e, 6),
        count: u8::load(e, 7),
        time: u64::load(e, 8),
        level: codec::load_level(e, 16),
        keys: codec::load_eight(e, 20),
    }
}

// A code that is not 1 to 10 is refused with 10.
pub fn code_lawful(e: &EventBytes) -> bool
    ensures { result ≡ code_lawful e.now }
{
    let code = u8::load(e, 0);
    (0 < code) & (code < 11)
}

// R31: what an event asks. A page has the first `count` of its eight keys.
#[derive(Clone, Copy)]
pub enum Event {
    Open {
        session: u8,
        site: u8,
    },
    Close {
        session: u8,
    },
    Clock {
        site: u8,
        partition: u8,
        time: u64,
    },
    Get {
        session: u8,
        key: u8,
    },
    Put {
        session: u8,
        key: u8,
        quality: u8,
        level: i32,
    },
    Begin {
        session: u8,
        partition: u8,
        count: u8,
        keys: [u8; 8],
    },
    Read {
        session: u8,
        key: u8,
    },
    End {
        session: u8,
    },
    Beat {
        site: u8,
        partition: u8,
    },
    Deliver {
        from: u8,
        site: u8,
        partition: u8,
    },
}

// Fields whose code is not 1 to 10 say none.
impl TryFrom<Fields> for Event {
    type Error = Reason;

    ghost try_from_gives = { Says };

    fn try_from(x: Fields) -> Result<Event, Reason> {
        Ok(match x.code {
            1 => Event::Open {
                session: x.session,
                site: x.site,
            },
            2 => Event::Close { session: x.session },
            3 => Event::Clock {
                site: x.site,
                partition: x.partition,
                time: x.time,
            },
            4 => Event::Get {
                session: x.session,
                key: x.key,
            },
            5 => Event::Put {
                session: x.session,
                key: x.key,
                quality: x.quality,
                level: x.level,
            },
            6 => {
                let keys = x.keys;
                Event::Begin {
                    session: x.session,
                    partition: x.partition,
                    count: x.count,
                    keys,
                }
            }
            7 => Event::Read {
                session: x.session,
                key: x.key,
            },
            8 => Event::End { session: x.session },
            9 => Event::Beat {
                site: x.site,
                partition: x.partition,
            },
            10 => Event::Deliver {
                from: x.from,
                site: x.site,
                partition: x.partition,
            },
            _ => return Err(Reason::UnknownCode),
        })
    }
}

// Each of the ten fields is zero unless it is used, and in its range if it is.
fn each_lawful(used: [bool; 10], zero: [bool; 10], within: [bool; 10]) -> bool
    ensures { result ≡ all_below 10 (field_lawful used zero within) }
{
    let mut all = true;
    for f in 0..10 {
        all &= (used[f] | zero[f]) & (!used[f] | within[f]);
    }
    all
}

// A used field out of range (R32) or an unused one that is not zero (R33) is refused with 11.
pub fn fields_lawful(e: &EventBytes, setting: Setting) -> bool
    requires { code_lawful e.now ≡ true }
    ensures { result ≡ (unused_zero e.now && met (ranges (setting_of setting) (event_of e.now))) }
{
    let x = load_fields(e);
    let used = flags::used((x.code - 1) as usize);
    let within = bounds::in_range(x, setting);
    each_lawful(used, flags::zero(e), within) & (flags::rest_zero(e) & (u32::load(e, 28) == 0))
}

// An event as its bytes say it, in an archive with this setting.
pub fn read(e: &EventBytes, setting: Setting) -> Result<Event, Reason>
    ensures ok { IfOk result (λ v. (as_event v ≡ event_of e.now) × (code_lawful e.now ≡ true) × ((unused_zero e.now && met (ranges (setting_of setting) (event_of e.now))) ≡ true)) }
    ensures used { IfOk result (λ _. (f : ℕ) → f < 10 → T (uses (load 1 e.now 0 - 1) f) → T (get_or (in_range (setting_of setting) (fields_in e.now)) f false)) }
    ensures err { IfErr result (λ w. IsRefusal (code_lawful e.now) (unused_zero e.now && met (ranges (setting_of setting) (event_of e.now))) w) }
{
    let event = Event::try_from(load_fields(e))?;
    if !fields_lawful(e, setting) {
        return Err(Reason::UnlawfulField);
    }
    Ok(event)
}
