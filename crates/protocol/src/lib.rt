// The rules of docs/RULES.md without bytes: the definitions are in specs/, what is proved of them in proofs/. The code here is the answer, the very
// type that the definitions use, and the values that it stands for; `reasons` has what turns a call away, and `limits` what setup fixes, which session or
// node is meant, and the limits that more than one crate asks for. It touches nothing.

#![tactic(auto)]

ghost use Rattle.std.specs.Prelude.{◌≡◌};
ghost use Rattle.protocol.specs.Event.{five, values_of};

pub mod limits;
pub mod reasons;

pub use reasons::Reason;

// A refusal, or the wait 3, with the source and the stamp that it names. By its number: the theorems speak of this type; why it is, `Reason` says.
#[derive(Clone, Copy)]
pub struct Refusal {
    pub number: u8,
    pub source: u8,
    pub stamp: u64,
}

// A reading as an answer shows it.
#[derive(Clone, Copy)]
pub struct Reading {
    pub source: u8,
    pub quality: u8,
    pub level: i32,
    pub stamp: u64,
}

#[derive(Clone, Copy)]
pub enum Answer {
    Done,
    Stamped { source: u8, stamp: u64 },
    Value(Reading),
    Nothing,
    Refused(Refusal),
}

// R34: number, source, quality, level and stamp. C and Rust see this struct.
#[repr(C)]
#[derive(Clone, Copy)]
pub struct Values {
    pub number: u8,
    pub source: u8,
    pub quality: u8,
    pub level: i32,
    pub stamp: u64,
}

fn five(number: u8, source: u8, quality: u8, level: i32, stamp: u64) -> Values
    ensures { result ≡ five number source quality level stamp }
{
    Values {
        number,
        source,
        quality,
        level,
        stamp,
    }
}

impl From<Answer> for Values {
    ghost from_gives = { λ a v. v ≡ values_of a };

    fn from(a: Answer) -> Values {
        match a {
            Answer::Done => five(0, 0, 0, 0, 0),
            Answer::Stamped { source, stamp } => five(0, source, 0, 0, stamp),
            Answer::Value(v) => five(1, v.source, v.quality, v.level, v.stamp),
            Answer::Nothing => five(2, 0, 0, 0, 0),
            Answer::Refused(w) => five(w.number, w.source, 0, 0, w.stamp),
        }
    }
}
