// R60: why a call is turned away. The code speaks of reasons by name; an answer tells each by its number, which stands here and nowhere else.
ghost use Rattle.std.specs.Prelude.{◌≡◌};
ghost use Rattle.protocol.specs.Event.{Refused};
ghost use Rattle.protocol.specs.Reason.{number_for, refusal_for};

use crate::{Answer, Refusal};

// The reasons in the order of their numbers, from 10. A wait is no fault: it says which site and which stamp it waits for (R51).
#[derive(Clone, Copy)]
pub enum Reason {
    Wait { site: u8, stamp: u64 },
    UnknownCode,
    UnlawfulField,
    SessionNotOpen,
    SessionOpen,
    PageOpen,
    NoPageOpen,
    KeyNotAwaited,
    KeyTwice,
    KeyUnread,
    TimeBeforeClock,
    ChannelEmpty,
    ChannelFull,
    NodeFull,
    WrongLength,
    IllFormed,
}

impl Reason {
    pub fn number(self) -> u8
        ensures { result ≡ number_for self }
    {
        match self {
            Reason::Wait { site: _, stamp: _ } => 3,
            Reason::UnknownCode => 10,
            Reason::UnlawfulField => 11,
            Reason::SessionNotOpen => 12,
            Reason::SessionOpen => 13,
            Reason::PageOpen => 14,
            Reason::NoPageOpen => 15,
            Reason::KeyNotAwaited => 16,
            Reason::KeyTwice => 17,
            Reason::KeyUnread => 18,
            Reason::TimeBeforeClock => 19,
            Reason::ChannelEmpty => 20,
            Reason::ChannelFull => 21,
            Reason::NodeFull => 22,
            Reason::WrongLength => 23,
            Reason::IllFormed => 24,
        }
    }
}

// R34: zeros after the number, but for a wait.
impl From<Reason> for Answer {
    ghost from_gives = { λ w a. a ≡ Refused (refusal_for w) };

    fn from(w: Reason) -> Answer {
        let number = w.number();
        Answer::Refused(match w {
            Reason::Wait { site, stamp } => Refusal {
                number,
                source: site,
                stamp,
            },
            _ => Refusal {
                number,
                source: 0,
                stamp: 0,
            },
        })
    }
}
