// What a decision is made of, by value: its answer, and what is then carried out, with the session as it is left. Here are the values. The files: keeping (a
// session opened, closed, with a page begun, read on, ended), raising (a session's vector), answers.

#![tactic(auto)]

use parts::Session;
use protocol::Answer;
use protocol::limits::{NodeAt, SessionAt};
use record::Letter;

pub mod answers;
pub mod keeping;
pub mod raising;

// What is then carried out, with all that it writes.
#[derive(Clone, Copy)]
pub enum Effect {
    Nothing,
    Keep {
        session: SessionAt,
        kept: Session,
    },
    Clock {
        node: NodeAt,
        time: u64,
    },
    Beat {
        node: NodeAt,
        stamp: u64,
    },
    Put {
        session: SessionAt,
        kept: Session,
        node: NodeAt,
        letter: Letter,
    },
    Deliver {
        from: u8,
        node: NodeAt,
        letter: Letter,
    },
}

#[derive(Clone, Copy)]
pub struct Decided {
    pub answer: Answer,
    pub effect: Effect,
}
