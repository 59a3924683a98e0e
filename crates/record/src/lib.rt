// A record's and a message's 48 bytes (R17). Here are the values that the code holds: a record's numbers, a record, a message, and a
// letter, which is a message with the vector that an update carries. The files: bytes (read and written), times (what is lawful of a time and a vector),
// formed (what is lawful of a record's and a message's bytes).

#![tactic(auto)]

use vector::Vector;

pub mod bytes;
pub mod formed;
pub mod times;

// A record's numbers, without the vector that it carries.
#[derive(Clone, Copy)]
pub struct Numbers {
    pub key: u8,
    pub source: u8,
    pub quality: u8,
    pub level: i32,
    pub stamp: u64,
}

// A stored record.
#[derive(Clone, Copy)]
pub struct Record {
    pub numbers: Numbers,
    pub carried: Vector,
}

// R16: an update or a heartbeat. It holds numbers; an update's vector stands beside it.
#[derive(Clone, Copy)]
pub enum Message {
    Update(Numbers),
    Heartbeat { stamp: u64 },
}

// A message with its vector, which is zero beside a heartbeat: both are stored at the same 32 bytes.
#[derive(Clone, Copy)]
pub struct Letter {
    pub message: Message,
    pub carried: Vector,
}

impl Letter {
    ghost use Rattle.std.specs.Prelude.{◌≡◌, [], ◌∷◌};
    ghost use Rattle.protocol.specs.Record.{stamp_in};
    ghost use Rattle.protocol.specs.Needs.{front_updates};
    ghost use Rattle.record.specs.Meaning.{as_message};

    pub fn stamp(self) -> u64
        ensures { result ≡ stamp_in (as_message self) }
    {
        match self.message {
            Message::Update(r) => r.stamp,
            Message::Heartbeat { stamp } => stamp,
        }
    }

    // Whether it is an update; only updates are stored.
    pub fn is_update(self) -> bool
        ensures { result ≡ front_updates (as_message self ∷ []) }
    {
        match self.message {
            Message::Update(_) => true,
            Message::Heartbeat { stamp: _ } => false,
        }
    }
}
