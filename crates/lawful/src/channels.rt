// A channel's 464 bytes: messages that are lawful, none where the channel is absent. In order: the messages, the channel.
ghost use Rattle.std.specs.Prelude.{◌≡◌, ◌<◌, length};
ghost use Rattle.codec.specs.Below.{all_below};
ghost use Rattle.protocol.specs.Meaning.{setting_of};
ghost use Rattle.record.specs.RecordFormed.{message_formed};
ghost use Rattle.parts.specs.Channel.{ring_at};
ghost use Rattle.lawful.specs.WellFormed.{channel_formed};

use crate::nodes;
use codec::Number;
use protocol::limits::Setting;
use record::formed;

// The first `wait` messages from the place `front` on, round the ring.
fn messages_formed(b: &[u8], setting: Setting, i: u8, p: u8, front: u8, wait: u8) -> bool
    requires { length b.now ≡ 464 }
    ensures { result ≡ all_below wait (λ k. message_formed (setting_of setting) i p b.now (ring_at front k)) }
{
    (0..wait).all(|k| {
        formed::message_formed(b, parts::channels::place(front, k), setting, i, p)
    })
}

// The channel from site i at partition p to the place d among the other sites.
pub fn channel_formed(b: &[u8], setting: Setting, i: u8, p: u8, d: u8) -> bool
    requires { (length b.now ≡ 464) × (d < 3) }
    ensures { result ≡ channel_formed (setting_of setting) i p d b.now }
{
    let wait = parts::channels::waiting(b);
    if wait == 0 {
        return true;
    }
    if nodes::most(
        ((i < setting.sites) & (p < setting.partitions)) & (d + 1 < setting.sites),
        8,
    ) < wait
    {
        return false;
    }
    let front = u8::load(b, 0);
    messages_formed(b, setting, i, p, front, wait)
}
