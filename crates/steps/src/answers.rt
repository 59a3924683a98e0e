// An answer in 16 bytes.
ghost use Rattle.std.specs.Prelude.{◌≡◌, ◌+◌, ◌≤◌, length};
ghost use Rattle.steps.specs.Run.{put_answer};

use codec::Number;
use protocol::{Answer, Values};

// The answer's 16 bytes go to `at`.
pub fn store_answer(b: &mut [u8], at: usize, a: Answer)
    requires { at + 16 ≤ length b.old }
    ensures { b.new ≡ put_answer b.old at a }
{
    let v = Values::from(a);
    v.number.store(b, at);
    v.source.store(b, at + 1);
    v.quality.store(b, at + 2);
    0u8.store(b, at + 3);
    codec::store_level(b, at + 4, v.level);
    v.stamp.store(b, at + 8);
}
