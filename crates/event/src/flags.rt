// R31 and R33: each code uses the fields named for it, and all others are zero. In order: the table of flags, and the tests
// for zero. It reads the event alone.
ghost use Rattle.std.specs.Prelude.{◌≡◌, ◌<◌};
ghost use Rattle.event.specs.Fields.{rest_zero};
ghost use Rattle.event.specs.Ranges.{used_by, zero_in};

use crate::EventBytes;
use codec::Number;

const YES: bool = true;

const NO: bool = false;

// A row for each code from 1, a flag for each field: site, partition, session, key, quality, from, count, time, level, page keys.
const USES: [[bool; 10]; 10] = [
    [YES, NO, YES, NO, NO, NO, NO, NO, NO, NO], // OPEN
    [NO, NO, YES, NO, NO, NO, NO, NO, NO, NO], // CLOSE
    [YES, YES, NO, NO, NO, NO, NO, YES, NO, NO], // CLOCK
    [NO, NO, YES, YES, NO, NO, NO, NO, NO, NO], // GET
    [NO, NO, YES, YES, YES, NO, NO, NO, YES, NO], // PUT
    [NO, YES, YES, NO, NO, NO, YES, NO, NO, YES], // BEGIN
    [NO, NO, YES, YES, NO, NO, NO, NO, NO, NO], // READ
    [NO, NO, YES, NO, NO, NO, NO, NO, NO, NO], // END
    [YES, YES, NO, NO, NO, NO, NO, NO, NO, NO], // BEAT
    [YES, YES, NO, NO, NO, YES, NO, NO, NO, NO], // DELIVER
];

// Of each field, whether the code row + 1 uses it. The whole row, so that the table is looked into once for an event.
pub fn used(row: usize) -> [bool; 10]
    requires { row < 10 }
    ensures { result ≡ used_by row }
{
    USES[row]
}

// Of each field, whether its bytes are zero.
pub fn zero(e: &EventBytes) -> [bool; 10]
    ensures { result ≡ zero_in e.now }
{
    [
        u8::load(e, 1) == 0,
        u8::load(e, 2) == 0,
        u8::load(e, 3) == 0,
        u8::load(e, 4) == 0,
        u8::load(e, 5) == 0,
        u8::load(e, 6) == 0,
        u8::load(e, 7) == 0,
        u64::load(e, 8) == 0,
        u32::load(e, 16) == 0,
        u64::load(e, 20) == 0,
    ]
}

// R33: page keys beyond the count are zero. Most events have no page keys at all.
pub fn rest_zero(e: &EventBytes) -> bool
    ensures { result ≡ rest_zero e.now }
{
    if u64::load(e, 20) == 0 {
        return true;
    }
    let count = u8::load(e, 7) as usize;
    let mut all = true;
    for i in 0..8 {
        all &= (i < count) | (u8::load(e, 20 + i) == 0);
    }
    all
}
