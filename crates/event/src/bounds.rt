// The range of each field, whether its code uses it or not: refusal 11's numbers. In order: page keys, all ten fields. It touches nothing.
ghost use Rattle.std.specs.Prelude.{◌≡◌};
ghost use Rattle.protocol.specs.Meaning.{setting_of};
ghost use Rattle.event.specs.Ranges.{keys_below, in_range};

use crate::Fields;
use protocol::limits;
use protocol::limits::Setting;

// The keys below the count, of the eight that there are, are 0 to 63.
fn keys_lawful(keys: [u8; 8], count: u8) -> bool
    ensures { result ≡ keys_below keys count }
{
    let n = usize::from(count.min(8));
    let mut all = true;
    for i in 0..n {
        all &= keys[i] < 64;
    }
    all
}

// A test for each field, in the order of the table of flags.
pub fn in_range(x: Fields, setting: Setting) -> [bool; 10]
    ensures { result ≡ in_range (setting_of setting) x }
{
    let keys = x.keys;
    [
        x.site < setting.sites,
        x.partition < setting.partitions,
        x.session < 16,
        x.key < 64,
        x.quality < 3,
        (x.from < setting.sites) & (x.from != x.site),
        (0 < x.count) & (x.count <= 8),
        x.time < limits::TIMES,
        limits::level_lawful(x.level),
        keys_lawful(keys, x.count),
    ]
}
