// The archive for callers in C and Rust: the static library's three functions, each of which is `archive::port`'s and promises the same.

#![tactic(auto)]

ghost use Rattle.std.specs.Prelude.{◌≡◌};
ghost use Rattle.steps.specs.Run.{ran};
ghost use Rattle.archive.specs.Call.{setup_call, step_call};
ghost use Rattle.archive.specs.Run.{pieces_of, run_call};
ghost use Rattle.archive.specs.Port.{Returned};

use archive::port;
use protocol::Values;

#[unsafe(no_mangle)]
pub extern "C" fn level_archive_setup(table: &mut [u8], sites: u32, partitions: u32) -> Values
    ensures { Returned result table.new (setup_call table.old sites partitions) }
{
    port::level_archive_setup(table, sites, partitions)
}

#[unsafe(no_mangle)]
pub extern "C" fn level_archive_step(table: &mut [u8], event: &[u8]) -> Values
    ensures { Returned result table.new (step_call table.old event.now) }
{
    port::level_archive_step(table, event)
}

#[unsafe(no_mangle)]
pub extern "C" fn level_archive_run(table: &mut [u8], events: &[u8], answers: &mut [u8]) -> usize
    ensures { (result ≡ pieces_of events.now answers.old) × (ran table.new answers.new ≡ run_call table.old events.now answers.old) }
{
    port::level_archive_run(table, events, answers)
}
