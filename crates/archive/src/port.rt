// What C and Rust call, by the exports of crate archive_c: slices and numbers in, an answer's five values out.
ghost use Rattle.std.specs.Prelude.{◌≡◌};
ghost use Rattle.steps.specs.Run.{ran};
ghost use Rattle.archive.specs.Call.{setup_call, step_call};
ghost use Rattle.archive.specs.Run.{pieces_of, run_call};
ghost use Rattle.archive.specs.Port.{Returned};

use protocol::Values;

pub fn level_archive_setup(table: &mut [u8], sites: u32, partitions: u32) -> Values
    ensures { Returned result table.new (setup_call table.old sites partitions) }
{
    Values::from(crate::setup(table, sites, partitions))
}

pub fn level_archive_step(table: &mut [u8], event: &[u8]) -> Values
    ensures { Returned result table.new (step_call table.old event.now) }
{
    Values::from(crate::step(table, event))
}

pub fn level_archive_run(table: &mut [u8], events: &[u8], answers: &mut [u8]) -> usize
    ensures { (result ≡ pieces_of events.now answers.old) × (ran table.new answers.new ≡ run_call table.old events.now answers.old) }
{
    crate::run(table, events, answers)
}
