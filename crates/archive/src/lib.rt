// The level archive over one lent table of 57,344 bytes, for any event bytes and any table: no function here requires anything. Each states its answer
// and the bytes afterwards as one equation. In order: setup, a step, many steps; `port` has them for callers in C and Rust.

#![tactic(auto)]

ghost use Rattle.std.specs.Prelude.{◌≡◌, ◌+◌, ◌/◌, min, length};
ghost use Rattle.steps.specs.Step.{gives};
ghost use Rattle.steps.specs.Run.{ran};
ghost use Rattle.archive.specs.Call.{setup_call, step_call};
ghost use Rattle.archive.specs.Run.{pieces_of, run_call};

use codec::Number;
use protocol::{Answer, Reason};
use steps::runs;

pub mod port;

// R10: exactly 57,344 bytes
pub const TABLE: usize = 57344;

// Makes everything empty with clocks and vectors 0, for 1 to 4 sites and partitions; any bytes may lie in the table before.
pub fn setup(table: &mut [u8], sites: u32, partitions: u32) -> Answer
    ensures { gives result table.new ≡ setup_call table.old sites partitions }
{
    if table.len() != TABLE {
        return Answer::from(Reason::WrongLength);
    }
    if !(lawful::number_lawful(sites) & lawful::number_lawful(partitions)) {
        return Answer::from(Reason::UnlawfulField);
    }
    table.fill(0);
    (sites as u8).store(table, 0);
    (partitions as u8).store(table, 1);
    Answer::Done
}

// One event. The whole table is checked first; `run` checks it once for many.
pub fn step(table: &mut [u8], event: &[u8]) -> Answer
    ensures { gives result table.new ≡ step_call table.old event.now }
{
    if table.len() != TABLE {
        return Answer::from(Reason::WrongLength);
    }
    if event.len() != 32 {
        return Answer::from(Reason::WrongLength);
    }
    if !lawful::well_formed(table) {
        return Answer::from(Reason::IllFormed);
    }
    steps::step(table, event)
}

// How many pieces of 32 bytes there are, of which the last may be shorter, as far as there are places for answers of 16 bytes.
fn pieces_for(events: usize, answers: usize) -> usize
    ensures { result ≡ min ((events + 31) / 32) (answers / 16) }
{
    events.div_ceil(32).min(answers / 16)
}

// Many events: what `step` gives one by one, with each answer in 16 bytes. The number of events that were answered is given back.
pub fn run(table: &mut [u8], events: &[u8], answers: &mut [u8]) -> usize
    ensures { (result ≡ pieces_of events.now answers.old) × (ran table.new answers.new ≡ run_call table.old events.now answers.old) }
{
    let n = pieces_for(events.len(), answers.len());
    if table.len() != TABLE {
        runs::refuse_all(events, answers, n, Reason::WrongLength);
        return n;
    }
    if !lawful::well_formed(table) {
        runs::refuse_all(events, answers, n, Reason::IllFormed);
        return n;
    }
    runs::run(table, events, answers, n);
    n
}
