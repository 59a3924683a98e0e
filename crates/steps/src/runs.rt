// Many events on a table known to be well formed: it stays so, so it is not checked again. A clause says so and no type: a struct with a `&mut` would have
// to say in each function that it keeps its reference. The reader gives each event in turn. In order: one piece, and
// all; the same of a table that is refused.
ghost use Rattle.std.specs.Prelude.{◌≡◌, ℕ, ◌+◌, ◌*◌, ◌≤◌, List, T, length};
ghost use Rattle.table.specs.Parts.{Whole};
ghost use Rattle.lawful.specs.WellFormed.{well_formed};
ghost use Rattle.steps.specs.Step.{gives};
ghost use Rattle.steps.specs.Run.{ran, piece_answered, run_by, piece_call, piece_refused};

use crate::answers;
use protocol::{Answer, Reason};

// A piece of the event bytes: all but the last have 32 bytes.
fn piece(t: &mut [u8], e: &[u8]) -> Answer
    requires { Whole t.old × T (well_formed t.old) }
    ensures { gives result t.new ≡ piece_call t.old e.now }
{
    if e.len() == 32 {
        crate::step(t, e)
    } else {
        Answer::from(Reason::WrongLength)
    }
}

// Piece i, and its answer.
fn answer_piece(t: &mut [u8], es: &[u8], b: &mut [u8], i: usize)
    requires { Whole t.old × T (well_formed t.old) × (16 * i + 16 ≤ length b.old) }
    ensures { ran t.new b.new ≡ piece_answered piece_call i t.old es.now b.old }
{
    let a = piece(t, reader::event_of(es, i));
    answers::store_answer(b, 16 * i, a);
}

// The first n pieces.
pub fn run(t: &mut [u8], es: &[u8], b: &mut [u8], n: usize)
    requires { Whole t.old × T (well_formed t.old) × (16 * n ≤ length b.old) }
    ensures { ran t.new b.new ≡ run_by piece_call n t.old es.now b.old }
{
    for i in 0..n {
        answer_piece(t, es, b, i);
    }
}

// Piece i of a table that is refused for the reason. A piece of another length than 32 is refused for that.
fn refuse_piece(es: &[u8], b: &mut [u8], i: usize, reason: Reason)
    requires { 16 * i + 16 ≤ length b.old }
    ensures { (t : List ℕ) → ran t b.new ≡ piece_answered (piece_refused reason) i t es.now b.old }
{
    let e = reader::event_of(es, i);
    let met = if e.len() == 32 {
        reason
    } else {
        Reason::WrongLength
    };
    answers::store_answer(b, 16 * i, Answer::from(met));
}

// The first n pieces of a table that is refused for the reason.
pub fn refuse_all(es: &[u8], b: &mut [u8], n: usize, reason: Reason)
    requires { 16 * n ≤ length b.old }
    ensures { (t : List ℕ) → ran t b.new ≡ run_by (piece_refused reason) n t es.now b.old }
{
    for i in 0..n {
        refuse_piece(es, b, i, reason);
    }
}
