// The bench (R90 to R92): events from standard input go into an archive of 4 sites and 4 partitions, and a line for each goes to standard output.
// In order: a line, the lines that are gathered for the output, the reading in pieces of 64 KiB. No contract can say what is read or written: a read
// that fails is the end of the input, and a write that fails goes unnoticed. `io` reads and writes and not `std::io`, which would rest on C's lseek and errno too.

#![tactic(auto)]

ghost use Rattle.std.specs.Prelude.{◌≡◌, ◌+◌, ◌*◌, ◌/◌, ◌^◌, ◌<◌, ◌≤◌, length};

use codec::Number;
use protocol::Values;
use std::fmt::{self, Write};

// The numbers of standard input and standard output.
const STDIN: i32 = 0;

const STDOUT: i32 = 1;

// The bytes of a buffer, for events or for lines.
const BUFFER: usize = 65536;

// The bytes of a full buffer's answers.
const ANSWERS: usize = 32768;

// The bytes of the longest line.
const LONGEST: usize = 70;

// The events of a full buffer, so that none is ever split between two.
const EVENTS: u64 = 2048;

// As many full buffers as leave every place in 64 bits.
const PIECES: u64 = u64::MAX / EVENTS;

// The line of an event: its place, its code and the answer's five values.
#[derive(Clone, Copy)]
struct Line {
    place: u64,
    code: u8,
    answer: Values,
}

impl fmt::Display for Line {
    // Most answers are a number with zeros after it.
    fn fmt<W: fmt::Write>(&self, f: &mut fmt::Formatter<W>) -> fmt::Result {
        let Line {
            place,
            code,
            answer: Values {
                number,
                source,
                quality,
                level,
                stamp,
            },
        } = *self;
        if source == 0 && quality == 0 && level == 0 && stamp == 0 {
            return write!(f, "{place} {code} {number} 0 0 0 0");
        }
        write!(
            f,
            "{place} {code} {number} {source} {quality} {level} {stamp}"
        )
    }
}

// The values in an answer's 16 bytes.
fn values_in(answer: &[u8]) -> Values
    requires { length answer.now ≡ 16 }
{
    Values {
        number: answer[0],
        source: answer[1],
        quality: answer[2],
        level: codec::load_level(answer, 4),
        stamp: u64::load(answer, 8),
    }
}

// Lines gathered for standard output, to which they go in large pieces.
#[derive(Drop)]
struct Lines {
    bytes: [u8; BUFFER],
    filled: usize,
    ghost within: { filled ≤ length bytes },
}

impl Lines {
    fn new() -> Lines {
        Lines {
            bytes: [0; BUFFER],
            filled: 0,
        }
    }

    fn flush(&mut self) {
        io::write_all(STDOUT, &self.bytes[..self.filled]);
        self.filled = 0;
    }

    // There is always room for the line, once the buffer is written out.
    fn add(&mut self, line: Line) {
        if self.bytes.len() - self.filled < LONGEST {
            self.flush();
        }
        let _ = writeln!(self, "{line}");
    }
}

// A text that does not fit is refused.
impl fmt::Write for Lines {
    fn write_str(&mut self, text: &str) -> fmt::Result {
        if self.bytes.len() - self.filled < text.len() {
            return Err(fmt::Error);
        }
        let end = self.filled + text.len();
        self.bytes[self.filled..end].copy_from_slice(text.as_bytes());
        self.filled = end;
        Ok(())
    }
}

// A line for each answer, where `before` events came before these.
#[tactic(auto, using(reader::proofs::Pieces::length_piece))]
fn add_lines(lines: &mut Lines, events: &[u8], answers: &[u8], before: u64)
    requires events { 2 * length answers.now ≤ length events.now }
    requires places { before + length answers.now / 16 < 2 ^ 64 }
{
    for (i, answer) in answers.chunks_exact(16).enumerate() {
        let event = reader::event_of(events, i);
        lines.add(Line {
            place: before + 1 + i as u64,
            code: event[0],
            answer: values_in(answer),
        });
    }
    lines.flush();
}

#[tactic(auto, unfolding(archive::specs::Run::pieces_of))]
fn main() {
    let mut table = [0; archive::TABLE];
    let mut buffer = [0; BUFFER];
    let mut answers = [0; ANSWERS];
    let mut lines = Lines::new();
    archive::setup(&mut table, 4, 4);
    for piece in 0..PIECES {
        let filled = io::read_full(STDIN, &mut buffer);
        let (events, left) = buffer[..filled].split_at(filled - filled % 32);
        let count = archive::run(&mut table, events, &mut answers);
        add_lines(&mut lines, events, &answers[..16 * count], EVENTS * piece);
        if !left.is_empty() {
            let _ = writeln!(lines, "cut {}", left.len());
            lines.flush();
        }
        if filled < buffer.len() {
            return;
        }
    }
}
