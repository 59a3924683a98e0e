// The reader: it holds the event bytes and its place in them together. The work is in `piece`, on the bytes and a number; `event_of`, whose
// parameters are plain, serves every caller. In order: the piece, the reader, the event at a place.

#![tactic(auto)]

ghost use Rattle.std.specs.Prelude.{◌≡◌};
ghost use Rattle.reader.specs.Pieces.{piece_of};

// The bytes, and how many pieces of them stand before the place. Not `chunks(32)`: the scope paper names this form (docs/DECISIONS.md).
#[derive(Drop)]
pub struct Reader<'a> {
    pub events: &'a [u8],
    pub place: usize,
}

// Piece i: 32 bytes, fewer at the end, none beyond it.
fn piece(events: &[u8], i: usize) -> &[u8]
    ensures { result.now ≡ piece_of events.now i }
{
    let n = events.len();
    if n / 32 < i {
        return &events[0..0];
    }
    let from = 32 * i;
    let end = from + (n - from).min(32);
    &events[from..end]
}

pub fn at<'a>(events: &'a [u8], place: usize) -> Reader<'a>
    ensures { (result.events ≡ events.entry) × (result.place ≡ place) }
{
    Reader { events, place }
}

// The event at the reader's place.
pub fn event<'a>(r: Reader<'a>) -> &'a [u8]
    ensures { result.now ≡ piece_of r.entry.events.now r.entry.place }
{
    piece(r.events, r.place)
}

// The event at a place of the bytes.
pub fn event_of(events: &[u8], place: usize) -> &[u8]
    ensures { result.now ≡ piece_of events.now place }
{
    event(at(events, place))
}
