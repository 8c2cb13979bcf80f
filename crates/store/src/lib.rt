// The lent store (document 01, "A run"): all code that reads or writes its words. `types`, `look` and `kept` hold a number for each of the
// 32 streams, 0 past the last. It assumes nothing.
#![tactic(auto)]

ghost use Rattle.std.specs.Prelude.{◌≡◌, ◌%◌, ◌≤◌, ◌<◌, length, get_or, set};
ghost use Rattle.value.specs.Values.{reading_of, image_of};
ghost use Rattle.store.specs.Store.{part_of, lap_for, Placeable, Findable, place_in, cleared_of, lent_in, CanLay, Framed};

use limits::STREAMS_MOST;
use value::Value;

// What a turn needs of a stream's part of the store, worked out once. `lap` is where the lap before that of the newest position starts: every
// position that the store holds lies less than two laps past it, so that no slot needs a division. `start` is the part's first word, `kept` the
// number of its words, `kind` the stream's type.
#[derive(Clone, Copy)]
pub struct Part {
    pub lap: u32,
    pub start: u32,
    pub kept: u32,
    pub kind: u8,
}

// A part of which nothing is known.
pub const NO_PART: Part = Part {
    lap: 0,
    start: 0,
    kept: 0,
    kind: 0,
};

// A turn's frame: each stream's part, the rows known, the position of the equation that is evaluated, and the number of words lent.
#[derive(Clone, Copy)]
pub struct Frame {
    pub parts: [Part; STREAMS_MOST],
    pub known: u32,
    pub position: u32,
    pub lent: usize,
}

// "word p mod n of its part". A division takes longer than the test.
fn slot_of(q: u32, n: u32) -> u32
    requires { 0 < n }
    ensures { result ≡ q % n }
{
    if n == 1 { 0 } else { q % n }
}

// Where the lap before that of the position q starts, or 0 where q lies in the first: n positions are a lap.
fn lap_before(q: u32, n: u32) -> u32
    requires { 0 < n }
    ensures { result ≡ lap_for q n }
{
    let lap = q - slot_of(q, n);
    if lap < n { lap } else { lap - n }
}

// The word for the position q of the stream v: as far as it lies past the lap, less a whole lap where that is more. A choice and not a branch, since
// on which side a reference falls changes from row to row, and no processor foresees it.
fn place(frame: &Frame, v: usize, q: u32) -> usize
    requires { Placeable frame.now v q }
    ensures { result ≡ place_in frame.now v q }
{
    let part = &frame.parts[v];
    let far = q - part.lap;
    let n = part.kept;
    let slot = if far < n { far } else { far - n };
    (slot + part.start) as usize
}

// The value of the stream v for the position q.
pub fn read(store: &[u32], frame: &Frame, v: usize, q: u32) -> Value
    requires { Findable frame.now (length store.now) v q }
    ensures { result ≡ reading_of (part_of frame.now v).kind (get_or store.now (place_in frame.now v q) 0) }
{
    value::reading(frame.parts[v].kind, store[place(frame, v, q)])
}

// Puts the value x of the stream v for the position q. The image comes first, since the other order costs two instructions a value.
pub fn write(store: &mut [u32], frame: &Frame, v: usize, q: u32, x: Value)
    requires { Findable frame.now (length store.old) v q }
    ensures { store.new ≡ set store.old (place_in frame.now v q) (image_of x) }
{
    let w = value::image(x);
    let i = place(frame, v, q);
    store[i] = w;
}

// The word that the store has of the stream v for the position q.
pub fn word(store: &[u32], frame: &Frame, v: usize, q: u32) -> u32
    requires { Findable frame.now (length store.now) v q }
    ensures { result ≡ get_or store.now (place_in frame.now v q) 0 }
{
    store[place(frame, v, q)]
}

// "Opening puts 0 into exactly the announced store words."
pub fn clear(store: &mut [u32], words: usize)
    requires { words ≤ length store.old }
    ensures { store.new ≡ cleared_of words store.old }
{
    store[..words].fill(0);
}

// The frame of turn t over a store of `words` words, where `known` rows are known. The running sum of the kept numbers is where a part starts.
// A part is written field by field: put together and written at once, the bytes between its fields are written too.
pub fn lay(
    types: &[u8; STREAMS_MOST],
    look: &[u16; STREAMS_MOST],
    kept: &[u16; STREAMS_MOST],
    streams: usize,
    known: u64,
    t: u64,
    words: usize,
    frame: &mut Frame,
)
    requires { CanLay kept.now streams known }
    ensures { Framed types.now look.now kept.now streams known t frame.new × (lent_in frame.new ≡ words) }
{
    let mut start = 0;
    for v in 0..streams {
        let ahead = u64::from(look[v]);
        let n = u32::from(kept[v]);
        let part = &mut frame.parts[v];
        if ahead <= t {
            let p = if t < known + ahead {
                t - ahead
            } else {
                known - 1
            };
            part.lap = lap_before(p as u32, n);
        }
        part.start = start;
        part.kept = n;
        part.kind = types[v];
        start += n;
    }
    frame.known = known as u32;
    frame.lent = words;
}
