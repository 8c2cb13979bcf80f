// The output of a turn (document 01, "A run"): records 50 and 51. A writer takes the place where it starts and answers the place behind.
// `frame` is that of the turn, `known` the number of rows known.
#![tactic(auto)]

ghost use Rattle.std.specs.Prelude.{length};
ghost use Rattle.basis.specs.Written.{Wrote};
ghost use Rattle.output.specs.Encoding.{CanGive, Gives, CanEmit, Emits};

use limits::STREAMS_MOST;
use store::Frame;

// What the stream y gives on turn t: "a trigger stream's true value is followed by record 51".
fn give(
    store: &[u32],
    out: &mut [u8],
    roles: &[u8; STREAMS_MOST],
    look: &[u16; STREAMS_MOST],
    frame: &Frame,
    known: u64,
    t: u64,
    y: usize,
    at: usize,
) -> usize
    requires { CanGive roles.now look.now frame.now (length store.now) (length out.old) known t y at }
    ensures { Gives roles.now look.now frame.now store.now known t y
        (λ bytes. Wrote out.old at bytes out.new result) }
{
    let ahead = u64::from(look[y]);
    if t < ahead {
        return at;
    }
    let position = t - ahead;
    if known <= position {
        return at;
    }
    let place = position as u32;
    let word = store::word(store, frame, y, place);
    let stream = y as u8;
    let next = records::put_value(out, at, stream, place, word);
    if roles[y] == 1 && word != 0 {
        return records::put_trigger(out, next, stream, place);
    }
    next
}

// The outputs' values of turn t, in stream order; answers the number of bytes.
pub fn emit(
    store: &[u32],
    out: &mut [u8],
    roles: &[u8; STREAMS_MOST],
    look: &[u16; STREAMS_MOST],
    frame: &Frame,
    inputs: usize,
    streams: usize,
    known: u64,
    t: u64,
) -> usize
    requires { CanEmit roles.now look.now frame.now (length store.now) (length out.old) known t inputs streams }
    ensures { Emits roles.now look.now frame.now store.now known t inputs streams
        out.old out.new result }
{
    let mut count = 0;
    for y in inputs..streams {
        count = give(store, out, roles, look, frame, known, t, y, count);
    }
    count
}
