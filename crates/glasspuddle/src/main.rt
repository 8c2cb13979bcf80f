// The program (document 01, "The program"): it reads a piece of input, lets `feed` make text of it, and writes the text. A failed read or
// write stops it, with a message and no further line.
#![tactic(auto)]

ghost use Rattle.std.specs.Prelude.{◌≡◌, true, List, ℕ, ◌+◌, ◌≤◌, ◌<◌, ◌^◌, length, is_ok, IfOk, OnOk};
ghost use Rattle.records.specs.Kinds.{most_text};
ghost use Rattle.feed.specs.Stands.{reading, Lent, Standing};
ghost use Rattle.glasspuddle.specs.Written.{Took, Written};
ghost use Rattle.glasspuddle.specs.Program.{Reached, Taken, Heard, Rested, Answered};

use feed::State;
use std::io;
use std::io::{ErrorKind, IsTerminal, Read, Write};
use std::rt::Clock;

// The bytes of one read.
const PIECE_MOST: usize = 65536;

// Why the program stopped. A loop has to end: `Endless` is one that made 2^64 - 1 tries to read, and says nothing.
#[derive(Clone, Copy)]
enum Failure {
    Reading,
    CutOff,
    Endless,
    Writing,
}

impl Failure {
    fn message(self) -> &'static [u8] {
        match self {
            Failure::Reading => b"glasspuddle: reading failed\n",
            Failure::CutOff => b"glasspuddle: reading failed: the input was cut off\n",
            Failure::Endless => b"",
            Failure::Writing => b"glasspuddle: writing failed\n",
        }
    }
}

// What the program is connected to: its input, which was a terminal when it began or was none, its output, and the clock by which it waits.
#[derive(Drop)]
struct Ends<I, O, C> {
    input: I,
    was_terminal: bool,
    output: O,
    clock: C,
}

// Whether a call that failed may be made again: it was interrupted before it moved a byte, or nothing was ready. Then it waits a moment.
fn again(clock: &impl Clock, error: io::Error) -> bool {
    match error.kind() {
        ErrorKind::Interrupted => true,
        ErrorKind::WouldBlock => {
            wait::pause(clock);
            true
        }
        _ => false,
    }
}

// Puts all of the text to a writer. A loop has to end: this one does after 2^64 - 1 tries.
fn put<O: Write>(to: &mut O, clock: &impl Clock, text: &[u8]) -> Result<(), Failure>
    ensures { Written (is_ok result) (O.contents to.old) (O.contents to.new) text.now }
{
    let mut done: usize = 0;
    for _ in 0..u64::MAX {
        if done == text.len() {
            break;
        }
        match to.write(&text[done..]) {
            Ok(0) => return Err(Failure::Writing),
            Ok(n) => done += n,
            Err(error) => {
                if !again(clock, error) {
                    return Err(Failure::Writing);
                }
            }
        }
    }
    if done == text.len() {
        Ok(())
    } else {
        Err(Failure::Writing)
    }
}

// One read: the number of bytes, 0 at the end of the input. A terminal that hung up, and is none any more, was cut off there.
fn read_some<I: Read + IsTerminal, O, C: Clock>(
    ends: &mut Ends<I, O, C>,
    input: &mut [u8],
) -> Result<usize, Failure>
    ensures read { Took result (I.remaining ends.old.input) (I.remaining ends.new.input) input.new }
    ensures output { ends.new.output ≡ ends.old.output }
{
    for _ in 0..u64::MAX {
        match ends.input.read(input) {
            Ok(n) => {
                if n == 0 && ends.was_terminal && !ends.input.is_terminal() {
                    return Err(Failure::CutOff);
                }
                return Ok(n);
            }
            Err(error) => {
                if !again(&ends.clock, error) {
                    return Err(Failure::Reading);
                }
            }
        }
    }
    Err(Failure::Endless)
}

// The lines of one piece of input.
fn take_piece<I, O: Write, C: Clock>(
    ends: &mut Ends<I, O, C>,
    state: State,
    table: &mut [u8],
    store: &mut [u32],
    part: &mut [u8],
    piece: &[u8],
    text: &mut [u8],
) -> Result<State, Failure>
    requires { Standing state table.old store.old part.old × (state.read + length piece.now < 2 ^ 64) × (most_text ≤ length text.old) }
    ensures standing { IfOk result (λ y. Standing y table.new store.new part.new) }
    ensures read_lt_read { IfOk result (λ y. reading state.stage ≡ true → 0 < length piece.now → state.read < y.read) }
    ensures taken { Reached result (λ fine y. Taken fine state table.old store.old part.old piece.now y table.new store.new part.new
        (O.contents ends.old.output) (O.contents ends.new.output)) }
    ensures input { ends.new.input ≡ ends.old.input }
{
    let mut latest = state;
    let mut used: usize = 0;
    while used < piece.len() && feed::reads_on(latest) {
        let advance = feed::step(latest, table, store, part, &piece[used..], text);
        latest = advance.state;
        put(&mut ends.output, &ends.clock, &text[..advance.at])?;
        used += advance.used;
    }
    Ok(latest)
}

// The lines of the input, read piece by piece: whoever feeds the program row by row is answered row by row. Nothing says that the input
// ends, and a loop has to: this one stops below 2^64 bytes.
fn take_input<I: Read + IsTerminal, O: Write, C: Clock>(
    ends: &mut Ends<I, O, C>,
    table: &mut [u8],
    store: &mut [u32],
    part: &mut [u8],
    input: &mut [u8],
    text: &mut [u8],
) -> Result<State, Failure>
    requires { Lent table.old store.old part.old × (length input.old ≡ 65536) × (most_text ≤ length text.old) }
    ensures standing { IfOk result (λ y. Standing y table.new store.new part.new) }
    ensures heard { Reached result (λ fine y. Heard fine y table.new store.new part.new (I.remaining ends.old.input) (I.remaining ends.new.input)
        (O.contents ends.old.output) (O.contents ends.new.output)) }
{
    let mut latest = feed::begin();
    while feed::reads_on(latest) && latest.read <= usize::MAX - PIECE_MOST {
        let n = read_some(ends, input)?;
        if n == 0 {
            return Ok(latest);
        }
        latest = take_piece(ends, latest, table, store, part, &input[..n], text)?;
    }
    Ok(latest)
}

// The lines behind the end of the input.
fn give_rest<I, O: Write, C: Clock>(
    ends: &mut Ends<I, O, C>,
    state: State,
    table: &[u8],
    store: &mut [u32],
    text: &mut [u8],
) -> Result<(), Failure>
    requires { ((part : List ℕ) × Standing state table.now store.old part) × (most_text ≤ length text.old) }
    ensures { Rested (is_ok result) state table.now store.old (O.contents ends.old.output) (O.contents ends.new.output) }
{
    let ended = feed::end(state, table, text);
    put(&mut ends.output, &ends.clock, &text[..ended.at])?;
    let mut left = ended.left;
    while let Some(turning) = left {
        let more = feed::finish(turning, table, store, text);
        left = more.left;
        put(&mut ends.output, &ends.clock, &text[..more.at])?;
    }
    Ok(())
}

// Answers the input.
fn answer<I: Read + IsTerminal, O: Write, C: Clock>(
    ends: &mut Ends<I, O, C>,
    table: &mut [u8],
    store: &mut [u32],
    part: &mut [u8],
    input: &mut [u8],
    text: &mut [u8],
) -> Result<(), Failure>
    requires { Lent table.old store.old part.old × (length input.old ≡ 65536) × (most_text ≤ length text.old) }
    ensures { Answered (is_ok result) (I.remaining ends.old.input) (O.contents ends.old.output) (O.contents ends.new.output) }
{
    let state = take_input(ends, table, store, part, input, text)?;
    give_rest(ends, state, table, store, text)
}

// Answers the input, and says why where it could not.
fn run<I: Read + IsTerminal, O: Write, M: Write, C: Clock>(
    ends: &mut Ends<I, O, C>,
    messages: &mut M,
    table: &mut [u8],
    store: &mut [u32],
    part: &mut [u8],
    input: &mut [u8],
    text: &mut [u8],
) -> Result<(), Failure>
    requires { Lent table.old store.old part.old × (length input.old ≡ 65536) × (most_text ≤ length text.old) }
    ensures answered { Answered (is_ok result) (I.remaining ends.old.input) (O.contents ends.old.output) (O.contents ends.new.output) }
    ensures quiet { OnOk result (messages.new ≡ messages.old) }
{
    let answered = answer(ends, table, store, part, input, text);
    if let Err(failure) = answered {
        let _ = put(messages, &ends.clock, failure.message());
    }
    answered
}

fn main(rt: HostRuntime) {
    let was_terminal = rt.stdin().is_terminal();
    let mut messages = rt.stderr();
    let mut ends = Ends {
        input: rt.stdin(),
        was_terminal,
        output: rt.stdout(),
        clock: rt,
    };
    let mut table = [0u8; limits::TABLE_MOST];
    let mut store = [0u32; limits::STORE_MOST];
    let mut part = [0u8; feed::PART_MOST];
    let mut input = [0u8; PIECE_MOST];
    let mut text = [0u8; PIECE_MOST];
    let _ = run(
        &mut ends,
        &mut messages,
        &mut table,
        &mut store,
        &mut part,
        &mut input,
        &mut text,
    );
}
