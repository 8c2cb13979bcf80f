// The program on slices in memory (document 01, "The program"): how far it has come and the next bytes of its input in, its text and how
// far it has come then out. Reads and writes are the program's.
#![tactic(auto)]

ghost use Rattle.std.specs.Prelude.{◌≡◌, List, ℕ, ◌+◌, ◌≤◌, ◌<◌, ◌^◌, length, take};
ghost use Rattle.limits.specs.Limits.{most_table, most_streams, most_words};
ghost use Rattle.basis.specs.Written.{Wrote};
ghost use Rattle.lines.specs.Lines.{refusal_line};
ghost use Rattle.monitor.specs.Refusals.{told};
ghost use Rattle.records.specs.Kinds.{most_text};
ghost use Rattle.announce.specs.Announced.{announced};
ghost use Rattle.prepare.specs.PlanFor.{table_for};
ghost use Rattle.feed.specs.Head.{head_size, input_head, head_as};
ghost use Rattle.feed.specs.Printed.{row_size};
ghost use Rattle.feed.specs.Stands.{most_part, Held, advanced_to, Begins, Standing, Unfinished, reading};
ghost use Rattle.feed.specs.Stands.{FromHead, FromTable, FromRows, Steps, Closes, EndsIn, Finishes};

use limits::{Fault, Refusal};
use monitor::Run;

// "kind byte 60, two bytes of table length"
const KIND_TABLE: u8 = 0x60;

const HEAD_BYTES: usize = 3;

// A part row is held in so many bytes; so is the head.
pub const PART_MOST: usize = 4 * limits::STREAMS_MOST;

// What the program reads, and how many bytes of it it holds: the head; a table of so many bytes; a row of a table of so many bytes, in whose run
// it will be taken. Refused in the head or the table, it reads no further.
#[derive(Clone, Copy)]
pub enum Stage {
    Head { have: usize },
    Table { size: usize, have: usize },
    Rows { size: usize, have: usize, run: Run },
    Shut,
}

// How far the program has come: its stage, and the bytes read in all.
#[derive(Clone, Copy)]
pub struct State {
    pub stage: Stage,
    pub read: usize,
}

// How far it has come, the bytes taken from the piece of input, and where the text ends.
#[derive(Clone, Copy)]
pub struct Advance {
    pub state: State,
    pub used: usize,
    pub at: usize,
}

// The stage that follows one, the bytes taken from the piece of input, and where the text ends.
#[derive(Clone, Copy)]
struct Moved {
    stage: Stage,
    used: usize,
    at: usize,
}

// The run on a table of so many bytes that has closing turns or its last line left.
#[derive(Clone, Copy)]
pub struct Turning {
    pub size: usize,
    pub run: Run,
}

// Behind the end of the input: what is left, nothing where all is printed, and where the text ends.
#[derive(Clone, Copy)]
pub struct Ended {
    pub left: Option<Turning>,
    pub at: usize,
}

// Before the first byte.
pub fn begin() -> State
    ensures { Begins result }
{
    State {
        stage: Stage::Head { have: 0 },
        read: 0,
    }
}

// The table's length, where the bytes of the head say it.
#[tactic(auto, unfolding(crate::specs::Head::input_head, crate::specs::Head::length_of))]
fn head_of(head: &[u8]) -> Result<Option<usize>, Refusal>
    ensures { head_as result ≡ input_head head.now }
{
    if head.is_empty() {
        return Ok(None);
    }
    if head[0] != KIND_TABLE {
        return Err(Fault::WrongKind.at(0));
    }
    if head.len() < HEAD_BYTES {
        return Ok(None);
    }
    let length = usize::from(head[1]) + 256 * usize::from(head[2]);
    if length == 0 || limits::TABLE_MOST < length {
        return Err(Fault::TableLength.at(0));
    }
    Ok(Some(length))
}

// I, in an accepted table's first record.
fn inputs_of(table: &[u8]) -> usize
    requires { (announced table.now).number ≡ 0 }
    ensures { (result ≡ (table_for table.now).inputs) × (1 ≤ result) × (result < most_streams) }
{
    usize::from(table[2])
}

// The first n bytes of the piece, put behind the bytes that are held.
fn hold(held: &mut [u8], have: usize, piece: &[u8], n: usize)
    requires { (have + n ≤ length held.old) × (n ≤ length piece.now) }
    ensures { Held held.old have piece.now n held.new }
{
    held[have..have + n].copy_from_slice(&piece[..n]);
}

// The line of a refusal.
fn put_refusal(refusal: Refusal, text: &mut [u8]) -> usize
    requires { most_text ≤ length text.old }
    ensures { Wrote text.old 0 (refusal_line (told refusal).number (told refusal).place) text.new result }
{
    lines::put_refusal_line(text, 0, u8::from(refusal.fault), refusal.place)
}

// One byte of the head.
fn take_head(have: usize, part: &mut [u8], piece: &[u8], text: &mut [u8]) -> Moved
    requires { (have < head_size) × (length part.old ≡ most_part) × (0 < length piece.now) × (most_text ≤ length text.old) }
    ensures { FromHead part.old have piece.now result part.new text.new }
{
    hold(part, have, piece, 1);
    match head_of(&part[..have + 1]) {
        Ok(None) => Moved {
            stage: Stage::Head { have: have + 1 },
            used: 1,
            at: 0,
        },
        Err(refusal) => Moved {
            stage: Stage::Shut,
            used: 1,
            at: put_refusal(refusal, text),
        },
        Ok(Some(size)) => Moved {
            stage: Stage::Table { size, have: 0 },
            used: 1,
            at: 0,
        },
    }
}

// Bytes of the table; with the last of them it is opened.
fn take_table(
    size: usize,
    have: usize,
    table: &mut [u8],
    store: &mut [u32],
    piece: &[u8],
    text: &mut [u8],
) -> Moved
    requires { (have < size) × (size ≤ most_table) × (length table.old ≡ most_table) × (length store.old ≡ most_words)
        × (0 < length piece.now) × (most_text ≤ length text.old) }
    ensures { FromTable table.old size have piece.now result table.new store.new text.new }
{
    let n = piece.len().min(size - have);
    hold(table, have, piece, n);
    if have + n < size {
        return Moved {
            stage: Stage::Table {
                size,
                have: have + n,
            },
            used: n,
            at: 0,
        };
    }
    let opened = monitor::open(&table[..size], store);
    match opened.outcome {
        Ok(_) => Moved {
            stage: Stage::Rows {
                size,
                have: 0,
                run: opened.run,
            },
            used: n,
            at: 0,
        },
        Err(refusal) => Moved {
            stage: Stage::Shut,
            used: n,
            at: put_refusal(refusal, text),
        },
    }
}

// Whole rows of the piece, where no part of a row is held; else bytes of a row, which is answered with the last of them.
fn take_rows(
    run: Run,
    size: usize,
    have: usize,
    table: &[u8],
    store: &mut [u32],
    part: &mut [u8],
    piece: &[u8],
    text: &mut [u8],
) -> Moved
    requires { (size ≤ length table.now) × ((announced (take size table.now)).number ≡ 0) × (have < row_size (table_for (take size table.now)))
        × (length part.old ≡ most_part) × (0 < length piece.now) × (most_text ≤ length text.old) }
    ensures { FromRows run table.now store.old part.old size have piece.now result store.new part.new text.new }
{
    let inputs = inputs_of(&table[..size]);
    let row = 4 * inputs;
    if have == 0 && row <= piece.len() {
        let fed = answers::answer_rows(run, &table[..size], store, piece, inputs, text);
        return Moved {
            stage: Stage::Rows {
                size,
                have: 0,
                run: fed.run,
            },
            used: fed.used,
            at: fed.at,
        };
    }
    let n = piece.len().min(row - have);
    hold(part, have, piece, n);
    if have + n < row {
        return Moved {
            stage: Stage::Rows {
                size,
                have: have + n,
                run,
            },
            used: n,
            at: 0,
        };
    }
    let fed = answers::answer_rows(run, &table[..size], store, &part[..row], inputs, text);
    Moved {
        stage: Stage::Rows {
            size,
            have: 0,
            run: fed.run,
        },
        used: n,
        at: fed.at,
    }
}

fn advanced(read: usize, moved: Moved) -> Advance
    requires { read + moved.used < 2 ^ 64 }
    ensures { result ≡ advanced_to read moved }
{
    Advance {
        state: State {
            stage: moved.stage,
            read: read + moved.used,
        },
        used: moved.used,
        at: moved.at,
    }
}

// Takes bytes from the front of the piece, one at least, and writes what they give into the text.
pub fn step(
    state: State,
    table: &mut [u8],
    store: &mut [u32],
    part: &mut [u8],
    piece: &[u8],
    text: &mut [u8],
) -> Advance
    requires { Standing state table.old store.old part.old × (0 < length piece.now) × (state.read + length piece.now < 2 ^ 64) × (most_text ≤ length text.old) }
    ensures { Steps state table.old store.old part.old piece.now result table.new store.new part.new text.new }
{
    let read = state.read;
    match state.stage {
        Stage::Head { have } => advanced(read, take_head(have, part, piece, text)),
        Stage::Table { size, have } => {
            advanced(read, take_table(size, have, table, store, piece, text))
        }
        Stage::Rows { size, have, run } => advanced(
            read,
            take_rows(run, size, have, table, store, part, piece, text),
        ),
        Stage::Shut => advanced(
            read,
            Moved {
                stage: Stage::Shut,
                used: piece.len(),
                at: 0,
            },
        ),
    }
}

// Whether the program reads on.
pub fn reads_on(state: State) -> bool
    ensures { result ≡ reading state.stage }
{
    !matches!(state.stage, Stage::Shut)
}

// The end of the input: the line of what it stops in, and closing.
pub fn end(state: State, table: &[u8], text: &mut [u8]) -> Ended
    requires { ((store : List ℕ) × (part : List ℕ) × Standing state table.now store part) × (most_text ≤ length text.old) }
    ensures { EndsIn state table.now result text.new }
{
    match state.stage {
        Stage::Head { .. } | Stage::Table { .. } => Ended {
            left: None,
            at: lines::put_stop_line(text, 0, state.read as u64),
        },
        Stage::Rows { size, have, run } => close(run, state.read, size, have, table, text),
        Stage::Shut => Ended { left: None, at: 0 },
    }
}

// "A part row gives `s n`, then closing goes on."
fn close(run: Run, read: usize, size: usize, have: usize, table: &[u8], text: &mut [u8]) -> Ended
    requires { (size ≤ length table.now) × (most_text ≤ length text.old) }
    ensures { Closes run read size have table.now result text.new }
{
    let closed = run.close(&table[..size]);
    let left = Turning {
        size,
        run: closed.run,
    };
    let at = if have == 0 {
        0
    } else {
        lines::put_stop_line(text, 0, read as u64)
    };
    Ended {
        left: Some(left),
        at,
    }
}

// Some closing turns, one at least; behind them the last line.
pub fn finish(turning: Turning, table: &[u8], store: &mut [u32], text: &mut [u8]) -> Ended
    requires { Unfinished turning table.now store.old × (most_text ≤ length text.old) }
    ensures { Finishes turning table.now store.old result store.new text.new }
{
    let size = turning.size;
    let run = turning.run;
    if answers::is_draining(run) {
        let drained = answers::drain_turns(run, &table[..size], store, text);
        let left = Turning {
            size,
            run: drained.run,
        };
        return Ended {
            left: Some(left),
            at: drained.at,
        };
    }
    Ended {
        left: None,
        at: lines::put_end_line(text, 0, run.rows),
    }
}
