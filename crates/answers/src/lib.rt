// The text of rows and of closing turns, on lent slices (document 01, "The program"): the answers of the calls, as lines.
#![tactic(auto)]

ghost use Rattle.std.specs.Prelude.{◌≡◌, ◌+◌, ◌*◌, ◌≤◌, ◌<◌, length};
ghost use Rattle.basis.specs.Written.{Wrote};
ghost use Rattle.limits.specs.Limits.{most_streams};
ghost use Rattle.records.specs.Kinds.{most_text};
ghost use Rattle.monitor.specs.Refusals.{is_draining_of};
ghost use Rattle.answers.specs.Words.{words_at};
ghost use Rattle.answers.specs.Rows.{Fits, outcome_text, begun, after_row, after_rows, after_drain, after_drains, Reached, Drains, Taken};

use limits::Refusal;
use monitor::{Phase, Run};

// A run has fewer closing turns, since a look-ahead has 16 bits: the count only ends the loop.
const TURNS_MOST: usize = 65536;

// A run after a turn, and where its text ends.
#[derive(Clone, Copy)]
struct Turned {
    run: Run,
    at: usize,
}

// A run after some rows, how many they are, the bytes that they took, and where their text ends.
#[derive(Clone, Copy)]
pub struct Fed {
    pub run: Run,
    pub rows: usize,
    pub used: usize,
    pub at: usize,
}

// A run after some closing turns, how many they are, and where their text ends.
#[derive(Clone, Copy)]
pub struct Drained {
    pub run: Run,
    pub turns: usize,
    pub at: usize,
}

// The words of a row, as many as are lent.
fn row_words(row: &[u8], words: &mut [u32])
    requires { 4 * length words.old ≤ length row.now }
    ensures { words.new ≡ words_at row.now 0 (length words.old) }
{
    for i in 0..words.len() {
        words[i] = wire::word_at(row, 4 * i);
    }
}

// A line for each record that the call wrote, or the line of its refusal.
fn put_answer(outcome: Result<usize, Refusal>, out: &[u8], text: &mut [u8], at: usize) -> usize
    requires { Fits outcome out.now text.old at }
    ensures { Wrote text.old at (outcome_text outcome out.now) text.new result }
{
    match outcome {
        Ok(count) => records::put_lines(out, count, text, at),
        Err(refusal) => {
            lines::put_refusal_line(text, at, u8::from(refusal.fault), refusal.place)
        }
    }
}

// The lines of a row of so many words, or of its refusal.
fn answer_row(
    run: Run,
    table: &[u8],
    store: &mut [u32],
    row: &[u8],
    inputs: usize,
    text: &mut [u8],
    at: usize,
) -> Turned
    requires { (4 * inputs ≤ length row.now) × (inputs < most_streams) × (at + most_text ≤ length text.old) }
    ensures { Reached (after_row table.now (words_at row.now 0 inputs) (begun run store.old))
        result.run store.new text.old at text.new result.at }
{
    let mut words = [0u32; limits::STREAMS_MOST];
    let mut out = [0u8; records::ROOM_MOST];
    let words = &mut words[..inputs];
    row_words(row, words);
    let answer = run.row(table, store, words, &mut out);
    let end = put_answer(answer.outcome, &out, text, at);
    Turned {
        run: answer.run,
        at: end,
    }
}

// Rows from the front of the input: as many as are there, whole, and as the text has room for.
pub fn answer_rows(
    run: Run,
    table: &[u8],
    store: &mut [u32],
    input: &[u8],
    inputs: usize,
    text: &mut [u8],
) -> Fed
    requires { (1 ≤ inputs) × (inputs < most_streams) × (most_text ≤ length text.old) }
    ensures reached { Reached (after_rows table.now input.now inputs result.rows (begun run store.old))
        result.run store.new text.old 0 text.new result.at }
    ensures taken { Taken input.now inputs result.rows result.used }
{
    let mut latest = run;
    let mut rows = 0;
    let mut used = 0;
    let mut at = 0;
    for row in input.chunks_exact(4 * inputs) {
        if text.len() - at < records::TEXT_MOST {
            break;
        }
        let turned = answer_row(latest, table, store, row, inputs, text, at);
        latest = turned.run;
        at = turned.at;
        used += row.len();
        rows += 1;
    }
    Fed {
        run: latest,
        rows,
        used,
        at,
    }
}

// Whether closing turns are left.
pub fn is_draining(run: Run) -> bool
    ensures { result ≡ is_draining_of run.phase }
{
    run.phase == Phase::Draining
}

// The lines of one closing turn.
fn drain_turn(run: Run, table: &[u8], store: &mut [u32], text: &mut [u8], at: usize) -> Turned
    requires { at + most_text ≤ length text.old }
    ensures { Reached (after_drain table.now (begun run store.old))
        result.run store.new text.old at text.new result.at }
{
    let mut out = [0u8; records::ROOM_MOST];
    let answer = run.drain(table, store, &mut out);
    let end = put_answer(answer.outcome, &out, text, at);
    Turned {
        run: answer.run,
        at: end,
    }
}

// Closing turns: as many as there are and as the text has room for.
pub fn drain_turns(run: Run, table: &[u8], store: &mut [u32], text: &mut [u8]) -> Drained
    requires { most_text ≤ length text.old }
    ensures reached { Reached (after_drains table.now result.turns (begun run store.old))
        result.run store.new text.old 0 text.new result.at }
    ensures drains { Drains table.now result.turns (begun run store.old) }
{
    let mut latest = run;
    let mut at = 0;
    for turns in 0..TURNS_MOST {
        if !is_draining(latest) || text.len() - at < records::TEXT_MOST {
            return Drained {
                run: latest,
                turns,
                at,
            };
        }
        let turned = drain_turn(latest, table, store, text, at);
        latest = turned.run;
        at = turned.at;
    }
    Drained {
        run: latest,
        turns: TURNS_MOST,
        at,
    }
}
