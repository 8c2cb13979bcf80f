// The dock's entries (document 01, "A run"): the dock "holds one record and lends it to be changed; that entry gives what the by-value
// call gives". They are called from C and Rust (include/glasspuddle.h). An entry of an open run writes back rows, closing turns done and phase:
// no call changes the others (proofs/Keeping.antt). It assumes nothing.
#![tactic(auto)]

ghost use Rattle.std.specs.Prelude.{◌≡◌, []};
ghost use Rattle.announce.specs.Announced.{announced};
ghost use Rattle.announce.specs.Conditions.{Answers};
ghost use Rattle.dock.specs.Lent.{Tells, Replies, IsRun, strange_reply, lent_open, lent_row, lent_close, lent_drain, written_back, Gives, Lends};

use announce::Checked;
use limits::{Refusal, STREAMS_MOST};
use monitor::{Answer, Phase, Run};

// The record as C lays it out: `monitor::Run` with its phase as a byte.
#[repr(C)]
#[derive(Clone, Copy)]
pub struct Record {
    pub look: [u16; STREAMS_MOST],
    pub kept: [u16; STREAMS_MOST],
    pub rows: u32,
    pub done: u16,
    pub phase: u8,
}

// What an entry tells beside the record: the number and the place of a refusal or 0 and 0, and the bytes written.
#[repr(C)]
#[derive(Clone, Copy)]
pub struct Told {
    pub number: u8,
    pub place: usize,
    pub count: usize,
}

// What a call by value hands back: the record, and what is told.
#[derive(Clone, Copy)]
pub struct Reply {
    pub held: Record,
    pub told: Told,
}

// What came of a run's call.
impl From<Result<usize, Refusal>> for Told {
    ghost from_gives = { Tells };

    fn from(outcome: Result<usize, Refusal>) -> Told {
        match outcome {
            Ok(count) => Told {
                number: limits::ACCEPTED,
                place: 0,
                count,
            },
            Err(refusal) => Told {
                number: u8::from(refusal.fault),
                place: refusal.place,
                count: 0,
            },
        }
    }
}

// The answer of a run's call, its record as C lays it out.
impl From<Answer> for Reply {
    ghost from_gives = { Replies };

    fn from(answer: Answer) -> Reply {
        let run = answer.run;
        let look = run.look;
        let kept = run.kept;
        let held = Record {
            look,
            kept,
            rows: run.rows,
            done: run.done,
            phase: u8::from(run.phase),
        };
        Reply {
            held,
            told: Told::from(answer.outcome),
        }
    }
}

// The calls by value over this record: the run's own, where the byte is a phase.
impl Record {
    fn run(self) -> Option<Run>
        ensures { IsRun self result }
    {
        let Ok(phase) = Phase::try_from(self.phase) else {
            return None;
        };
        let look = self.look;
        let kept = self.kept;
        Some(Run {
            look,
            kept,
            rows: self.rows,
            phase,
            done: self.done,
        })
    }

    // A byte that is no phase is "not a record of this table". "Every call tests the table first."
    fn strange(self, table: &[u8]) -> Reply
        ensures { result ≡ strange_reply table.now self }
    {
        Reply {
            held: self,
            told: Told::from(Err(monitor::foreign(table))),
        }
    }

    fn row(self, table: &[u8], store: &mut [u32], row: &[u32], out: &mut [u8]) -> Reply
        ensures { Gives (lent_row table.now self row.now store.old out.old) result store.new
            out.new }
    {
        match self.run() {
            Some(run) => Reply::from(run.row(table, store, row, out)),
            None => self.strange(table),
        }
    }

    fn close(self, table: &[u8]) -> Reply
        ensures { Gives (lent_close table.now self) result [] [] }
    {
        match self.run() {
            Some(run) => Reply::from(run.close(table)),
            None => self.strange(table),
        }
    }

    fn drain(self, table: &[u8], store: &mut [u32], out: &mut [u8]) -> Reply
        ensures { Gives (lent_drain table.now self store.old out.old) result store.new out.new }
    {
        match self.run() {
            Some(run) => Reply::from(run.drain(table, store, out)),
            None => self.strange(table),
        }
    }
}

// Opening has no record to take.
fn opened(table: &[u8], store: &mut [u32]) -> Reply
    ensures { Gives (lent_open table.now store.old) result store.new [] }
{
    Reply::from(monitor::open(table, store))
}

// What the check announces of a table.
#[unsafe(no_mangle)]
pub extern "C" fn glasspuddle_check(table: &[u8]) -> Checked
    ensures { (result ≡ announced table.now) × Answers table.now result }
{
    announce::check(table)
}

// Opens a run. The record is filled and not read: what lay there changes nothing. It is filled field by field, as the other entries write back:
// so none of them writes the byte of padding behind the phase. (antt has the word `record` for its own, hence «record».)
#[unsafe(no_mangle)]
pub extern "C" fn glasspuddle_open(record: &mut Record, table: &[u8], store: &mut [u32]) -> Told
    ensures { Lends (lent_open table.now store.old) «record».new result store.new [] }
{
    let reply = opened(table, store);
    let look = reply.held.look;
    let kept = reply.held.kept;
    record.look = look;
    record.kept = kept;
    record.rows = reply.held.rows;
    record.done = reply.held.done;
    record.phase = reply.held.phase;
    reply.told
}

// Writes back what a call of an open run may change.
fn hand_back(record: &mut Record, reply: Reply) -> Told
    ensures { («record».new ≡ written_back «record».old reply.held) × (result ≡ reply.told) }
{
    record.rows = reply.held.rows;
    record.done = reply.held.done;
    record.phase = reply.held.phase;
    reply.told
}

// Takes a row: "A row call is turn j, for the j-th accepted row, counted from 0."
#[unsafe(no_mangle)]
pub extern "C" fn glasspuddle_row(
    record: &mut Record,
    table: &[u8],
    store: &mut [u32],
    row: &[u32],
    out: &mut [u8],
) -> Told
    ensures { Lends (lent_row table.now «record».old row.now store.old out.old)
        «record».new result store.new out.new }
{
    let held = *record;
    hand_back(record, held.row(table, store, row, out))
}

// Closes the run: "Closing fixes N".
#[unsafe(no_mangle)]
pub extern "C" fn glasspuddle_close(record: &mut Record, table: &[u8]) -> Told
    ensures { Lends (lent_close table.now «record».old) «record».new result [] [] }
{
    let held = *record;
    hand_back(record, held.close(table))
}

// A closing turn: "draining calls are turns N, N+1 and so on".
#[unsafe(no_mangle)]
pub extern "C" fn glasspuddle_drain(
    record: &mut Record,
    table: &[u8],
    store: &mut [u32],
    out: &mut [u8],
) -> Told
    ensures { Lends (lent_drain table.now «record».old store.old out.old)
        «record».new result store.new out.new }
{
    let held = *record;
    hand_back(record, held.drain(table, store, out))
}
