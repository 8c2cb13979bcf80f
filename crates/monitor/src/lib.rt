// A run (document 01, "A run"): its record and the calls open, row, close and drain, for every argument.
// It assumes nothing.
#![tactic(auto)]

ghost use Rattle.std.specs.Prelude.{◌≡◌, ◌+◌, ◌≤◌, ◌<◌, ◌&&◌, true, false, eqb, ltb, length, MatchOption, MatchResult};
ghost use Rattle.limits.specs.Limits.{most_streams};
ghost use Rattle.limits.specs.Refusals.{foreign_record};
ghost use Rattle.prepare.specs.PlanFor.{first_bad_of};
ghost use Rattle.prepare.specs.Preparing.{brief_by};
ghost use Rattle.monitor.specs.Phases.{IsPhase, HasByte};
ghost use Rattle.monitor.specs.Refusals.{fault, told, tested, after_table, record_agrees_of};
ghost use Rattle.monitor.specs.Refusals.{row_tests_of, drain_tests_of, close_tests_of, turn_tests};
ghost use Rattle.monitor.specs.Turns.{Turned, TurnFits, TurnReady, known_rows_of, Took, Summed};
ghost use Rattle.monitor.specs.Calls.{answered, ended, zero_run, closed_phase_of, drained_phase_of};
ghost use Rattle.monitor.specs.Calls.{open_call, row_call_of, close_call, drain_call_of, Leaves, Opens};

use limits::{Fault, Refusal, STREAMS_MOST};
use node::{ENTRIES, KINDS_MOST};
use prepare::Prepared;
use store::{Frame, NO_PART};

// The phases, by the bytes that C has for them.
#[derive(Clone, Copy, Debug, PartialEq, Eq)]
pub enum Phase {
    Reading = 0,
    Draining = 1,
    Over = 2,
}

// A byte that is no phase.
#[derive(Clone, Copy, Debug, PartialEq, Eq)]
pub struct UnknownPhase(pub u8);

// The phase of a byte.
impl TryFrom<u8> for Phase {
    type Error = UnknownPhase;

    ghost try_from_gives = { IsPhase };

    fn try_from(byte: u8) -> Result<Self, UnknownPhase> {
        match byte {
            0 => Ok(Phase::Reading),
            1 => Ok(Phase::Draining),
            2 => Ok(Phase::Over),
            _ => Err(UnknownPhase(byte)),
        }
    }
}

// The byte of a phase.
impl From<Phase> for u8 {
    ghost from_gives = { HasByte };

    fn from(phase: Phase) -> u8 {
        phase as u8
    }
}

// The record: "each stream's look-ahead and kept number (0 past S), the rows taken, the phase and closing turns done".
#[derive(Clone, Copy)]
pub struct Run {
    pub look: [u16; STREAMS_MOST],
    pub kept: [u16; STREAMS_MOST],
    pub rows: u32,
    pub phase: Phase,
    pub done: u16,
}

// What a call hands back: the record, and the bytes written or the refusal.
#[derive(Clone, Copy)]
pub struct Answer {
    pub run: Run,
    pub outcome: Result<usize, Refusal>,
}

// Which turn a call takes: of a row, or one after the last row.
#[derive(Clone, Copy)]
enum Turn {
    Row,
    Closing,
}

// What came of a turn: the bytes written and the closing turns announced.
#[derive(Clone, Copy)]
struct Taken {
    count: usize,
    closing: u16,
}

// "the check and opening give an all-zero one, phase reading".
fn unopened() -> Run
    ensures { result ≡ zero_run }
{
    Run {
        look: [0; STREAMS_MOST],
        kept: [0; STREAMS_MOST],
        rows: 0,
        phase: Phase::Reading,
        done: 0,
    }
}

// Whether the rows are within the limit, which is the largest number of their type, and the phase agrees.
#[tactic(auto, unfolding(crate::specs::Refusals::record_agrees_of, crate::specs::Refusals::phase_agrees))]
fn record_agrees(phase: Phase, rows: u32, done: u16, closing: u16) -> bool
    ensures { result ≡ record_agrees_of phase rows done closing }
{
    match phase {
        Phase::Reading => done == 0,
        Phase::Draining => 0 < rows && done < closing,
        Phase::Over => done == if rows == 0 { 0 } else { closing },
    }
}

// "input flag word above 1".
fn is_bad(kind: u8, word: u32) -> bool
    ensures { result ≡ eqb kind 0 && ltb 1 word }
{
    kind == node::FLAG && 1 < word
}

// The first input whose word is bad.
#[tactic(auto, using(crate::proofs::Tests::one_input, crate::proofs::Tests::none_bad))]
fn first_bad(row: &[u32], types: &[u8; STREAMS_MOST], inputs: usize) -> Option<usize>
    requires { (inputs ≤ most_streams) × (inputs ≤ length row.now) }
    ensures { MatchOption result (first_bad_of types.now row.now inputs 0 ≡ inputs)
        (λ bad. (bad < inputs) × (first_bad_of types.now row.now inputs 0 ≡ bad)) }
{
    for i in 0..inputs {
        if is_bad(types[i], row[i]) {
            return Some(i);
        }
    }
    None
}

// Why a call is refused whose record has not the numbers of an accepted table of these bytes: the table's own fault, or "not a record of this
// table".
pub fn foreign(table: &[u8]) -> Refusal
    ensures { told result ≡ after_table table.now (fault foreign_record 0) }
{
    match announce::check_table(table) {
        Ok(_) => Fault::ForeignRecord.at(0),
        Err(refusal) => refusal,
    }
}

// Turn t, where `known` rows are known: the store, then the output; the number of bytes.
fn turn_out(
    kinds: &[[u8; ENTRIES]; KINDS_MOST],
    prepared: Prepared,
    look: &[u16; STREAMS_MOST],
    kept: &[u16; STREAMS_MOST],
    types: &[u8; STREAMS_MOST],
    roles: &[u8; STREAMS_MOST],
    starts: &[u16; STREAMS_MOST],
    order: &[u8; STREAMS_MOST],
    table: &[u8],
    store: &mut [u32],
    row: &[u32],
    out: &mut [u8],
    known: u64,
    t: u64,
) -> usize
    requires { TurnFits kinds.now table.now look.now kept.now (brief_by prepared types.now roles.now starts.now order.now)
        known t (length row.now) (length store.old) (length out.old) }
    ensures { Turned table.now known t row.now store.old out.old
        store.new out.new result }
{
    let inputs = prepared.inputs;
    let streams = prepared.streams;
    let mut frame = Frame {
        parts: [NO_PART; STREAMS_MOST],
        known: 0,
        position: 0,
        lent: 0,
    };
    evaluate::turn(
        table, kinds, store, row, types, look, kept, starts, order, &mut frame, inputs, streams,
        known, t,
    );
    output::emit(store, out, roles, look, &frame, inputs, streams, known, t)
}

// Opens a run: the check, then the store's announced words put to 0.
fn opened(table: &[u8], store: &mut [u32]) -> Result<Run, Refusal>
    ensures { Opens (open_call table.now store.old) (ended zero_run result) store.new }
{
    let announced = announce::check_table(table)?;
    if store.len() < announced.words {
        return Err(Fault::ShortStore.at(0));
    }
    store::clear(store, announced.words);
    let look = announced.look;
    let kept = announced.kept;
    Ok(Run {
        look,
        kept,
        ..unopened()
    })
}

// Opens a run. A refusal hands back an all-zero record.
pub fn open(table: &[u8], store: &mut [u32]) -> Answer
    ensures { Opens (open_call table.now store.old) (answered result) store.new }
{
    match opened(table, store) {
        Ok(run) => Answer {
            run,
            outcome: Ok(0),
        },
        Err(refusal) => Answer {
            run: unopened(),
            outcome: Err(refusal),
        },
    }
}

// "Closing fixes N; with N = 0 or no closing turns the run is over".
#[tactic(auto, unfolding(crate::specs::Calls::closed_phase_of))]
fn closed_phase(rows: u32, closing: u16) -> Phase
    ensures { result ≡ closed_phase_of rows closing }
{
    if rows == 0 || closing == 0 {
        Phase::Over
    } else {
        Phase::Draining
    }
}

// The phase after the closing turn that makes `done` of them.
#[tactic(auto, unfolding(crate::specs::Calls::drained_phase_of))]
fn drained_phase(done: u16, closing: u16) -> Phase
    ensures { result ≡ drained_phase_of done closing }
{
    if done < closing {
        Phase::Draining
    } else {
        Phase::Over
    }
}

// The rows known in a turn: those taken before, and a row call's own.
fn known_rows(turn: Turn, rows: u32) -> u64
    ensures { result ≡ known_rows_of turn rows }
{
    match turn {
        Turn::Row => u64::from(rows) + 1,
        Turn::Closing => u64::from(rows),
    }
}

impl Run {
    // "not a record of this table", where its numbers are the announced ones.
    fn test_record(&self, closing: u16) -> Result<(), Refusal>
        ensures { MatchResult result (λ _. record_agrees_of self.now.phase self.now.rows self.now.done closing ≡ true)
            (λ e. (record_agrees_of self.now.phase self.now.rows self.now.done closing ≡ false)
            × (told e ≡ fault foreign_record 0)) }
    {
        if record_agrees(self.phase, self.rows, self.done, closing) {
            Ok(())
        } else {
            Err(Fault::ForeignRecord.at(0))
        }
    }

    // "a row with 10 to 16 in order".
    #[tactic(auto, unfolding(crate::specs::Refusals::row_refusal, crate::specs::Refusals::is_reading_of))]
    fn test_row(
        &self,
        prepared: Prepared,
        types: &[u8; STREAMS_MOST],
        lent: usize,
        row: &[u32],
        space: usize,
    ) -> Result<(), Refusal>
        requires { prepared.inputs ≤ most_streams }
        ensures { tested result ≡ row_tests_of self.now prepared types.now lent row.now space }
    {
        self.test_record(prepared.closing)?;
        if lent < prepared.words {
            return Err(Fault::ShortStore.at(0));
        }
        if self.phase != Phase::Reading {
            return Err(Fault::WrongPhase.at(0));
        }
        if limits::ROWS_MOST <= self.rows {
            return Err(Fault::RowLimit.at(0));
        }
        if row.len() != prepared.inputs {
            return Err(Fault::RowLength.at(0));
        }
        if let Some(bad) = first_bad(row, types, prepared.inputs) {
            return Err(Fault::WrongFlag.at(bad));
        }
        if space < prepared.room {
            return Err(Fault::ShortOutput.at(0));
        }
        Ok(())
    }

    // "draining with 10, 11, 12, 16".
    #[tactic(auto, unfolding(crate::specs::Refusals::drain_refusal, crate::specs::Refusals::is_draining_of))]
    fn test_drain(&self, prepared: Prepared, lent: usize, space: usize) -> Result<(), Refusal>
        ensures { tested result ≡ drain_tests_of self.now prepared lent space }
    {
        self.test_record(prepared.closing)?;
        if lent < prepared.words {
            return Err(Fault::ShortStore.at(0));
        }
        if self.phase != Phase::Draining {
            return Err(Fault::WrongPhase.at(0));
        }
        if space < prepared.room {
            return Err(Fault::ShortOutput.at(0));
        }
        Ok(())
    }

    // The tests of a turn's call, by what is prepared: of a row, or of a closing turn.
    fn test_turn(
        &self,
        turn: Turn,
        prepared: Prepared,
        types: &[u8; STREAMS_MOST],
        lent: usize,
        row: &[u32],
        space: usize,
    ) -> Result<(), Refusal>
        requires { prepared.inputs ≤ most_streams }
        ensures { tested result ≡ turn_tests turn self.now prepared types.now lent row.now space }
    {
        match turn {
            Turn::Row => self.test_row(prepared, types, lent, row, space),
            Turn::Closing => self.test_drain(prepared, lent, space),
        }
    }

    // A turn by what is prepared: its tests, then the store and the output.
    fn turn_by(
        &self,
        turn: Turn,
        kinds: &[[u8; ENTRIES]; KINDS_MOST],
        prepared: Prepared,
        types: &[u8; STREAMS_MOST],
        roles: &[u8; STREAMS_MOST],
        starts: &[u16; STREAMS_MOST],
        order: &[u8; STREAMS_MOST],
        table: &[u8],
        store: &mut [u32],
        row: &[u32],
        out: &mut [u8],
    ) -> Result<Taken, Refusal>
        requires { TurnReady self.now kinds.now table.now (brief_by prepared types.now roles.now starts.now order.now) }
        ensures { Took turn table.now self.now row.now store.old out.old
            store.new out.new result }
    {
        self.test_turn(turn, prepared, types, store.len(), row, out.len())?;
        let known = known_rows(turn, self.rows);
        let t = u64::from(self.rows) + u64::from(self.done);
        let count = turn_out(
            kinds, prepared, &self.look, &self.kept, types, roles, starts, order, table, store,
            row, out, known, t,
        );
        Ok(Taken {
            count,
            closing: prepared.closing,
        })
    }

    // The next turn, of a row or a closing one: "Every call tests the table first."
    fn take_turn(
        &self,
        turn: Turn,
        table: &[u8],
        store: &mut [u32],
        row: &[u32],
        out: &mut [u8],
    ) -> Result<Taken, Refusal>
        ensures { Took turn table.now self.now row.now store.old out.old
            store.new out.new result }
    {
        let kinds = node::kind_table();
        let mut types = [0u8; STREAMS_MOST];
        let mut roles = [0u8; STREAMS_MOST];
        let mut starts = [0u16; STREAMS_MOST];
        let mut order = [0u8; STREAMS_MOST];
        let Some(prepared) = prepare::prepare(
            table,
            &kinds,
            &self.look,
            &self.kept,
            &mut types,
            &mut roles,
            &mut starts,
            &mut order,
        ) else {
            return Err(foreign(table));
        };
        self.turn_by(
            turn, &kinds, prepared, &types, &roles, &starts, &order, table, store, row, out,
        )
    }

    // Takes a row: turn j for the j-th accepted row.
    pub fn row(self, table: &[u8], store: &mut [u32], row: &[u32], out: &mut [u8]) -> Answer
        ensures { Leaves (row_call_of table.now self row.now store.old out.old)
            (answered result) store.new out.new }
    {
        match self.take_turn(Turn::Row, table, store, row, out) {
            Ok(taken) => {
                let run = Run {
                    rows: self.rows + 1,
                    phase: Phase::Reading,
                    done: 0,
                    ..self
                };
                Answer {
                    run,
                    outcome: Ok(taken.count),
                }
            }
            Err(refusal) => Answer {
                run: self,
                outcome: Err(refusal),
            },
        }
    }

    // A closing turn: turns N, N+1 and so on.
    pub fn drain(self, table: &[u8], store: &mut [u32], out: &mut [u8]) -> Answer
        ensures { Leaves (drain_call_of table.now self store.old out.old)
            (answered result) store.new out.new }
    {
        match self.take_turn(Turn::Closing, table, store, &[], out) {
            Ok(taken) => {
                let done = self.done + 1;
                let run = Run {
                    phase: drained_phase(done, taken.closing),
                    done,
                    ..self
                };
                Answer {
                    run,
                    outcome: Ok(taken.count),
                }
            }
            Err(refusal) => Answer {
                run: self,
                outcome: Err(refusal),
            },
        }
    }

    // The sums by the record's numbers, for a call that has no turn.
    fn sums(&self, table: &[u8]) -> Option<Prepared>
        ensures { Summed table.now self.now.look self.now.kept result }
    {
        let kinds = node::kind_table();
        let mut types = [0u8; STREAMS_MOST];
        let mut roles = [0u8; STREAMS_MOST];
        let mut starts = [0u16; STREAMS_MOST];
        let mut order = [0u8; STREAMS_MOST];
        prepare::prepare(
            table,
            &kinds,
            &self.look,
            &self.kept,
            &mut types,
            &mut roles,
            &mut starts,
            &mut order,
        )
    }

    // "closing with 10, 12".
    #[tactic(auto, unfolding(crate::specs::Refusals::close_refusal, crate::specs::Refusals::is_reading_of))]
    fn test_close(&self, prepared: Prepared) -> Result<(), Refusal>
        ensures { tested result ≡ close_tests_of self.now prepared }
    {
        self.test_record(prepared.closing)?;
        if self.phase != Phase::Reading {
            return Err(Fault::WrongPhase.at(0));
        }
        Ok(())
    }

    // The record after closing: "Closing fixes N".
    fn closed(&self, table: &[u8]) -> Result<Run, Refusal>
        ensures { ended self.now result ≡ (close_call table.now self.now).answer }
    {
        let Some(prepared) = self.sums(table) else {
            return Err(foreign(table));
        };
        self.test_close(prepared)?;
        Ok(Run {
            phase: closed_phase(self.rows, prepared.closing),
            done: 0,
            ..*self
        })
    }

    // Closes the run: the rows taken are all there are.
    pub fn close(self, table: &[u8]) -> Answer
        ensures { answered result ≡ (close_call table.now self).answer }
    {
        match self.closed(table) {
            Ok(run) => Answer {
                run,
                outcome: Ok(0),
            },
            Err(refusal) => Answer {
                run: self,
                outcome: Err(refusal),
            },
        }
    }
}
