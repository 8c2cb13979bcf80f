// The scan of a table: what stands before the first equation, one equation, the whole table (document 01, "The table"; refusals 1 to 6
// and 9). `kinds` is the constant table by kind.
#![tactic(auto)]

ghost use Rattle.std.specs.Prelude.{◌≡◌, List, ℕ, ◌+◌, ◌-◌, ◌≤◌, ◌<◌, get_or, take, replicate};
ghost use Rattle.limits.specs.Faults.{Tested};
ghost use Rattle.limits.specs.Limits.{most_streams};
ghost use Rattle.node.specs.Kinds.{rule_of, many_kinds, Tabulated};
ghost use Rattle.expression.specs.Seen.{Seen};
ghost use Rattle.expression.specs.Scanning.{Scanning};
ghost use Rattle.table.specs.Records.{record_fault_of, type_rule_of, role_rule_of, head_fault_of, input_fault_of, output_fault_of, equation_fault_of};
ghost use Rattle.table.specs.Records.{declared, heads};
ghost use Rattle.table.specs.Table.{equation_at, equations_at_of, decode};
ghost use Rattle.table.specs.Answers.{Headings, CanScanEquation, CanScanEquations, Solves, Scans};

use expression::{SEEN_ENTRIES, SEEN_TYPE, Scanned};
use limits::{Fault, Refusal, STREAMS_MOST};
use node::{ENTRIES, KINDS_MOST};

// The kinds of the records that hold no expression.
pub const EDITION_KIND: u8 = 1;

pub const INPUT_KIND: u8 = 2;

pub const OUTPUT_KIND: u8 = 3;

pub const EQUATION_KIND: u8 = 4;

// A record of the kind `kind` stands at `at`, whole.
#[tactic(auto, unfolding(crate::specs::Records::record_fault_of))]
fn test_record(
    table: &[u8],
    kinds: &[[u8; ENTRIES]; KINDS_MOST],
    at: usize,
    kind: u8,
) -> Result<(), Fault>
    requires { (kind < many_kinds) × Tabulated kinds.now }
    ensures { Tested result (record_fault_of table.now at kind (rule_of kind).body) }
{
    if table.len() <= at {
        return Err(Fault::Missing);
    }
    if table[at] != kind {
        return Err(Fault::WrongKind);
    }
    let need = node::body_of(kinds, usize::from(kind));
    if table.len() - at <= need {
        return Err(Fault::Missing);
    }
    Ok(())
}

// A type.
#[tactic(auto, unfolding(crate::specs::Records::type_rule_of))]
fn test_type(t: u8) -> Result<(), Fault>
    ensures { Tested result (type_rule_of t) }
{
    if 2 < t {
        return Err(Fault::WrongField);
    }
    Ok(())
}

// The role of a stream of the type t; only a flag can be a trigger.
#[tactic(auto, unfolding(crate::specs::Records::role_rule_of))]
fn test_role(t: u8, role: u8) -> Result<(), Fault>
    ensures { Tested result (role_rule_of t role) }
{
    if 1 < role || (role != 0 && t != node::FLAG) {
        return Err(Fault::WrongField);
    }
    Ok(())
}

// The record before all others.
#[tactic(auto, using(crate::proofs::Faults::records), unfolding(crate::specs::Records::head_fault_of, node::specs::Node::first))]
fn test_head(table: &[u8], kinds: &[[u8; ENTRIES]; KINDS_MOST]) -> Result<(), Fault>
    requires { Tabulated kinds.now }
    ensures { Tested result (head_fault_of table.now) }
{
    test_record(table, kinds, 0, EDITION_KIND)?;
    let inputs = usize::from(table[2]);
    let outputs = usize::from(table[3]);
    if table[1] != 1 || inputs == 0 || outputs == 0 || STREAMS_MOST < inputs + outputs {
        return Err(Fault::WrongField);
    }
    Ok(())
}

// An input's record.
#[tactic(auto, using(crate::proofs::Faults::records), unfolding(crate::specs::Records::input_fault_of, node::specs::Node::first))]
fn test_input(table: &[u8], kinds: &[[u8; ENTRIES]; KINDS_MOST], at: usize) -> Result<(), Fault>
    requires { Tabulated kinds.now }
    ensures { Tested result (input_fault_of table.now at) }
{
    test_record(table, kinds, at, INPUT_KIND)?;
    test_type(table[at + 1])
}

// An output's record.
#[tactic(auto, using(crate::proofs::Faults::records), unfolding(crate::specs::Records::output_fault_of, node::specs::Node::first))]
fn test_output(table: &[u8], kinds: &[[u8; ENTRIES]; KINDS_MOST], at: usize) -> Result<(), Fault>
    requires { Tabulated kinds.now }
    ensures { Tested result (output_fault_of table.now at) }
{
    test_record(table, kinds, at, OUTPUT_KIND)?;
    let t = table[at + 1];
    test_type(t)?;
    test_role(t, table[at + 2])
}

// The record before the expression of the stream `stream`.
#[tactic(auto, using(crate::proofs::Faults::records), unfolding(crate::specs::Records::equation_fault_of, node::specs::Node::first))]
pub fn test_equation(
    table: &[u8],
    kinds: &[[u8; ENTRIES]; KINDS_MOST],
    at: usize,
    stream: usize,
) -> Result<(), Fault>
    requires { Tabulated kinds.now }
    ensures { Tested result (equation_fault_of table.now at stream) }
{
    test_record(table, kinds, at, EQUATION_KIND)?;
    if usize::from(table[at + 1]) != stream {
        return Err(Fault::WrongField);
    }
    Ok(())
}

// All that stands before the first equation, which starts at `place`.
#[derive(Clone, Copy)]
pub struct Heading {
    pub place: usize,
    pub inputs: usize,
    pub streams: usize,
}

// The streams' records. `types` and `roles` are lent as zeros, for the streams' types and roles.
fn scan_streams(
    table: &[u8],
    kinds: &[[u8; ENTRIES]; KINDS_MOST],
    inputs: usize,
    streams: usize,
    types: &mut [u8; STREAMS_MOST],
    roles: &mut [u8; STREAMS_MOST],
) -> Result<Heading, Refusal>
    requires { (inputs ≤ streams) × (streams ≤ most_streams) × (types.old ≡ replicate most_streams 0) × (roles.old ≡ replicate most_streams 0) × Tabulated kinds.now }
    ensures { Headings inputs (declared streams inputs 0 table.now 4) result types.new roles.new }
{
    let mut place = 4;
    for v in 0..inputs {
        test_input(table, kinds, place).map_err(|fault| fault.at(place))?;
        types[v] = table[place + 1];
        place += 2;
    }
    for y in inputs..streams {
        test_output(table, kinds, place).map_err(|fault| fault.at(place))?;
        types[y] = table[place + 1];
        roles[y] = table[place + 2];
        place += 3;
    }
    Ok(Heading {
        place,
        inputs,
        streams,
    })
}

// Everything before the first equation. `types` and `roles` are lent as zeros, for the streams' types and roles.
pub fn scan_heading(
    table: &[u8],
    kinds: &[[u8; ENTRIES]; KINDS_MOST],
    types: &mut [u8; STREAMS_MOST],
    roles: &mut [u8; STREAMS_MOST],
) -> Result<Heading, Refusal>
    requires { (types.old ≡ replicate most_streams 0) × (roles.old ≡ replicate most_streams 0) × Tabulated kinds.now }
    ensures { Headings (get_or table.now 2 0) (heads table.now) result types.new roles.new }
{
    if table.len() < limits::TABLE_LEAST || limits::TABLE_MOST < table.len() {
        return Err(Fault::TableLength.at(0));
    }
    test_head(table, kinds).map_err(|fault| fault.at(0))?;
    let inputs = usize::from(table[2]);
    let streams = inputs + usize::from(table[3]);
    scan_streams(table, kinds, inputs, streams, types, roles)
}

// The equation of the stream `y`, whose record is at `at`: the place behind its expression or its first fault. `seen` has a row for each
// stream, where the expression's references are noted.
pub fn scan_equation(
    table: &[u8],
    kinds: &[[u8; ENTRIES]; KINDS_MOST],
    seen: &mut [[u16; SEEN_ENTRIES]; STREAMS_MOST],
    y: usize,
    at: usize,
) -> Scanned
    requires { CanScanEquation kinds.now seen.old table.now y at }
    ensures { (ts : List ℕ) → Seen ts seen.old → Scanning (equation_at ts table.now y at)
        table.now ts seen.old seen.new result.code }
{
    if let Err(fault) = test_equation(table, kinds, at, y) {
        return Scanned::refused(fault, at);
    }
    let wanted = seen[y][SEEN_TYPE] as u8;
    expression::scan_expr(table, kinds, seen, wanted, at + 2)
}

// Where the expressions of some equations start, and the place behind the last.
#[derive(Clone, Copy)]
pub struct Solved {
    pub place: usize,
    pub starts: [u16; STREAMS_MOST],
}

// The equations of the streams from..streams, the first of them at `at`.
fn scan_equations(
    table: &[u8],
    kinds: &[[u8; ENTRIES]; KINDS_MOST],
    types: &[u8; STREAMS_MOST],
    from: usize,
    streams: usize,
    at: usize,
) -> Result<Solved, Refusal>
    requires { CanScanEquations kinds.now table.now types.now from streams at }
    ensures { Solves (replicate from 0)
        (equations_at_of (streams - from) from (take streams types.now) table.now at) result }
{
    let mut starts = [0u16; STREAMS_MOST];
    let mut seen = [expression::UNSEEN; STREAMS_MOST];
    expression::see(types, streams, &mut seen);
    let mut place = at;
    for y in from..streams {
        let end = scan_equation(table, kinds, &mut seen, y, place).outcome()?;
        starts[y] = (place + 2) as u16;
        place = end;
    }
    Ok(Solved { place, starts })
}

// What an accepted scan of a table gives: the inputs, the streams with their types and roles, where each output's expression starts.
#[derive(Clone, Copy)]
pub struct Scan {
    pub inputs: usize,
    pub streams: usize,
    pub types: [u8; STREAMS_MOST],
    pub roles: [u8; STREAMS_MOST],
    pub starts: [u16; STREAMS_MOST],
}

// The whole table.
pub fn scan_table(table: &[u8]) -> Result<Scan, Refusal>
    ensures { Scans (decode table.now) result }
{
    let kinds = node::kind_table();
    let mut types = [0u8; STREAMS_MOST];
    let mut roles = [0u8; STREAMS_MOST];
    let heading = scan_heading(table, &kinds, &mut types, &mut roles)?;
    let inputs = heading.inputs;
    let streams = heading.streams;
    let solved = scan_equations(table, &kinds, &types, inputs, streams, heading.place)?;
    if solved.place != table.len() {
        return Err(Fault::BytesAfter.at(solved.place));
    }
    let starts = solved.starts;
    Ok(Scan {
        inputs,
        streams,
        types,
        roles,
        starts,
    })
}
