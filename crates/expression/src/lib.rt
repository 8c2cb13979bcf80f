// The scan of an expression: the place behind it or its first fault, and its references noted by the way. One scan serves the check and
// the calls. `seen` has a row for each stream, `kinds` is the constant table by kind.
#![tactic(auto)]

ghost use Rattle.std.specs.Prelude.{◌≡◌, true, false, List, ℕ, ◌+◌, ◌*◌, ◌/◌, ◌%◌, ◌≤◌, ◌<◌, leb, length, take};
ghost use Rattle.basis.specs.Notes.{rising, falling};
ghost use Rattle.limits.specs.Faults.{number_for};
ghost use Rattle.limits.specs.Limits.{most_streams, most_levels};
ghost use Rattle.node.specs.declared.Node.TheVariants.{Constant, Now, At};
ghost use Rattle.node.specs.Node.{is_leaf_of, standing};
ghost use Rattle.expression.specs.Grammar.{parse};
ghost use Rattle.expression.specs.Seen.{Seen, unseen, fresh};
ghost use Rattle.expression.specs.Scanning.{places, other_fault_of, answered, Outcome, Raised, Noting, CanNote, LeafScanned, CanScan, Scanning};

use limits::{Fault, Refusal, STREAMS_MOST};
use node::{ENTRIES, KINDS_MOST, Node};

// What a scan keeps of each stream, a row of an array by stream: its type, and the notes of the largest and of the smallest weight of the
// references to it. The last entry is not used: an index into rows of four is a shift.
pub const SEEN_TYPE: usize = 0;

pub const SEEN_RISE: usize = 1;

pub const SEEN_FALL: usize = 2;

pub const SEEN_ENTRIES: usize = 4;

// What stands for the type of a stream past the last one.
pub const NO_TYPE: u16 = 255;

// A row past the last stream, and of no stream yet: nothing is noted.
pub const UNSEEN: [u16; SEEN_ENTRIES] = [NO_TYPE, 0, 0, 0];

// Puts the types of the first `streams` streams into rows that are all unseen.
pub fn see(
    types: &[u8; STREAMS_MOST],
    streams: usize,
    seen: &mut [[u16; SEEN_ENTRIES]; STREAMS_MOST],
)
    requires { (streams ≤ most_streams) × (length types.now ≡ most_streams) × (seen.old ≡ unseen) }
    ensures { seen.new ≡ fresh (take streams types.now) }
{
    for v in 0..streams {
        seen[v][SEEN_TYPE] = u16::from(types[v]);
    }
}

// The notes of the weight 0, to reckon with.
const RISE_OF_ZERO: i16 = limits::RISE_OF_ZERO as i16;

const FALL_OF_ZERO: i16 = limits::FALL_OF_ZERO as i16;

// The note of an offset, a number from 1 on, in rising order.
pub fn rising_of(k: i8) -> u16
    ensures { result ≡ rising k }
{
    (i16::from(k) + RISE_OF_ZERO) as u16
}

// The same in falling order.
fn falling_of(k: i8) -> u16
    ensures { result ≡ falling k }
{
    (FALL_OF_ZERO - i16::from(k)) as u16
}

// Raises the entry i of the row v to x, if it is less.
fn raise(seen: &mut [[u16; SEEN_ENTRIES]; STREAMS_MOST], v: usize, i: usize, x: u16)
    requires { (v < most_streams) × (i < 4) }
    ensures { Raised v i x seen.old seen.new }
{
    if seen[v][i] < x {
        seen[v][i] = x;
    }
}

// Notes a reference to the stream v: `rise` and `fall` are the notes of its weight.
fn note(seen: &mut [[u16; SEEN_ENTRIES]; STREAMS_MOST], v: usize, rise: u16, fall: u16)
    requires { v < most_streams }
    ensures { Noting v rise fall seen.old seen.new }
{
    raise(seen, v, SEEN_RISE, rise);
    raise(seen, v, SEEN_FALL, fall);
}

// The fault of a reference to a stream that is not of the wanted type: there is no such stream, or it is of the type t.
fn other_fault(t: u16) -> Fault
    ensures { number_for result ≡ other_fault_of t }
{
    if t == NO_TYPE {
        Fault::WrongField
    } else {
        Fault::WrongType
    }
}

// A scan's answer is one number: the place behind what was scanned; or, so many places further for each number, the place of a fault.
const PLACES: usize = 65536;

pub fn refused(number: u8, place: usize) -> usize
    requires { place < places }
    ensures { result ≡ number * places + place }
{
    usize::from(number) * PLACES + place
}

// Whether an answer is a fault, its number and its place.
pub fn refuses(answer: usize) -> bool
    ensures { result ≡ leb places answer }
{
    PLACES <= answer
}

pub fn number_of(answer: usize) -> u8
    requires { answer < 256 * places }
    ensures { result ≡ answer / places }
{
    (answer / PLACES) as u8
}

pub fn place_of(answer: usize) -> usize
    ensures { result ≡ answer % places }
{
    answer % PLACES
}

// What a scan answers. It is that one number, since a Result costs the scan a tenth more instructions.
#[derive(Clone, Copy)]
pub struct Scanned {
    code: usize,
    ghost few: { code < 17 * places },
}

impl Scanned {
    // All was scanned, and `place` is behind it.
    fn behind(place: usize) -> Scanned
        requires { place < places }
        ensures { result.code ≡ place }
    {
        Scanned { code: place }
    }

    // A fault at `place`.
    pub fn refused(fault: Fault, place: usize) -> Scanned
        requires { place < places }
        ensures { result.code ≡ number_for fault * places + place }
    {
        Scanned {
            code: refused(u8::from(fault), place),
        }
    }

    // Whether there is a fault.
    fn refuses(self) -> bool
        ensures { result ≡ leb places self.code }
    {
        refuses(self.code)
    }

    // The place behind, where there is no fault.
    fn place(self) -> usize
        requires { self.code < places }
        ensures { result ≡ self.code }
    {
        self.code
    }

    // The place behind, or the refusal.
    pub fn outcome(self) -> Result<usize, Refusal>
        ensures { Outcome self.code result }
    {
        match Fault::try_from(number_of(self.code)) {
            Ok(fault) => Err(fault.at(place_of(self.code))),
            Err(_) => Ok(self.code),
        }
    }
}

// The nodes without operands, each at `at` and with its body ending at `next`: `next`, or the first fault.
fn scan_constant(t: u8, word: u32, wanted: u8, at: usize, next: usize) -> Scanned
    requires { (at < places) × (next < places) }
    ensures { (ts : List ℕ) → result.code ≡ answered ts wanted (Constant t word) at next }
{
    if t == node::FLAG && 1 < word {
        return Scanned::refused(Fault::WrongField, at);
    }
    if t != wanted {
        return Scanned::refused(Fault::WrongType, at);
    }
    Scanned::behind(next)
}

fn scan_now(
    seen: &mut [[u16; SEEN_ENTRIES]; STREAMS_MOST],
    v: u8,
    wanted: u8,
    at: usize,
    next: usize,
) -> Scanned
    requires { CanNote wanted at next }
    ensures { LeafScanned (Now v) wanted at next seen.old seen.new result.code }
{
    let i = usize::from(v);
    if STREAMS_MOST <= i {
        return Scanned::refused(Fault::WrongField, at);
    }
    let t = seen[i][SEEN_TYPE];
    if t != u16::from(wanted) {
        return Scanned::refused(other_fault(t), at);
    }
    note(seen, i, limits::RISE_OF_ZERO, limits::FALL_OF_ZERO);
    Scanned::behind(next)
}

fn scan_at(
    seen: &mut [[u16; SEEN_ENTRIES]; STREAMS_MOST],
    v: u8,
    k: i8,
    word: u32,
    wanted: u8,
    at: usize,
    next: usize,
) -> Scanned
    requires { CanNote wanted at next }
    ensures { LeafScanned (At v k word) wanted at next seen.old seen.new result.code }
{
    let i = usize::from(v);
    if STREAMS_MOST <= i || k == 0 {
        return Scanned::refused(Fault::WrongField, at);
    }
    let t = seen[i][SEEN_TYPE];
    if t == u16::from(node::FLAG) && 1 < word {
        return Scanned::refused(Fault::WrongField, at);
    }
    if t != u16::from(wanted) {
        return Scanned::refused(other_fault(t), at);
    }
    note(seen, i, rising_of(k), falling_of(k));
    Scanned::behind(next)
}

// The node without operands that stands at `at`.
pub fn scan_leaf(
    table: &[u8],
    kinds: &[[u8; ENTRIES]; KINDS_MOST],
    seen: &mut [[u16; SEEN_ENTRIES]; STREAMS_MOST],
    wanted: u8,
    at: usize,
) -> Scanned
    requires { CanScan kinds.now seen.old table.now wanted at × (is_leaf_of (standing table.now at) ≡ true) }
    ensures { (ts : List ℕ) (l : ℕ) → Seen ts seen.old → Scanning (parse (l + 1) ts table.now wanted at)
        table.now ts seen.old seen.new result.code }
{
    let kind = table[at];
    let start = at + 1;
    let body = node::body_of(kinds, usize::from(kind));
    if table.len() - start < body {
        return Scanned::refused(Fault::Missing, at);
    }
    let node = node::node_of(table, kind, start);
    let next = start + usize::from(node::leaf_body(node));
    match node {
        Node::Constant(t, word) => scan_constant(t, word, wanted, at, next),
        Node::Now(v) => scan_now(seen, v, wanted, at, next),
        Node::At(v, k, word) => scan_at(seen, v, k, word, wanted, at, next),
        Node::Operator(_) => Scanned::refused(Fault::WrongKind, at),
    }
}

// The operator that stands at `at`, with `levels` levels left: it calls itself on each operand that is an operator. An operand without
// operands is scanned in place.
pub fn scan_operator(
    table: &[u8],
    kinds: &[[u8; ENTRIES]; KINDS_MOST],
    seen: &mut [[u16; SEEN_ENTRIES]; STREAMS_MOST],
    wanted: u8,
    at: usize,
    levels: u8,
) -> Scanned
    requires { CanScan kinds.now seen.old table.now wanted at × ((is_leaf_of (standing table.now at) ≡ false) × (1 ≤ levels)) }
    ensures { (ts : List ℕ) → Seen ts seen.old → Scanning (parse levels ts table.now wanted at)
        table.now ts seen.old seen.new result.code }
{
    if table.len() <= at {
        return Scanned::refused(Fault::Missing, at);
    }
    let op = usize::from(table[at]);
    if KINDS_MOST <= op {
        return Scanned::refused(Fault::WrongKind, at);
    }
    let results = node::results_of(kinds, op);
    if (results >> wanted) % 2 == 0 {
        return Scanned::refused(node::result_fault(results), at);
    }
    let next = at + 1;
    if levels == 1 {
        return Scanned::refused(node::deep_fault(table, kinds, next), next);
    }
    let operands = node::operands_of(kinds, op);
    let first = node::operand_of(kinds, op);
    let second = if node::leaf_stands(table, next) {
        scan_leaf(table, kinds, seen, first, next)
    } else {
        scan_operator(table, kinds, seen, first, next, levels - 1)
    };
    if operands == 1 || second.refuses() {
        return second;
    }
    let rest = node::rest_type(operands, first, wanted);
    let third = if node::leaf_stands(table, second.place()) {
        scan_leaf(table, kinds, seen, rest, second.place())
    } else {
        scan_operator(table, kinds, seen, rest, second.place(), levels - 1)
    };
    if operands == 2 || third.refuses() {
        return third;
    }
    if node::leaf_stands(table, third.place()) {
        scan_leaf(table, kinds, seen, rest, third.place())
    } else {
        scan_operator(table, kinds, seen, rest, third.place(), levels - 1)
    }
}

// The expression of the type `wanted` at `at`.
pub fn scan_expr(
    table: &[u8],
    kinds: &[[u8; ENTRIES]; KINDS_MOST],
    seen: &mut [[u16; SEEN_ENTRIES]; STREAMS_MOST],
    wanted: u8,
    at: usize,
) -> Scanned
    requires { CanScan kinds.now seen.old table.now wanted at }
    ensures { (ts : List ℕ) → Seen ts seen.old → Scanning (parse most_levels ts table.now wanted at)
        table.now ts seen.old seen.new result.code }
{
    if node::leaf_stands(table, at) {
        scan_leaf(table, kinds, seen, wanted, at)
    } else {
        scan_operator(table, kinds, seen, wanted, at, limits::LEVELS_MOST)
    }
}
