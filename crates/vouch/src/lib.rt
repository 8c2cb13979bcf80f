// A record's numbers vouched for against the table's bytes in one pass over them, without the square of longest walks (document 01, "Every call
// tests the table first", refusal 10). It assumes nothing.
#![tactic(auto)]

ghost use Rattle.std.specs.Prelude.{false, ◌-◌, length, take};
ghost use Rattle.basis.specs.Firsts.{of};
ghost use Rattle.node.specs.Kinds.{Tabulated};
ghost use Rattle.table.specs.Table.{equations_at_of};
ghost use Rattle.vouch.specs.Vouching.{Verdict, Blank};
ghost use Rattle.vouch.specs.Steps.{CanJudge, Judgement};

use expression::UNSEEN;
use limits::STREAMS_MOST;
use node::{ENTRIES, KINDS_MOST};

// The verdict on the numbers over the equations of the streams inputs..streams, the first of them at `at` and the last at the table's end; `starts` and
// `order` are lent for where their expressions start and for the order within a turn.
fn judge(
    table: &[u8],
    kinds: &[[u8; ENTRIES]; KINDS_MOST],
    types: &[u8; STREAMS_MOST],
    inputs: usize,
    streams: usize,
    at: usize,
    look: &[u16; STREAMS_MOST],
    kept: &[u16; STREAMS_MOST],
    starts: &mut [u16; STREAMS_MOST],
    order: &mut [u8; STREAMS_MOST],
) -> bool
    requires { CanJudge kinds.now table.now types.now inputs streams at starts.old order.old }
    ensures { Judgement result (equations_at_of (streams - inputs) inputs (take streams types.now) table.now at)
        (length table.now) inputs streams (of look.now) (of kept.now) starts.new order.new }
{
    let mut seen = [UNSEEN; STREAMS_MOST];
    expression::see(types, streams, &mut seen);
    let mut tight = [0u32; STREAMS_MOST];
    let mut most = [0u32; STREAMS_MOST];
    let mut next = at;
    for y in inputs..streams {
        if table::test_equation(table, kinds, next, y).is_err() {
            return false;
        }
        let start = next + 2;
        let wanted = types[y];
        let end = if node::leaf_stands(table, start) {
            expression::scan_leaf(table, kinds, &mut seen, wanted, start)
        } else {
            expression::scan_operator(table, kinds, &mut seen, wanted, start, limits::LEVELS_MOST)
        };
        let Ok(end) = end.outcome() else {
            return false;
        };
        if !certificate::note_row(&mut tight, &mut most, look, &mut seen, y, streams) {
            return false;
        }
        starts[y] = start as u16;
        next = end;
    }
    next == table.len() && certificate::settle(&tight, &most, look, kept, streams, order)
}

// How many inputs and streams the table of a record has, and the sums of the record's numbers; the rest that a call needs of the table is in
// arrays that the caller lends, since an array that is written entry by entry and then returned is copied before the writes have settled.
#[derive(Clone, Copy)]
pub struct Found {
    pub inputs: usize,
    pub streams: usize,
    pub words: usize,
    pub triggers: usize,
    pub closing: u16,
}

// Whether the bytes are those of a table and the numbers those of a record of this table; where they are, the lent arrays, all zeros before,
// have the streams' types and roles, where their expressions start, and the order within a turn.
pub fn vouch(
    table: &[u8],
    kinds: &[[u8; ENTRIES]; KINDS_MOST],
    look: &[u16; STREAMS_MOST],
    kept: &[u16; STREAMS_MOST],
    types: &mut [u8; STREAMS_MOST],
    roles: &mut [u8; STREAMS_MOST],
    starts: &mut [u16; STREAMS_MOST],
    order: &mut [u8; STREAMS_MOST],
) -> Option<Found>
    requires { Tabulated kinds.now × Blank types.old roles.old starts.old order.old }
    ensures { Verdict result table.now look.now kept.now types.new roles.new starts.new order.new }
{
    let Ok(heading) = table::scan_heading(table, kinds, types, roles) else {
        return None;
    };
    let inputs = heading.inputs;
    let streams = heading.streams;
    if !numbers::zero_past(look, kept, streams) {
        return None;
    }
    let sums = numbers::sums(look, kept, roles, streams);
    if limits::STORE_MOST < sums.words {
        return None;
    }
    if !judge(
        table,
        kinds,
        types,
        inputs,
        streams,
        heading.place,
        look,
        kept,
        starts,
        order,
    ) {
        return None;
    }
    Some(Found {
        inputs,
        streams,
        words: sums.words,
        triggers: sums.triggers,
        closing: sums.closing,
    })
}
