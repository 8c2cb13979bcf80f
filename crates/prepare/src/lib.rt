// What a call prepares: the table's bytes tested against the record's numbers in one pass, and what a turn goes by (document 01, "A run").
// It assumes nothing.
#![tactic(auto)]

ghost use Rattle.prepare.specs.Preparing.{CanPrepare, Preparing};

use limits::STREAMS_MOST;
use node::{ENTRIES, KINDS_MOST};

// The number of inputs and streams, and the announced sums.
#[derive(Clone, Copy)]
pub struct Prepared {
    pub inputs: usize,
    pub streams: usize,
    pub words: usize,
    pub room: usize,
    pub closing: u16,
}

// What a call goes by whose record has these look-aheads and kept numbers; nothing where they are not those of an accepted table of
// these bytes. The lent arrays, all zeros before, get the streams' types and roles, where each expression starts in the table, and the order
// within a turn. They are lent, not handed back: a copy of what was just written entry by entry would stall each call.
pub fn prepare(
    table: &[u8],
    kinds: &[[u8; ENTRIES]; KINDS_MOST],
    look: &[u16; STREAMS_MOST],
    kept: &[u16; STREAMS_MOST],
    types: &mut [u8; STREAMS_MOST],
    roles: &mut [u8; STREAMS_MOST],
    starts: &mut [u16; STREAMS_MOST],
    order: &mut [u8; STREAMS_MOST],
) -> Option<Prepared>
    requires { CanPrepare kinds.now look.now kept.now types.old roles.old starts.old order.old }
    ensures { Preparing result table.now look.now kept.now types.new roles.new starts.new order.new }
{
    let found = vouch::vouch(table, kinds, look, kept, types, roles, starts, order)?;
    let room = records::room_of(found.streams - found.inputs, found.triggers);
    Some(Prepared {
        inputs: found.inputs,
        streams: found.streams,
        words: found.words,
        room,
        closing: found.closing,
    })
}
