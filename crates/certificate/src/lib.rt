// A record's look-aheads and kept numbers as a certificate: tested in one pass over the equations' edges, without the square of longest walks
// (document 01, "What the check announces"). `tight` holds each stream's tight targets as bits, `most` the largest slack of an edge into each
// stream, `seen` what the scan kept of the equation at hand.
#![tactic(auto)]

ghost use Rattle.std.specs.Prelude.{◌≡◌, cond, List, ℕ, ◌+◌, ◌-◌, ◌<◌, ◌≤◌, max, length};
ghost use Rattle.basis.specs.Firsts.{of};
ghost use Rattle.limits.specs.Limits.{most_streams};
ghost use Rattle.basis.specs.Edges.{Edge, Among};
ghost use Rattle.basis.specs.Rows.{Shaped};
ghost use Rattle.walks.specs.Walks.{Within};
ghost use Rattle.expression.specs.Seen.{seen_entries};
ghost use Rattle.certificate.specs.Certificate.{Settled};
ghost use Rattle.certificate.specs.Forgotten.{rises, falls, wiped};
ghost use Rattle.certificate.specs.Tally.{marked, Tally, NotedCell, NotedRow};
ghost use Rattle.certificate.specs.Line.{Ready, InLine, Agreed};

use expression::SEEN_ENTRIES;
use limits::STREAMS_MOST;

// The notes of the weight 0, to reckon with.
const RISE_OF_ZERO: u32 = limits::RISE_OF_ZERO as u32;

const FALL_OF_ZERO: u32 = limits::FALL_OF_ZERO as u32;

// The set with `v` put in where the test holds. A bit that is shifted takes fewer instructions than a choice of two sets.
fn mark(set: u32, v: usize, test: bool) -> u32
    requires { v < most_streams }
    ensures { result ≡ marked set v test }
{
    set | u32::from(test) << v
}

// The larger of `most` and of what `have` is above `want`.
fn looser(most: u32, have: u32, want: u32) -> u32
    ensures { result ≡ max most (have - want) }
{
    most.max(have.saturating_sub(want))
}

// Notes the edges of y's equation to `v`: whether each has slack. What was seen of them is cleared, for the next equation.
fn note_cell(
    tight: &mut [u32; STREAMS_MOST],
    most: &mut [u32; STREAMS_MOST],
    look: &[u16; STREAMS_MOST],
    seen: &mut [[u16; SEEN_ENTRIES]; STREAMS_MOST],
    y: usize,
    v: usize,
) -> bool
    requires { (y < most_streams) × (v < most_streams) }
    ensures { ((s : ℕ) (rise fall : ℕ → ℕ) → v < s → rise v ≡ rises seen.old v → fall v ≡ falls seen.old v
        → NotedCell result y v s (of look.now) rise fall tight.old most.old tight.new most.new)
        × (seen.new ≡ cond result (wiped v seen.old) seen.old) }
{
    let top = u32::from(seen[v][expression::SEEN_RISE]);
    if top == 0 {
        return true;
    }
    let have = u32::from(look[y]);
    let ahead = u32::from(look[v]);
    let want = top + ahead;
    if have + RISE_OF_ZERO < want {
        return false;
    }
    tight[y] = mark(tight[y], v, have + RISE_OF_ZERO == want);
    most[v] = looser(
        most[v],
        have + u32::from(seen[v][expression::SEEN_FALL]),
        FALL_OF_ZERO + ahead,
    );
    seen[v][expression::SEEN_RISE] = 0;
    seen[v][expression::SEEN_FALL] = 0;
    true
}

// Notes the edges of y's equation, whose largest and smallest weights `seen` holds: whether each has slack. Where each has, they are forgotten.
pub fn note_row(
    tight: &mut [u32; STREAMS_MOST],
    most: &mut [u32; STREAMS_MOST],
    look: &[u16; STREAMS_MOST],
    seen: &mut [[u16; SEEN_ENTRIES]; STREAMS_MOST],
    y: usize,
    s: usize,
) -> bool
    requires { (y < most_streams) × (s ≤ most_streams) × Shaped most_streams seen_entries seen.old }
    ensures { NotedRow result y s (of look.now) seen.old tight.old most.old
        seen.new tight.new most.new }
{
    for v in 0..s {
        if !note_cell(tight, most, look, seen, y, v) {
            return false;
        }
    }
    true
}

// The lowest stream of `rest` none of whose tight targets is in `rest`.
fn ready(tight: &[u32; STREAMS_MOST], rest: u32, s: usize) -> Option<usize>
    requires { s ≤ most_streams }
    ensures { Ready tight.now rest s result }
{
    (0..s).find(|y| (rest >> *y) % 2 == 1 && tight[*y] & rest == 0)
}

// The same, with the stream `n` tried first: most tables name their streams in an order that serves.
fn ready_from(tight: &[u32; STREAMS_MOST], rest: u32, s: usize, n: usize) -> Option<usize>
    requires { (s ≤ most_streams) × (n < s) }
    ensures { Ready tight.now rest s result }
{
    if (rest >> n) % 2 == 1 && tight[n] & rest == 0 {
        return Some(n);
    }
    ready(tight, rest, s)
}

// Whether the record's numbers agree with what was noted.
fn numbers_agree(
    tight: &[u32; STREAMS_MOST],
    most: &[u32; STREAMS_MOST],
    look: &[u16; STREAMS_MOST],
    kept: &[u16; STREAMS_MOST],
    s: usize,
) -> bool
    requires { s ≤ most_streams }
    ensures { Agreed result tight.now most.now look.now kept.now s }
{
    (0..s).all(|v| {
        u64::from(kept[v]) == u64::from(most[v]) + 1 && (look[v] == 0 || tight[v] != 0)
    })
}

// Whether the streams below `s` can be put in a line, each behind its tight targets; `order` is lent for it.
fn ordered(tight: &[u32; STREAMS_MOST], s: usize, order: &mut [u8; STREAMS_MOST]) -> bool
    requires { (s ≤ most_streams) × (length order.old ≡ most_streams) }
    ensures { InLine result tight.now s order.new }
{
    let mut rest = u32::MAX;
    for n in 0..s {
        let Some(y) = ready_from(tight, rest, s, n) else {
            return false;
        };
        order[n] = y as u8;
        rest ^= 1 << y;
    }
    true
}

// The verdict on the record's numbers, once every equation is noted; `order` is lent for the order within a turn.
pub fn settle(
    tight: &[u32; STREAMS_MOST],
    most: &[u32; STREAMS_MOST],
    look: &[u16; STREAMS_MOST],
    kept: &[u16; STREAMS_MOST],
    s: usize,
    order: &mut [u8; STREAMS_MOST],
) -> bool
    requires { (s ≤ most_streams) × (length order.old ≡ most_streams) }
    ensures { (es : List Edge) → Within (Among es) s → Tally (Among es) (of look.now) tight.now most.now
        → Settled result (Among es) s (of look.now) (of kept.now) order.new }
{
    numbers_agree(tight, most, look, kept, s) && ordered(tight, s, order)
}
