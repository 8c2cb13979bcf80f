// The check of a table (document 01): from its bytes to look-ahead, kept values, store words, room and closing turns, or to the number
// and the place of the refusal. It assumes nothing.
#![tactic(auto)]

ghost use Rattle.std.specs.Prelude.{◌≡◌, ℕ, ◌<◌};
ghost use Rattle.limits.specs.Limits.{most_streams};
ghost use Rattle.basis.specs.Rows.{column, entry};
ghost use Rattle.expression.specs.Seen.{seen_entries};
ghost use Rattle.square.specs.Square.{cell, rise_best};
ghost use Rattle.announce.specs.Announced.{announced, checked_as};
ghost use Rattle.announce.specs.Conditions.{Answers};
ghost use Rattle.announce.specs.Rows.{Weighs, Scanned, Fitting, numbers_for};

use expression::SEEN_ENTRIES;
use limits::{Fault, Refusal, STREAMS_MOST};
use table::Scan;

// What the check announces. Numbers are by stream, 0 past the last one; a refusal has its number and place, and zeros.
#[repr(C)]
#[derive(Clone, Copy)]
pub struct Checked {
    pub number: u8,
    pub place: usize,
    pub look: [u16; STREAMS_MOST],
    pub kept: [u16; STREAMS_MOST],
    pub words: usize,
    pub room: usize,
    pub closing: u16,
}

// What an accepted table announces. Numbers are by stream, 0 past the last one.
#[derive(Clone, Copy)]
pub struct Announced {
    pub look: [u16; STREAMS_MOST],
    pub kept: [u16; STREAMS_MOST],
    pub words: usize,
    pub room: usize,
    pub closing: u16,
}

// "An accepted call answers number 0 and place 0", and a refusal announces zeros.
impl From<Result<Announced, Refusal>> for Checked {
    ghost from_gives = { λ answer checked. checked ≡ checked_as answer };

    fn from(answer: Result<Announced, Refusal>) -> Checked {
        match answer {
            Ok(announced) => {
                let look = announced.look;
                let kept = announced.kept;
                Checked {
                    number: limits::ACCEPTED,
                    place: 0,
                    look,
                    kept,
                    words: announced.words,
                    room: announced.room,
                    closing: announced.closing,
                }
            }
            Err(refusal) => Checked {
                number: u8::from(refusal.fault),
                place: refusal.place,
                look: [0; STREAMS_MOST],
                kept: [0; STREAMS_MOST],
                words: 0,
                room: 0,
                closing: 0,
            },
        }
    }
}

// The entry `i` of each stream's row.
fn noted(seen: &[[u16; SEEN_ENTRIES]; STREAMS_MOST], i: usize) -> [u16; STREAMS_MOST]
    requires { i < seen_entries }
    ensures { result ≡ column i seen.now }
{
    let mut out = [0; STREAMS_MOST];
    for v in 0..STREAMS_MOST {
        out[v] = seen[v][i];
    }
    out
}

// The weights of all edges: for each pair of streams the largest and the smallest, as `expression::scan_expr` notes them.
#[derive(Clone, Copy)]
struct Weights {
    rise: [[u16; STREAMS_MOST]; STREAMS_MOST],
    fall: [[u16; STREAMS_MOST]; STREAMS_MOST],
}

// The weights of a table that the scan accepted, each equation scanned once more from where its expression starts.
fn weights_of(table: &[u8], scan: Scan) -> Weights
    requires { Scanned table.now scan }
    ensures { (x : Scanned table.now scan) → Weighs x.table result.rise result.fall }
{
    let kinds = node::kind_table();
    let mut weights = Weights {
        rise: [[0; STREAMS_MOST]; STREAMS_MOST],
        fall: [[0; STREAMS_MOST]; STREAMS_MOST],
    };
    for y in scan.inputs..scan.streams {
        let mut seen = [expression::UNSEEN; STREAMS_MOST];
        expression::see(&scan.types, scan.streams, &mut seen);
        let start = usize::from(scan.starts[y]);
        expression::scan_expr(table, &kinds, &mut seen, scan.types[y], start);
        weights.rise[y] = noted(&seen, expression::SEEN_RISE);
        weights.fall[y] = noted(&seen, expression::SEEN_FALL);
    }
    weights
}

// The square of the largest weights, NONE where there is no edge. (Out of line for the stack's sake, as `square::relax`.)
#[inline(never)]
fn square_of(rise: &[[u16; STREAMS_MOST]; STREAMS_MOST]) -> [[i64; STREAMS_MOST]; STREAMS_MOST]
    ensures { (y v : ℕ) → y < most_streams → v < most_streams → cell result y v ≡ rise_best (entry rise.now y v) }
{
    let mut square = [[square::NONE; STREAMS_MOST]; STREAMS_MOST];
    for y in 0..STREAMS_MOST {
        square[y] = square::square_row(&rise[y]);
    }
    square
}

// The announced numbers of a table whose loops are all below 0, or refusal 8.
#[inline(never)]
fn numbers_of(
    scan: Scan,
    look: [u16; STREAMS_MOST],
    fall: &[[u16; STREAMS_MOST]; STREAMS_MOST],
) -> Result<Announced, Refusal>
    requires { Fitting scan look fall.now }
    ensures { checked_as result ≡ numbers_for scan look fall.now }
{
    let kept = kept::kept_of(&look, fall, scan.streams);
    let totals = numbers::sums(&look, &kept, &scan.roles, scan.streams);
    if limits::STORE_MOST < totals.words {
        return Err(Fault::OverWords.at(0));
    }
    let room = records::room_of(scan.streams - scan.inputs, totals.triggers);
    Ok(Announced {
        look,
        kept,
        words: totals.words,
        room,
        closing: totals.closing,
    })
}

// Refusals 7 and 8, and the announced numbers, of a table that the scan accepted.
fn weigh_scan(table: &[u8], scan: Scan) -> Result<Announced, Refusal>
    requires { Scanned table.now scan }
    ensures { checked_as result ≡ announced table.now }
{
    let weights = weights_of(table, scan);
    match square::weigh(square_of(&weights.rise), scan.streams) {
        Ok(look) => numbers_of(scan, look, &weights.fall),
        Err(place) => Err(Fault::WrongLoop.at(place)),
    }
}

// The check of a table: where it is accepted, look-ahead and kept number of each stream, store words, room and closing turns.
pub fn check_table(table: &[u8]) -> Result<Announced, Refusal>
    ensures { (checked_as result ≡ announced table.now) × Answers table.now (checked_as result) }
{
    let scan = table::scan_table(table)?;
    weigh_scan(table, scan)
}

// The same with number and place, as C reads it. It is what document 01 allows it to answer.
pub fn check(table: &[u8]) -> Checked
    ensures { (result ≡ announced table.now) × Answers table.now result }
{
    Checked::from(check_table(table))
}
