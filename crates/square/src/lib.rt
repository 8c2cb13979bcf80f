// The longest walks between all pairs of streams, held as a square while the check runs; what the check reads off it (document 01, "What
// the check announces", and the place of refusal 7). A cell is a total, or NONE where there is no walk. Assumes nothing.
#![tactic(auto)]

ghost use Rattle.std.specs.Prelude.{◌≡◌, ℕ, ◌+◌, ◌<◌, ◌≤◌, get_or, unwrap_or};
ghost use Rattle.limits.specs.Limits.{most_streams};
ghost use Rattle.basis.specs.Firsts.{firsts};
ghost use Rattle.walks.specs.Longest.{relax_b, plus, through, loops_below_of, look_to, look_of, sup_to, short_loop_of, place_of};
ghost use Rattle.square.specs.Square.{best, at, cell, lent_at, lent_cell, Small, AllSmall, LentSmall, rise_best, weighed};

use limits::{RISE_OF_ZERO, STREAMS_MOST};

pub const NONE: i64 = i64::MIN;

// The total that a note in rising order stands for, NONE where there is no edge.
fn weight_of(rise: u16) -> i64
    ensures { best result ≡ rise_best rise }
{
    if rise == 0 {
        return NONE;
    }
    i64::from(rise) - i64::from(RISE_OF_ZERO)
}

// A row of the square, from the notes of the largest weights.
pub fn square_row(rise: &[u16; STREAMS_MOST]) -> [i64; STREAMS_MOST]
    ensures { (j : ℕ) → j < most_streams → at result j ≡ rise_best (get_or rise.now j 0) }
{
    let mut out = [NONE; STREAMS_MOST];
    for j in 0..STREAMS_MOST {
        out[j] = weight_of(rise[j]);
    }
    out
}

// One cell: the larger of the old total and the sum of the two, where both are there. (NONE is the least number, so a sum is larger.)
fn relaxed(old: i64, left: i64, right: i64) -> i64
    requires { Small 61 (best left) × Small 61 (best right) }
    ensures { best result ≡ relax_b (best old) (best left) (best right) }
{
    if left == NONE || right == NONE {
        return old;
    }
    old.max(left + right)
}

// A row relaxed through one stream: `left` is the row's total to it, `via` the stream's own row.
fn relax_row(row: &mut [i64; STREAMS_MOST], via: &[i64; STREAMS_MOST], left: i64)
    requires { Small 61 (best left) × ((j : ℕ) → j < most_streams → Small 61 (lent_at via.now j)) }
    ensures { (j : ℕ) → j < most_streams → lent_at row.new j ≡ relax_b (lent_at row.old j) (best left) (lent_at via.now j) }
{
    for j in 0..STREAMS_MOST {
        row[j] = relaxed(row[j], left, via[j]);
    }
}

// The square relaxed through one stream more. That stream's row and each row's total to it are read before they change, so all cells
// change at once. (It is kept out of line, as two others below and two of `announce`: in one frame the compiler keeps more copies of the
// square at once, and the check would take 7 KiB of stack more.)
#[inline(never)]
fn relax(d: &mut [[i64; STREAMS_MOST]; STREAMS_MOST], k: usize)
    requires { (k < most_streams) × LentSmall 61 d.old }
    ensures { (i j : ℕ) → i < most_streams → j < most_streams → lent_cell d.new i j ≡ relax_b (lent_cell d.old i j) (lent_cell d.old i k) (lent_cell d.old k j) }
{
    let via = d[k];
    for row in d.iter_mut() {
        let left = row[k];
        relax_row(row, &via, left);
    }
}

// The longest walks of one edge or more, from the square of edges. A total grows by a bit for each stream, so nothing overflows.
fn longest(a: &[[i64; STREAMS_MOST]; STREAMS_MOST], s: usize) -> [[i64; STREAMS_MOST]; STREAMS_MOST]
    requires { (s ≤ most_streams) × LentSmall 7 a.now }
    ensures { (i j : ℕ) → i < most_streams → j < most_streams → lent_cell result i j ≡ through (lent_cell a.now) s i j }
{
    let mut out = *a;
    for k in 0..s {
        relax(&mut out, k);
    }
    out
}

// Whether the diagonal is below 0 at every stream below `s`.
#[inline(never)]
fn loops_below(d: &[[i64; STREAMS_MOST]; STREAMS_MOST], s: usize) -> bool
    requires { s ≤ most_streams }
    ensures { result ≡ loops_below_of (lent_cell d.now) s }
{
    (0..s).all(|v| d[v][v] < 0)
}

// The largest of 0 and the first `s` of a row: a stream's look-ahead.
fn look_ahead(row: &[i64; STREAMS_MOST], s: usize) -> u16
    requires { (s ≤ most_streams) × (look_to (lent_at row.now) s < 65536) }
    ensures { result ≡ look_to (lent_at row.now) s }
{
    let mut most: i64 = 0;
    for total in &row[..s] {
        most = most.max(*total);
    }
    most as u16
}

// The look-ahead of each stream below `s`, and 0 past it.
fn look_aheads(d: &[[i64; STREAMS_MOST]; STREAMS_MOST], s: usize) -> [u16; STREAMS_MOST]
    requires { (s ≤ most_streams) × ((v : ℕ) → v < s → look_to (lent_cell d.now v) s < 65536) }
    ensures { result ≡ firsts (look_of (lent_cell d.now) s) most_streams }
{
    let mut out = [0; STREAMS_MOST];
    for v in 0..s {
        out[v] = look_ahead(&d[v], s);
    }
    out
}

// The largest sum of an edge to a stream below `s` and the total on from there.
fn longest_on(row: &[i64; STREAMS_MOST], line: &[i64; STREAMS_MOST], s: usize) -> i64
    requires { (s ≤ most_streams) × ((j : ℕ) → j < most_streams → Small 61 (lent_at row.now j) × Small 61 (lent_at line.now j)) }
    ensures { best result ≡ sup_to (λ m. plus (lent_at row.now m) (lent_at line.now m)) s }
{
    let mut most = NONE;
    for m in 0..s {
        most = relaxed(most, row[m], line[m]);
    }
    most
}

// The largest totals to a stream, with one edge more in front.
fn edge_more(
    a: &[[i64; STREAMS_MOST]; STREAMS_MOST],
    line: &[i64; STREAMS_MOST],
    s: usize,
) -> [i64; STREAMS_MOST]
    requires { (s ≤ most_streams) × LentSmall 61 a.now × ((j : ℕ) → j < most_streams → Small 61 (lent_at line.now j)) }
    ensures { (i : ℕ) → i < most_streams → lent_at result i ≡ sup_to (λ m. plus (lent_cell a.now i m) (lent_at line.now m)) s }
{
    let mut out = [NONE; STREAMS_MOST];
    for i in 0..STREAMS_MOST {
        out[i] = longest_on(&a[i], line, s);
    }
    out
}

// The edges that end at `v`.
fn edges_into(a: &[[i64; STREAMS_MOST]; STREAMS_MOST], v: usize) -> [i64; STREAMS_MOST]
    requires { v < most_streams }
    ensures { (i : ℕ) → i < most_streams → lent_at result i ≡ lent_cell a.now i v }
{
    let mut out = [NONE; STREAMS_MOST];
    for i in 0..STREAMS_MOST {
        out[i] = a[i][v];
    }
    out
}

// Whether a walk of 1 to `s` edges leads from `v` back to it and totals 0 or more. The relaxed square cannot tell: it counts longer walks.
#[inline(never)]
fn short_loop(a: &[[i64; STREAMS_MOST]; STREAMS_MOST], v: usize, s: usize) -> bool
    requires { (s ≤ most_streams) × (v < most_streams) × LentSmall 7 a.now }
    ensures { result ≡ short_loop_of s (lent_cell a.now) v }
{
    let mut line = edges_into(a, v);
    for n in 0..s {
        if line[v] >= 0 {
            return true;
        }
        line = edge_more(a, &line, s);
    }
    false
}

// The lowest stream below `s` that has such a loop.
fn place_of_loop(a: &[[i64; STREAMS_MOST]; STREAMS_MOST], s: usize) -> Option<usize>
    requires { (s ≤ most_streams) × LentSmall 7 a.now }
    ensures { unwrap_or result s ≡ place_of (lent_cell a.now) s }
{
    (0..s).find(|v| short_loop(a, *v, s))
}

// What the check announces of a square of edges, the largest weight of each pair of the `s` streams: the look-aheads (0 past the
// streams), or the place of refusal 7.
pub fn weigh(a: [[i64; STREAMS_MOST]; STREAMS_MOST], s: usize) -> Result<[u16; STREAMS_MOST], usize>
    requires { (s ≤ most_streams) × AllSmall 7 a }
    ensures { result ≡ weighed (cell a) s }
{
    let d = longest(&a, s);
    if loops_below(&d, s) {
        return Ok(look_aheads(&d, s));
    }
    let place = place_of_loop(&a, s);
    Err(place.unwrap_or(s))
}
