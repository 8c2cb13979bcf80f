// Kept numbers from the look-aheads and the smallest weights (document 01, "What the check announces").
// It assumes nothing.
#![tactic(auto)]

ghost use Rattle.std.specs.Prelude.{◌≡◌, ◌<◌, ◌≤◌};
ghost use Rattle.limits.specs.Limits.{most_streams};
ghost use Rattle.kept.specs.Kept.{Looks, Falls, slack_at_of, kept_over, kept_row};

use limits::{FALL_OF_ZERO, STREAMS_MOST};

// How much longer than its turn a stream of look-ahead `to` is read by one of look-ahead `from`, over an edge whose
// weight `fall` notes.
fn slack_at(fall: u16, from: u16, to: u16) -> u32
    ensures { result ≡ slack_at_of fall from to }
{
    if fall == 0 {
        return 0;
    }
    let reach = u32::from(from) + u32::from(fall);
    reach.saturating_sub(u32::from(to) + u32::from(FALL_OF_ZERO))
}

// The kept number of `v`, from the look-aheads and the notes of the smallest weight of each pair, 0 where there is no edge.
fn kept_at(look: &[u16; STREAMS_MOST], fall: &[[u16; STREAMS_MOST]; STREAMS_MOST], v: usize) -> u16
    requires { (v < most_streams) × Looks look.now × Falls fall.now }
    ensures { result ≡ kept_over look.now fall.now v }
{
    let mut most = 0;
    for y in 0..STREAMS_MOST {
        most = most.max(slack_at(fall[y][v], look[y], look[v]));
    }
    (most + 1) as u16
}

// The kept number of each stream below `s`, and 0 past it.
pub fn kept_of(
    look: &[u16; STREAMS_MOST],
    fall: &[[u16; STREAMS_MOST]; STREAMS_MOST],
    s: usize,
) -> [u16; STREAMS_MOST]
    requires { (s ≤ most_streams) × Looks look.now × Falls fall.now }
    ensures { result ≡ kept_row look.now fall.now s }
{
    let mut out = [0; STREAMS_MOST];
    for v in 0..s {
        out[v] = kept_at(look, fall, v);
    }
    out
}
