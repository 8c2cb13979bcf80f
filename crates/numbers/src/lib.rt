// Sums over the streams' numbers, and whether numbers are 0 past the last stream (document 01, "What the check announces"). It assumes nothing.
#![tactic(auto)]

ghost use Rattle.std.specs.Prelude.{◌≡◌, ◌≤◌};
ghost use Rattle.limits.specs.Limits.{most_streams};
ghost use Rattle.basis.specs.Firsts.{of};
ghost use Rattle.basis.specs.Sums.{total, most};
ghost use Rattle.numbers.specs.Past.{Decides, ZeroPast};

use limits::STREAMS_MOST;

// The sums that the check announces: store words, triggers (for the room), closing turns.
#[derive(Clone, Copy)]
pub struct Totals {
    pub words: usize,
    pub triggers: usize,
    pub closing: u16,
}

// The sums over the first `s` streams.
pub fn sums(
    look: &[u16; STREAMS_MOST],
    kept: &[u16; STREAMS_MOST],
    roles: &[u8; STREAMS_MOST],
    s: usize,
) -> Totals
    requires { s ≤ most_streams }
    ensures { (result.words ≡ total (of kept.now) s) × (result.triggers ≡ total (of roles.now) s)
        × (result.closing ≡ most (of look.now) s) }
{
    let mut words = 0;
    let mut triggers = 0;
    let mut closing = 0;
    for v in 0..s {
        words += usize::from(kept[v]);
        triggers += usize::from(roles[v]);
        closing = look[v].max(closing);
    }
    Totals {
        words,
        triggers,
        closing,
    }
}

// "(0 past S)": whether both numbers are 0 from the stream `s` on.
pub fn zero_past(look: &[u16; STREAMS_MOST], kept: &[u16; STREAMS_MOST], s: usize) -> bool
    requires { s ≤ most_streams }
    ensures { Decides result (ZeroPast look.now s × ZeroPast kept.now s) }
{
    let mut any = 0;
    for v in s..STREAMS_MOST {
        any |= look[v] | kept[v];
    }
    any == 0
}
