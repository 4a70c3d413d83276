// The bounces that a seed draws.
ghost use Rattle.std.specs.Prelude.{◌≡◌, ◌≤◌, ◌<◌};
ghost use Rattle.xb_dial.specs.Drawn.{count_of, draw, part_at};

use xb_chance::{state_after, word_of};

/// The most bounces of a run.
pub(crate) const MOST_BOUNCES: u32 = 4;

/// How many draws a run has: one for the number of its bounces, and two for each.
pub(crate) const DRAWS: u32 = 9;

/// How a contact bounces.
#[derive(Clone, Copy, Debug, PartialEq, Eq)]
pub struct Bouncing {
    /// Within how many us of its beginning all bounces of a run end. Under 8 there are none.
    pub us: u32,
    /// Of which all bounces are drawn.
    pub seed: u64,
}

// Draw n of a run.
fn draw(state: u64, n: u32) -> u64
    ensures { result ≡ draw state n }
{
    word_of(state_after(state, n))
}

// A time of 1 to `most` us.
pub(crate) fn part_at(most: u32, state: u64, n: u32) -> u32
    requires { 0 < most }
    ensures value { result ≡ part_at most state n }
    ensures bound { result ≤ most }
{
    (draw(state, n) % u64::from(most)) as u32 + 1
}

// How many bounces a run of so many us has.
pub(crate) fn count_of(us: u32, state: u64, ticks: u64) -> u32
    ensures value { result ≡ count_of us state ticks }
    ensures bound { result ≤ 4 }
    ensures room { 0 < result → (8 ≤ us) × (us < ticks) }
{
    if us < 2 * MOST_BOUNCES || ticks <= u64::from(us) {
        return 0;
    }
    (draw(state, 1) % u64::from(MOST_BOUNCES + 1)) as u32
}
