// Whole numbers that swing about 0.
ghost use Rattle.std.specs.Prelude.{◌≡◌, ◌<◌, ◌≤◌, unsigned_abs};
ghost use Rattle.xb_chance.specs.Swings.{swing};

use crate::word::{state_after, word_of};

/// Number n after a state, counted from 0: a whole number from -peak to peak, for noise and for jitter.
pub fn swing(peak: u16, state: u64, n: u32) -> i32
    requires { n < 524288 }
    ensures value { result ≡ swing peak state n }
    ensures bound { unsigned_abs result ≤ peak }
{
    if peak == 0 {
        return 0;
    }
    let word = word_of(state_after(state, n + 1));
    let level = word % (2 * u64::from(peak) + 1);
    level as i32 - i32::from(peak)
}
