// What lies beside the six frequencies.
ghost use Rattle.std.specs.Prelude.{◌≡◌};
ghost use Rattle.xb_ear.specs.Levels.{AreSmall};
ghost use Rattle.xb_ear.specs.Steady.{beside, lessened};

use crate::levels::Levels;
use crate::sight::all_levels;

/// The least that lay beside the six frequencies of late grows by one part in so many with each window: it doubles in
/// 57 s. No chord of music is steady for so long.
pub(crate) const STEADY_WINDOWS: u64 = 32_768;

/// The power of a window beside the six frequencies.
pub(crate) fn beside(levels: Levels) -> u64
    requires { AreSmall levels }
    ensures { result ≡ beside levels }
{
    levels.power.saturating_sub(all_levels(levels))
}

/// The least that lay beside of late, with one window more. 0 is before the first, and no window has less than 1.
pub(crate) fn lessened(least: u64, now: u64) -> u64
    ensures { result ≡ lessened least now }
{
    let next = if least == 0 {
        now
    } else {
        now.min(
            least
                .saturating_add(least / STEADY_WINDOWS)
                .saturating_add(1),
        )
    };
    next.max(1)
}
