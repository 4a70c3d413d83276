// Whether a digit sounds in a block.
ghost use Rattle.std.specs.Prelude.{◌≡◌, ◌≤◌, ◌<◌, ◌*◌, ◌^◌, length};
ghost use Rattle.xb_measured.specs.ButtonBlocks.{has_digit, power, strongest};

use crate::button_tone::level;
use xb_ear::squares;

/// The four low frequencies, in Hz (ITU-T Q.23).
pub(crate) const LOW: [u16; 4] = [697, 770, 852, 941];

/// The four high ones.
pub(crate) const HIGH: [u16; 4] = [1_209, 1_336, 1_477, 1_633];

/// The least level of a tone: an amplitude of 500, or -33 dBm0, as of a key.
pub(crate) const LEAST_LEVEL: u64 = 250_000;

/// One tone may have so many times the other's level: 12 dB.
pub(crate) const TWIST: u64 = 16;

/// The two tones hold at least this share of the power of a block, 3 of 4.
pub(crate) const SHARE: u64 = 3;

/// See `SHARE`.
pub(crate) const SHARE_OF: u64 = 4;

// The level of the strongest of frequencies.
fn strongest(block: &[i16], frequencies: &[u16]) -> u64
    requires { length block.now ≤ 160 }
    ensures value { result ≡ strongest block.now frequencies.now }
    ensures bound { result < 2 ^ 40 }
{
    let mut most = 0u64;
    for hz in frequencies {
        most = most.max(level(block, *hz));
    }
    most
}

// The power of a block: a sine of amplitude A has A * A.
fn power(block: &[i16]) -> u64
    requires { length block.now ≤ 160 }
    ensures value { result ≡ power block.now }
    ensures bound { result < 2 ^ 40 }
{
    squares(block) / 80
}

// Whether a digit sounds in a block of 160 samples.
pub(crate) fn has_digit(block: &[i16]) -> bool
    requires { length block.now ≤ 160 }
    ensures { result ≡ has_digit block.now }
{
    let low = strongest(block, &LOW);
    let high = strongest(block, &HIGH);
    let weaker = low.min(high);
    LEAST_LEVEL <= weaker
        && low.max(high) <= TWIST * weaker
        && SHARE * power(block) <= SHARE_OF * (low + high)
}
