// One sample of a sine of whole Hz, and of frequencies that sound together.
ghost use Rattle.std.specs.Prelude.{◌≡◌, ◌<◌, ◌≤◌, ◌*◌, length, unsigned_abs};
ghost use Rattle.xb_signal.specs.Waves.{chorus, mixed, quarter_at, scaled, wave_at, wave_sample};

use crate::segment::MOST_TONES;
use crate::sine_table::QUARTER;

// The sample at a place of the first quarter of a period of 1 Hz.
fn quarter_at(place: usize) -> u16
    requires { place < 2001 }
    ensures value { result ≡ quarter_at place }
    ensures bound { result ≤ 10000 }
{
    QUARTER[place]
}

/// The sample at a place of a period of 1 Hz, which has 8,000, from a start at 0.
pub fn wave_at(place: usize) -> i16
    requires { place < 8000 }
    ensures value { result ≡ wave_at place }
    ensures bound { unsigned_abs result ≤ 10000 }
{
    if place <= 2_000 {
        quarter_at(place) as i16
    } else if place <= 4_000 {
        quarter_at(4_000 - place) as i16
    } else if place <= 6_000 {
        -(quarter_at(place - 4_000) as i16)
    } else {
        -(quarter_at(8_000 - place) as i16)
    }
}

/// Sample n of a frequency in whole Hz, from a start at 0.
pub(crate) fn wave_sample(hz: u32, n: u32) -> i16
    ensures value { result ≡ wave_sample hz n }
    ensures bound { unsigned_abs result ≤ 10000 }
{
    let place = u64::from(hz) * u64::from(n) % 8_000;
    wave_at(place as usize)
}

// A sample of the table at an amplitude, rounded.
pub(crate) fn scaled(amplitude: u16, sample: i16) -> i32
    requires { unsigned_abs sample ≤ 10000 }
    ensures value { result ≡ scaled amplitude sample }
    ensures bound { unsigned_abs result ≤ 65535 }
{
    let size = (u32::from(amplitude) * u32::from(sample.unsigned_abs()) + 5_000) / 10_000;
    if sample < 0 {
        -(size as i32)
    } else {
        size as i32
    }
}

// Sample n of frequencies that sound together at one amplitude.
fn chorus(amplitude: u16, tones: &[u16], n: u32) -> i32
    requires { length tones.now ≤ MOST_TONES }
    ensures value { result ≡ chorus amplitude tones.now n }
    ensures bound { unsigned_abs result ≤ 65535 * length tones.now }
{
    let mut sum = 0i32;
    for hz in tones {
        sum += scaled(amplitude, wave_sample(u32::from(*hz), n));
    }
    sum
}

// Sample n of frequencies that sound together, the first at one amplitude and the further ones at the other.
pub(crate) fn mixed(low: u16, high: u16, tones: &[u16], n: u32) -> i32
    requires { length tones.now ≤ MOST_TONES }
    ensures value { result ≡ mixed low high tones.now n }
    ensures bound { unsigned_abs result ≤ 393210 }
{
    match tones.split_first() {
        Some((first, further)) => {
            scaled(low, wave_sample(u32::from(*first), n)) + chorus(high, further, n)
        }
        None => 0,
    }
}
