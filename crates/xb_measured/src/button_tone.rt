// How strong a frequency is in a block.
ghost use Rattle.std.specs.Prelude.{◌≡◌, ◌≤◌, ◌<◌, ◌*◌, ◌^◌, ◌*ℤ◌, length, unsigned_abs};
ghost use Rattle.xb_measured.specs.ButtonBlocks.{level, wave_of};
ghost use Rattle.xb_ear.specs.Levels.{correlated};

use xb_signal::wave_at;

// A sine of amplitude A correlates with itself to so many times A in a block of 160 samples.
const FULL: u64 = 800_000;

// A quarter of the 8,000 samples of a period of 1 Hz.
const QUARTER: u64 = 2_000;

// Sample n of a frequency in Hz, so many samples of 1 Hz ahead.
fn wave(hz: u16, ahead: u64, n: u32) -> i16
    requires { ahead ≤ 2000 }
    ensures value { result ≡ wave_of hz ahead n }
    ensures bound { unsigned_abs result ≤ 10000 }
{
    let place = (u64::from(hz) * u64::from(n) + ahead) % 8_000;
    wave_at(place as usize)
}

// A sample times one of a wave.
fn product(x: i16, y: i16) -> i64
    requires { unsigned_abs y ≤ 10000 }
    ensures value { result ≡ x *ℤ y }
    ensures bound { unsigned_abs result ≤ 327680000 }
{
    i64::from(x) * i64::from(y)
}

// The sum of the products of a block with a wave.
fn with_wave(block: &[i16], hz: u16, ahead: u64) -> i64
    requires ahead { ahead ≤ 2000 }
    requires length { length block.now ≤ 160 }
    ensures value { result ≡ correlated (wave_of hz ahead) 0 block.now }
    ensures bound { unsigned_abs result ≤ 327680000 * 160 }
{
    let mut sum = 0i64;
    let mut n = 0u32;
    for x in block {
        sum += product(*x, wave(hz, ahead, n));
        n += 1;
    }
    sum
}

// How strong a frequency is: the square of its amplitude, whatever its phase.
pub(crate) fn level(block: &[i16], hz: u16) -> u64
    requires { length block.now ≤ 160 }
    ensures value { result ≡ level block.now hz }
    ensures bound { result < 2 ^ 40 }
{
    let sine = with_wave(block, hz, 0).unsigned_abs() / FULL;
    let cosine = with_wave(block, hz, QUARTER).unsigned_abs() / FULL;
    sine * sine + cosine * cosine
}
