// Sums over a window.
ghost use Rattle.std.specs.Prelude.{◌≡◌, ◌≤◌, ◌*◌, ◌*ℤ◌, length, unsigned_abs};
ghost use Rattle.xb_ear.specs.Levels.{correlated, cosine_of, squares, total, wave_of};

use xb_sound::{sine_at, sine_sample};

// How many places of the table a cosine is ahead of a sine.
const QUARTER: u64 = 20;

// A wave that a window is compared with.
#[derive(Clone, Copy)]
pub(crate) enum Wave {
    // Which begins at 0.
    Sine,
    // Which is a quarter of a period ahead of it.
    Cosine,
}

// Sample n of a frequency in Hz that is a quarter of a period ahead.
fn cosine_sample(hz: u16, n: u32) -> i16
    ensures value { result ≡ cosine_of hz n }
    ensures bound { unsigned_abs result ≤ 10000 }
{
    let place = (u64::from(hz) * u64::from(n) / 100 + QUARTER) % 80;
    sine_at(place as usize)
}

// Sample n of a wave of a frequency in Hz.
fn wave_sample(wave: Wave, hz: u16, n: u32) -> i16
    ensures value { result ≡ wave_of wave hz n }
    ensures bound { unsigned_abs result ≤ 10000 }
{
    match wave {
        Wave::Sine => sine_sample(hz, n),
        Wave::Cosine => cosine_sample(hz, n),
    }
}

// A sample times one of a wave.
fn product(x: i16, y: i16) -> i64
    requires { unsigned_abs y ≤ 10000 }
    ensures value { result ≡ x *ℤ y }
    ensures bound { unsigned_abs result ≤ 327680000 }
{
    i64::from(x) * i64::from(y)
}

// The sum of the products of a window with a wave of a frequency in Hz.
pub(crate) fn with_wave(window: &[i16], wave: Wave, hz: u16) -> i64
    requires { length window.now ≤ 80 }
    ensures value { result ≡ correlated (wave_of wave hz) 0 window.now }
    ensures bound { unsigned_abs result ≤ 327680000 * length window.now }
{
    let mut sum = 0i64;
    let mut n = 0u32;
    for x in window {
        sum += product(*x, wave_sample(wave, hz, n));
        n += 1;
    }
    sum
}

/// The sum of the squares of samples, of 1,000 at most.
pub fn squares(samples: &[i16]) -> u64
    requires { length samples.now ≤ 1000 }
    ensures value { result ≡ squares samples.now }
    ensures bound { result ≤ 1073741824 * length samples.now }
{
    let mut sum = 0u64;
    for x in samples {
        let size = u64::from(x.unsigned_abs());
        sum += size * size;
    }
    sum
}

// The sum of a window.
pub(crate) fn total(window: &[i16]) -> i64
    requires { length window.now ≤ 80 }
    ensures value { result ≡ total window.now }
    ensures bound { unsigned_abs result ≤ 32768 * length window.now }
{
    let mut sum = 0i64;
    for x in window {
        sum += i64::from(*x);
    }
    sum
}
