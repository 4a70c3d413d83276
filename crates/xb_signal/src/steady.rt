// What sounds all through a signal: a steady tone, and the hum of the mains.
ghost use Rattle.std.specs.Prelude.{◌≡◌, ◌<◌, ◌≤◌, ◌*◌, unsigned_abs};
ghost use Rattle.xb_signal.specs.Steadies.{harmonic, hum_peak, hum_sample, mains_peak, mains_sample, portion, silent_steady, steady_peak, steady_sample, tone_sample};

use crate::wave::{scaled, wave_sample};

/// What sounds all through a signal, in tones and in silence.
#[derive(Clone, Copy, Debug, PartialEq, Eq)]
pub struct Steady {
    /// The frequency of a steady tone, in Hz.
    pub hz: u16,
    /// Its amplitude. 0 is none.
    pub amplitude: u16,
    /// The amplitude of the mains in their hum. 0 is none.
    pub hum: u16,
}

impl Steady {
    /// Nothing.
    pub fn silent() -> Steady
        ensures { result ≡ silent_steady }
    {
        Steady {
            hz: 0,
            amplitude: 0,
            hum: 0,
        }
    }
}

// The frequency of the mains, in Hz.
const MAINS_HZ: u32 = 60;

// The mains and their seven harmonics have the numbers below this.
const HARMONICS_END: u16 = 9;

// After how many samples a hum comes again: three periods of the mains.
const HUM_SAMPLES: u32 = 400;

// The amplitude of a harmonic: as many times less as its number is, rounded.
fn portion(amplitude: u16, number: u16) -> u16
    requires { 0 < number }
    ensures { result ≡ portion amplitude number }
{
    ((u32::from(amplitude) + u32::from(number / 2)) / u32::from(number)) as u16
}

// Sample n of a harmonic of the mains, from a start at 0.
fn harmonic(amplitude: u16, number: u16, n: u32) -> i32
    requires { 0 < number }
    ensures value { result ≡ harmonic amplitude number n }
    ensures bound { unsigned_abs result ≤ 65535 }
{
    let sample = wave_sample(MAINS_HZ * u32::from(number), n);
    scaled(portion(amplitude, number), sample)
}

// Sample n of the mains and of their harmonics.
fn mains_sample(amplitude: u16, n: u32) -> i32
    ensures value { result ≡ mains_sample amplitude n }
    ensures bound { unsigned_abs result ≤ 524280 }
{
    let mut sum = 0i32;
    for number in 1..HARMONICS_END {
        sum += harmonic(amplitude, number, n);
    }
    sum
}

// Sample n of a hum.
fn hum_sample(amplitude: u16, n: u32) -> i32
    ensures value { result ≡ hum_sample amplitude n }
    ensures bound { unsigned_abs result ≤ 524280 }
{
    if amplitude == 0 {
        return 0;
    }
    mains_sample(amplitude, n)
}

// The greatest sample of the mains and of their harmonics.
fn mains_peak(amplitude: u16) -> u32
    ensures value { result ≡ mains_peak amplitude }
    ensures bound { result ≤ 524280 }
{
    let mut peak = 0u32;
    for n in 0..HUM_SAMPLES {
        let sample = mains_sample(amplitude, n);
        peak = peak.max(sample.unsigned_abs());
    }
    peak
}

// The greatest sample of a hum.
fn hum_peak(amplitude: u16) -> u32
    ensures value { result ≡ hum_peak amplitude }
    ensures bound { result ≤ 524280 }
{
    if amplitude == 0 {
        return 0;
    }
    mains_peak(amplitude)
}

// Sample n of a steady tone.
fn tone_sample(steady: &Steady, n: u32) -> i32
    ensures value { result ≡ tone_sample steady.now n }
    ensures bound { unsigned_abs result ≤ 65535 }
{
    if steady.amplitude == 0 {
        return 0;
    }
    scaled(steady.amplitude, wave_sample(u32::from(steady.hz), n))
}

// Sample n of what sounds all through, from a start at 0.
pub(crate) fn steady_sample(steady: &Steady, n: u32) -> i32
    ensures value { result ≡ steady_sample steady.now n }
    ensures bound { unsigned_abs result ≤ 589815 }
{
    tone_sample(steady, n) + hum_sample(steady.hum, n)
}

// How much what sounds all through may add to a sample, or take from it.
pub(crate) fn steady_peak(steady: &Steady) -> u32
    ensures value { result ≡ steady_peak steady.now }
    ensures bound { result ≤ 589815 }
{
    u32::from(steady.amplitude) + hum_peak(steady.hum)
}
