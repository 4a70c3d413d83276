// How loud a sound is.
ghost use Rattle.std.specs.Prelude.{◌≡◌, ◌<◌, ◌≤◌, ◌*◌, ◌^◌, IfOk, string_bytes};
ghost use Rattle.xb_measured.specs.Meters.{loudness_text, mean_text, peak_text};

use crate::levels::{ZERO_DBM0, tenths_of, tenths_text};
use crate::seconds::seconds_text;
use std::alloc::{AllocError, Global};
use std::marker::Model;

const SAMPLES_PER_MS: u64 = 8;

// The mean is reckoned in thousandths, which are so many tenths of a dB.
const THOUSAND: u32 = 300;

/// The samples of a sound so far: how many there are, the strongest, and the sum of their squares.
#[derive(Drop)]
pub struct Meter {
    samples: u64,
    peak: u32,
    squares: u128,
}

// Clauses see its three numbers.
impl Model for Meter {
    ghost use Rattle.std.specs.Prelude.{◌*◌, ◌^◌, ◌≤◌};
    ghost use Rattle.xb_measured.specs.Meters.{Metered};

    ghost Value = { Metered };

    ghost view = { λ m. record { samples = m.samples; peak = m.peak; squares = m.squares } };

    ghost invariant = { λ m.
        (m.samples ≤ 2 ^ 63) × (m.peak ≤ 32768) × (m.peak ≤ 32768 * m.samples) × (m.squares ≤ 2 ^ 30 * m.samples) };
}

// The level of a sine of this amplitude.
fn peak_text(alloc: Global, peak: u32) -> Result<String, AllocError>
    requires { peak ≤ 32768 }
    ensures { IfOk result (λ text. string_bytes text ≡ peak_text peak) }
{
    let level = tenths_of(u64::from(peak * peak));
    tenths_text(alloc, level, ZERO_DBM0)
}

// The level of a sine with the power of so many samples whose squares have this sum.
fn mean_text(alloc: Global, samples: u64, squares: u128) -> Result<String, AllocError>
    requires some { 0 < samples }
    requires most { squares ≤ 2 ^ 30 * samples }
    requires few { samples ≤ 2 ^ 63 }
    ensures { IfOk result (λ text. string_bytes text ≡ mean_text samples squares) }
{
    let mean = 2000 * squares / u128::from(samples);
    let level = tenths_of(mean as u64);
    tenths_text(alloc, level, ZERO_DBM0 + THOUSAND)
}

// Both, or that there was silence.
fn loudness_text(
    alloc: Global,
    samples: u64,
    peak: u32,
    squares: u128,
) -> Result<String, AllocError>
    requires high { peak ≤ 32768 }
    requires some { peak ≤ 32768 * samples }
    requires most { squares ≤ 2 ^ 30 * samples }
    requires few { samples ≤ 2 ^ 63 }
    ensures { IfOk result (λ text. string_bytes text ≡ loudness_text samples peak squares) }
{
    if peak == 0 {
        return String::from_str(alloc, "silence");
    }
    let peak = peak_text(alloc, peak)?;
    let mean = mean_text(alloc, samples, squares)?;
    format!(in alloc; "peak {peak} dBm0, mean {mean} dBm0")
}

impl Meter {
    ghost use Rattle.std.specs.Prelude.{◌≡◌, ◌+◌, ◌<◌, ◌^◌, [], ◌∷◌, ◌++◌, IfOk, List, ℤ, string_bytes};
    ghost use Rattle.xb_measured.specs.Meters.{metered, quiet_line};

    /// Before the first sample.
    pub fn new() -> Meter
        ensures { result ≡ metered [] }
    {
        Meter {
            samples: 0,
            peak: 0,
            squares: 0,
        }
    }

    /// Takes a sample.
    pub fn take(&mut self, sample: i16)
        requires { self.old.samples < 2 ^ 63 }
        ensures more { (samples : List ℤ) → self.old ≡ metered samples
            → self.new ≡ metered (samples ++ sample ∷ []) }
        ensures count { self.new.samples ≡ self.old.samples + 1 }
    {
        let height = u32::from(sample.unsigned_abs());
        self.samples += 1;
        self.peak = self.peak.max(height);
        self.squares += u128::from(height * height);
    }

    /// The line that tells of a sound in which no key was heard: how long it is, the level of a sine as high as its
    /// strongest sample, and that of a sine with its power. `Err` says that memory ran out.
    pub fn quiet_line(&self, alloc: Global) -> Result<String, AllocError>
        ensures { IfOk result (λ text. string_bytes text ≡ quiet_line self.now) }
    {
        let seconds = seconds_text(alloc, self.samples / SAMPLES_PER_MS)?;
        let loudness = loudness_text(alloc, self.samples, self.peak, self.squares)?;
        format!(in alloc; "mfrx: no key is heard in {seconds} s: {loudness}\n")
    }
}
