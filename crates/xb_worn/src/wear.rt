// A dial that is out of adjustment: its governor slows, and its contact is unsteady.
ghost use Rattle.std.specs.Prelude.{◌≡◌, ◌<◌, ◌^◌};
ghost use Rattle.xb_model.specs.declared.signal.TheConstants.{MOST_PULSES};
ghost use Rattle.xb_worn.specs.Wears.{above_zero, slowed, worn_pulse, worn_time};

use crate::pulse::SentPulse;
use xb_calls::Speed;
use xb_chance::swing;

/// How a dial is worn. A dial of 0 percent and 0 ms is not worn.
#[derive(Clone, Copy, Debug, PartialEq, Eq)]
pub struct Wear {
    /// The speed to which it was adjusted.
    pub speed: Speed,
    /// How much longer, in percent, a pulse lasts for each pulse before it in its digit.
    pub slow_percent: u16,
    /// How much longer or shorter, in ms, each break and each make between two pulses lasts at the most.
    pub jitter_ms: u16,
    /// The seed of the chance by which it is longer or shorter.
    pub seed: u64,
}

// A time in ms that is longer by a percentage for each of so many pulses before it.
fn slowed(percent: u16, before: u8, ms: u32) -> u64
    requires { before < MOST_PULSES }
    ensures value { result ≡ slowed percent before ms }
    ensures bound { result < 2 ^ 52 }
{
    u64::from(ms) * (100 + u64::from(percent) * u64::from(before)) / 100
}

// A time, and 0 for one below it.
fn above_zero(ms: i64) -> u64
    ensures { result ≡ above_zero ms }
{
    if ms < 0 { 0 } else { ms as u64 }
}

impl Wear {
    // Time `n` of a digit, of a pulse with so many before it, that was to last so many ms.
    fn time(&self, state: u64, n: u32, before: u8, ms: u32) -> u64
        requires pulse { before < MOST_PULSES }
        requires time { n < 20 }
        ensures { result ≡ worn_time self.now state n before ms }
    {
        let longer = slowed(self.slow_percent, before, ms);
        above_zero(longer as i64 + i64::from(swing(self.jitter_ms, state, n)))
    }

    /// A pulse of a digit, with so many before it, by the state of the digit.
    pub(crate) fn pulse(&self, state: u64, before: u8) -> SentPulse
        requires { before < MOST_PULSES }
        ensures { result ≡ worn_pulse self.now state before }
    {
        let n = 2 * u32::from(before);
        SentPulse {
            break_ms: self.time(state, n, before, self.speed.break_ms),
            make_ms: self.time(state, n + 1, before, self.speed.make_ms),
        }
    }
}
