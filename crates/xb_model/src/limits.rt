// The limits by which pulses are judged.
ghost use Rattle.std.specs.Prelude.{◌≡◌};
ghost use Rattle.xb_model.specs.LawfulLimits.{IsLawful, standard_limits};

/// The greatest value of any limit, in ms. Running totals stop here.
pub const GREATEST_LIMIT: u32 = 1_000_000;

/// The limits of a line's pulses, each in ms.
///
/// They are lawful from 1 to 1,000,000 and in their order, `pulse_min` ≤ `pulse_max` < `release`
/// and `make_min` ≤ `pause` < `timeout`; the type does not enforce it. They lie in memory as C has
/// them, for a caller of another language.
#[repr(C)]
#[derive(Clone, Copy, Debug, PartialEq, Eq)]
pub struct Limits {
    /// The shortest break that is a pulse.
    pub pulse_min: u32,
    /// The longest break that is a pulse.
    pub pulse_max: u32,
    /// The shortest make between two pulses.
    pub make_min: u32,
    /// A make of this or more after a pulse ends the digit.
    pub pause: u32,
    /// A break of this or more releases the line.
    pub release: u32,
    /// A make of this or more times out an unfinished attempt.
    pub timeout: u32,
}

impl Limits {
    /// The limits of the profile: 20, 119, 15, 180, 300 and 20,000 ms.
    pub fn standard() -> Limits
        ensures value { result ≡ standard_limits }
        ensures lawful { IsLawful result }
    {
        Limits {
            pulse_min: 20,
            pulse_max: 119,
            make_min: 15,
            pause: 180,
            release: 300,
            timeout: 20_000,
        }
    }
}
