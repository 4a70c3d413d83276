// How a signal sounds beside its words.
ghost use Rattle.std.specs.Prelude.{◌≡◌};
ghost use Rattle.xb_signal.specs.Settings.{standard_setting};

use crate::form::Form;
use crate::shape::Shape;
use crate::steady::Steady;

/// How loud the tones of a signal are, and what is added to its samples.
#[derive(Clone, Copy, Debug, PartialEq, Eq)]
pub struct Setting {
    /// The amplitude of the first frequency of a segment, which is the low one of a key; 10,000 is -7.2 dBm0.
    pub low: u16,
    /// The amplitude of each further one, so of the high one of a key.
    pub high: u16,
    /// How the tones of each key are disturbed.
    pub shape: Shape,
    /// What sounds all through.
    pub steady: Steady,
    /// The greatest noise that is added to a sample, or taken from it. 0 is none.
    pub noise_peak: u16,
    /// Which noise it is: the state that the generator begins in.
    pub seed: u64,
    /// Whether samples of more than 16 bits are cut. Else a word that may have some is a fault.
    pub clip: bool,
    /// How each sample is written.
    pub form: Form,
}

impl Setting {
    /// Each frequency at -7.2 dBm0, nothing disturbed, nothing added, and samples of 16 bits.
    pub fn standard() -> Setting
        ensures { result ≡ standard_setting }
    {
        Setting {
            low: 10_000,
            high: 10_000,
            shape: Shape::standard(),
            steady: Steady::silent(),
            noise_peak: 0,
            seed: 0,
            clip: false,
            form: Form::Linear,
        }
    }
}
