// What a pair of tones stands for.
use xb_model::{Key, Tone, key_of};

/// What a pair of tones stands for in System R1.
#[derive(Clone, Copy, Debug, PartialEq, Eq)]
pub enum Meaning {
    /// A key of the office: a digit, KP or ST.
    Key(Key),
    /// ST', which ends a keying.
    StPrime,
    /// KP2, which begins a keying, and ST'', which ends one, by the same pair.
    Kp2OrStSecond,
    /// ST''', which ends a keying.
    StThird,
}

impl Meaning {
    ghost use Rattle.std.specs.Prelude.{◌≡◌};
    ghost use Rattle.xb_measured.specs.Meanings.{meaning_of, name_text};

    /// What a pair of the six frequencies stands for. Of those of no key of the office the lower tone tells which it is.
    pub fn of(pair: Tone) -> Meaning
        ensures { result ≡ meaning_of pair }
    {
        match key_of(pair) {
            Some(key) => Meaning::Key(key),
            None => match pair.low {
                900 => Meaning::StPrime,
                1_300 => Meaning::Kp2OrStSecond,
                _ => Meaning::StThird,
            },
        }
    }

    /// Its name: `0` to `9`, `KP`, `ST`, `ST'`, `KP2/ST''` or `ST'''`.
    pub fn name(self) -> &'static str
        ensures { result.now ≡ name_text self }
    {
        match self {
            Meaning::Key(key) => key.name(),
            Meaning::StPrime => "ST'",
            Meaning::Kp2OrStSecond => "KP2/ST''",
            Meaning::StThird => "ST'''",
        }
    }
}
