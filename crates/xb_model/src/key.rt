// Keys, and the pairs of tones that stand for them.
ghost use Rattle.std.specs.Prelude.{◌≡◌, ◌==◌, ◌&&◌, Some, IfSome};
ghost use Rattle.std.specs.List.{position};
ghost use Rattle.xb_model.specs.MfPairs.{mf_pair, digit_pair, digit_of_pair, key_of_pair};
ghost use Rattle.xb_model.specs.Page.{key_text};

use crate::digit::Digit;

/// What is keyed by one pair of tones.
#[derive(Clone, Copy, Debug, PartialEq, Eq)]
pub enum Key {
    /// A digit.
    Digit(Digit),
    /// KP, before the digits.
    Kp,
    /// ST, after the digits.
    St,
}

/// Two frequencies that sound together, in Hz.
#[derive(Clone, Copy, Debug, PartialEq, Eq)]
pub struct Tone {
    /// The lower one, in Hz.
    pub low: u16,
    /// The higher one, in Hz.
    pub high: u16,
}

// The two frequencies of each digit, from 0 on.
static DIGIT_PAIRS: [(u16, u16); 10] = [
    (1300, 1500),
    (700, 900),
    (700, 1100),
    (900, 1100),
    (700, 1300),
    (900, 1300),
    (1100, 1300),
    (700, 1500),
    (900, 1500),
    (1100, 1500),
];

// The pair of KP.
const KP: Tone = Tone {
    low: 1100,
    high: 1700,
};

// The pair of ST.
const ST: Tone = Tone {
    low: 1500,
    high: 1700,
};

// The pair of a digit.
fn digit_pair(digit: Digit) -> Tone
    ensures { result ≡ digit_pair digit }
{
    let (low, high) = DIGIT_PAIRS[usize::from(digit.get())];
    Tone { low, high }
}

// The place of a pair among some.
fn place_among(pairs: &[(u16, u16)], tone: Tone) -> Option<usize>
    ensures { result ≡ position (λ pair. (pair.0 == tone.low) && (pair.1 == tone.high)) pairs.now }
{
    pairs
        .iter()
        .position(|(low, high)| *low == tone.low && *high == tone.high)
}

// The digit of a pair.
fn digit_of(tone: Tone) -> Option<Digit>
    ensures { result ≡ digit_of_pair tone }
{
    Digit::new(place_among(&DIGIT_PAIRS, tone)? as u8)
}

impl Key {
    /// The name by which the page prints it: `KP`, `0` to `9`, `ST`.
    pub fn name(self) -> &'static str
        ensures { result.now ≡ key_text self }
    {
        match self {
            Key::Digit(digit) => digit.name(),
            Key::Kp => "KP",
            Key::St => "ST",
        }
    }
}

/// The MF pair of a key ("Notes on Distance Dialing").
pub fn mf(key: Key) -> Tone
    ensures pair { result ≡ mf_pair key }
    ensures own { key_of_pair result ≡ Some key }
{
    match key {
        Key::Digit(digit) => digit_pair(digit),
        Key::Kp => KP,
        Key::St => ST,
    }
}

/// The key whose MF pair this is; `None` of any other pair.
pub fn key_of(tone: Tone) -> Option<Key>
    ensures key { result ≡ key_of_pair tone }
    ensures pair { IfSome result (λ key. mf_pair key ≡ tone) }
{
    if tone == KP {
        Some(Key::Kp)
    } else if tone == ST {
        Some(Key::St)
    } else {
        Some(Key::Digit(digit_of(tone)?))
    }
}
