// The names of keys.
ghost use Rattle.std.specs.Prelude.{◌≡◌};
ghost use Rattle.xb_signal.specs.Names.{name_ms, name_of, pair_of};

use xb_model::{Key, Tone, mf};
use xb_sound::Cadence;

/// A key as a sender has it on its keyset: those of a page, and the further ones of System R1.
#[derive(Clone, Copy, Debug, PartialEq, Eq)]
pub enum Name {
    /// A key of a page: a digit, KP or ST.
    Key(Key),
    /// KP2, the start of another kind of call; it has the pair of ST''.
    Kp2,
    /// ST', which ends the digits and says more of the call.
    StPrime,
    /// ST'', which has the pair of KP2.
    StTwoPrimes,
    /// ST'''.
    StThreePrimes,
}

/// The two frequencies of a key.
pub(crate) fn pair_of(name: &Name) -> Tone
    ensures { result ≡ pair_of name.now }
{
    let (low, high) = match name {
        Name::Key(key) => return mf(*key),
        Name::Kp2 | Name::StTwoPrimes => (1_300, 1_700),
        Name::StPrime => (900, 1_700),
        Name::StThreePrimes => (700, 1_700),
    };
    Tone { low, high }
}

// How long the tone of a key lasts: KP and KP2 as KP, and any other as a digit.
pub(crate) fn name_ms(cadence: Cadence, name: &Name) -> u16
    ensures { result ≡ name_ms cadence name.now }
{
    match name {
        Name::Key(Key::Kp) | Name::Kp2 => cadence.kp_ms,
        Name::Key(_) | Name::StPrime | Name::StTwoPrimes | Name::StThreePrimes => cadence.key_ms,
    }
}

/// The key that a word names, but for digits.
pub(crate) fn name_of(word: &[u8]) -> Option<Name>
    ensures { result ≡ name_of word.now }
{
    match word {
        b"KP" => Some(Name::Key(Key::Kp)),
        b"ST" => Some(Name::Key(Key::St)),
        b"KP2" => Some(Name::Kp2),
        b"ST'" => Some(Name::StPrime),
        b"ST''" => Some(Name::StTwoPrimes),
        b"ST'''" => Some(Name::StThreePrimes),
        _ => None,
    }
}
