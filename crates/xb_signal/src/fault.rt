// Why words make no signal, and why a signal was not written whole.
ghost use Rattle.std.specs.Prelude.{◌≡◌};

use std::alloc::AllocError;
use std::fmt::{self, Display, Formatter, Write};
use thiserror::Error;
use xb_text::WriteFault;

/// Where a word stands in a text.
#[derive(Clone, Copy, Debug, PartialEq, Eq)]
pub struct Place {
    /// The number of the word, from 1.
    pub word: usize,
    /// The byte of the text at which it begins, from 1.
    pub byte: usize,
}

impl Display for Place {
    ghost use Rattle.std.specs.Prelude.{Some};
    ghost use Rattle.xb_signal.specs.FaultTexts.{place_text};

    ghost output = { λ place. Some (place_text place) };

    fn fmt<W: Write>(&self, f: &mut Formatter<W>) -> fmt::Result {
        write!(f, "word {}, at byte {}", self.word, self.byte)
    }
}

/// Why words make no signal: the first that has no meaning, or whose sound has no room in 16 bits.
#[derive(Clone, Copy, Debug, PartialEq, Eq, Error)]
pub enum KeysFault {
    /// There is no word.
    NoWords,
    /// A word is neither digits, nor the name of a key, nor what sounds for a time.
    NoWord(Place),
    /// The frequencies of a word together have samples of more than 16 bits.
    Loud(Place),
    /// Memory ran out.
    NoMemory,
}

impl fmt::Display for KeysFault {
    ghost use Rattle.std.specs.Prelude.{Some};
    ghost use Rattle.xb_signal.specs.FaultTexts.{keys_text};

    ghost output = { λ fault. Some (keys_text fault) };

    fn fmt<W: fmt::Write>(&self, f: &mut fmt::Formatter<W>) -> fmt::Result {
        match self {
            KeysFault::NoWords => f.write_str("there is no word"),
            KeysFault::NoWord(fault) => write!(f, "{fault}, is no key and no sound"),
            KeysFault::Loud(fault) => write!(f, "{fault}, is too loud for 16 bits"),
            KeysFault::NoMemory => f.write_str("out of memory"),
        }
    }
}

impl From<AllocError> for KeysFault {
    ghost use Rattle.xb_signal.specs.declared.fault.KeysFault.TheVariants.{NoMemory};

    ghost from_gives = { λ _ e. e ≡ NoMemory };

    fn from(_error: AllocError) -> KeysFault {
        KeysFault::NoMemory
    }
}

/// Why a signal was not written whole.
#[derive(Clone, Copy, Debug, PartialEq, Eq, Error)]
pub enum SignalFault {
    /// The file would have more than 4,294,967,295 bytes. Nothing was written.
    #[error("the signal is too long for a WAV file")]
    TooLong,
    /// Memory ran out. Nothing was written.
    #[error("out of memory")]
    NoMemory,
    /// A write or the flush failed, or a write took no byte. The beginning of the signal was written.
    #[error("the signal could not be written")]
    Write,
}

impl From<AllocError> for SignalFault {
    ghost use Rattle.xb_signal.specs.declared.fault.SignalFault.TheVariants.{NoMemory};

    ghost from_gives = { λ _ e. e ≡ NoMemory };

    fn from(_error: AllocError) -> SignalFault {
        SignalFault::NoMemory
    }
}

impl From<WriteFault> for SignalFault {
    ghost use Rattle.xb_signal.specs.declared.fault.SignalFault.TheVariants.{Write};

    ghost from_gives = { λ _ e. e ≡ Write };

    fn from(_fault: WriteFault) -> SignalFault {
        SignalFault::Write
    }
}
