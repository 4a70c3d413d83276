// Why a deck is not whole.
use std::fmt;
use thiserror::Error;
use xb_deck::DeckFault;

/// Why a deck is not whole, or could not be checked. Running out of memory is always `NoMemory`.
#[derive(Clone, Copy, Debug, PartialEq, Eq, Error)]
pub enum CheckFault {
    /// A read of the deck failed, an interrupted one too.
    Read,
    /// The deck has more than 16,777,216 bytes, and is not looked at.
    TooLong,
    /// The deck has more than 1,000,000 records, by which `mfbank` refuses it. What was found was told.
    TooMany,
    /// `mfbank` refuses the deck by this other fault, the first of it. What was found was told.
    Refused(DeckFault),
    /// A write or the flush failed, or a write took no byte. The beginning of what was found was written.
    Write,
    /// Memory ran out.
    NoMemory,
}

impl fmt::Display for CheckFault {
    ghost use Rattle.std.specs.Prelude.{Some};
    ghost use Rattle.xb_check.specs.FaultTexts.{check_text};

    ghost output = { λ fault. Some (check_text fault) };

    fn fmt<W: fmt::Write>(&self, f: &mut fmt::Formatter<W>) -> fmt::Result {
        match self {
            CheckFault::Read => f.write_str("the deck could not be read"),
            CheckFault::TooLong => f.write_str(
                "the deck is longer than 16777216 bytes; mfoffice split makes parts of it",
            ),
            CheckFault::TooMany => f.write_str(
                "loop rows: more than 1000000 records; mfoffice split makes parts of the deck",
            ),
            CheckFault::Refused(fault) => write!(f, "{fault}"),
            CheckFault::Write => f.write_str("what was found could not be written"),
            CheckFault::NoMemory => f.write_str("out of memory"),
        }
    }
}
