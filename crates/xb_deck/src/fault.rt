// Why a deck has no contents.
ghost use Rattle.std.specs.Prelude.{◌≡◌};

use crate::table::TableFault;
use std::fmt;
use thiserror::Error;
use xb_model::RowFault;
use xb_routes::RouteFault;
use xb_text::ReadFault;

/// Why a deck has no contents.
///
/// Of the faults of a deck, the first in the order `TooLong`, `NoCut`, `Routes`, `Rows` is returned. Running
/// out of memory is always `NoMemory`, also one of a `RouteFault` or a `RowFault`.
#[derive(Clone, Copy, Debug, PartialEq, Eq, Error)]
pub enum DeckFault {
    /// A read of the deck failed, an interrupted one too.
    Read,
    /// The deck has more than 16,777,216 bytes.
    TooLong,
    /// No line of the deck is exactly `---`.
    NoCut,
    /// The route table is refused.
    Routes(RouteFault),
    /// The loop rows are refused.
    Rows(RowFault),
    /// Memory ran out.
    NoMemory,
}

impl fmt::Display for DeckFault {
    ghost use Rattle.std.specs.Prelude.{Some};
    ghost use Rattle.xb_deck.specs.FaultTexts.{deck_text};

    ghost output = { λ fault. Some (deck_text fault) };

    fn fmt<W: fmt::Write>(&self, f: &mut fmt::Formatter<W>) -> fmt::Result {
        match self {
            DeckFault::Read => write!(f, "{}", TableFault::Read),
            DeckFault::TooLong => f.write_str("the deck is longer than 16777216 bytes"),
            DeckFault::NoCut => write!(f, "{}", TableFault::NoCut),
            DeckFault::Routes(fault) => write!(f, "route table: {fault}"),
            DeckFault::Rows(fault) => write!(f, "loop rows: {fault}"),
            DeckFault::NoMemory => f.write_str("out of memory"),
        }
    }
}

impl From<ReadFault> for DeckFault {
    ghost use Rattle.xb_deck.specs.Faults.{of_read};

    ghost from_gives = { λ fault e. e ≡ of_read fault };

    fn from(fault: ReadFault) -> DeckFault {
        match fault {
            ReadFault::Failed => DeckFault::Read,
            ReadFault::TooLong => DeckFault::TooLong,
            ReadFault::NoMemory => DeckFault::NoMemory,
        }
    }
}

impl From<RouteFault> for DeckFault {
    ghost use Rattle.xb_deck.specs.Faults.{IsOfRoutes};

    ghost from_gives = { IsOfRoutes };

    fn from(fault: RouteFault) -> DeckFault {
        match fault {
            RouteFault::NoMemory => DeckFault::NoMemory,
            fault => DeckFault::Routes(fault),
        }
    }
}

impl From<RowFault> for DeckFault {
    ghost use Rattle.xb_deck.specs.Faults.{IsOfRows};

    ghost from_gives = { IsOfRows };

    fn from(fault: RowFault) -> DeckFault {
        match fault {
            RowFault::NoMemory => DeckFault::NoMemory,
            fault => DeckFault::Rows(fault),
        }
    }
}
