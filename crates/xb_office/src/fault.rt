// Why an office gives no page.
ghost use Rattle.std.specs.Prelude.{◌≡◌};

use std::fmt;
use thiserror::Error;
use xb_deck::DeckFault;
use xb_flow::Post;
use xb_model::RowFault;
use xb_routes::RouteFault;
use xb_text::WriteFault;

/// Why a deck gives no page.
///
/// Of the faults of a deck, the first in the order `DeckTooLong`, `NoCut`, `Routes`, `Rows` is
/// returned; `Bank` only for a deck that has none of them. Running out of memory is always `NoMemory`,
/// also one of a `RouteFault` or a `RowFault`.
#[derive(Clone, Copy, Debug, PartialEq, Eq, Error)]
pub enum OfficeFault {
    /// A read of the deck failed, an interrupted one too.
    Read,
    /// The deck has more than 16,777,216 bytes.
    DeckTooLong,
    /// No line of the deck is exactly `---`.
    NoCut,
    /// The route table is refused.
    Routes(RouteFault),
    /// The loop rows are refused.
    Rows(RowFault),
    /// This post could not be started on a thread.
    Bank(Post),
    /// Memory ran out.
    NoMemory,
    /// A write or the flush failed, or a write took no byte. The beginning of the page was written.
    Write,
}

impl fmt::Display for OfficeFault {
    ghost use Rattle.std.specs.Prelude.{Some};
    ghost use Rattle.xb_office.specs.FaultTexts.{office_text};

    ghost output = { λ fault. Some (office_text fault) };

    fn fmt<W: fmt::Write>(&self, f: &mut fmt::Formatter<W>) -> fmt::Result {
        match self {
            OfficeFault::Read => write!(f, "{}", DeckFault::Read),
            OfficeFault::DeckTooLong => write!(f, "{}", DeckFault::TooLong),
            OfficeFault::NoCut => write!(f, "{}", DeckFault::NoCut),
            OfficeFault::Routes(fault) => write!(f, "{}", DeckFault::Routes(*fault)),
            OfficeFault::Rows(fault) => write!(f, "{}", DeckFault::Rows(*fault)),
            OfficeFault::Bank(post) => write!(f, "the post {post} could not be started"),
            OfficeFault::NoMemory => f.write_str("out of memory"),
            OfficeFault::Write => f.write_str("the page could not be written"),
        }
    }
}

impl From<DeckFault> for OfficeFault {
    ghost use Rattle.xb_office.specs.Faults.{of_deck};

    ghost from_gives = { λ fault e. e ≡ of_deck fault };

    fn from(fault: DeckFault) -> OfficeFault {
        match fault {
            DeckFault::Read => OfficeFault::Read,
            DeckFault::TooLong => OfficeFault::DeckTooLong,
            DeckFault::NoCut => OfficeFault::NoCut,
            DeckFault::Routes(fault) => OfficeFault::Routes(fault),
            DeckFault::Rows(fault) => OfficeFault::Rows(fault),
            DeckFault::NoMemory => OfficeFault::NoMemory,
        }
    }
}

impl From<WriteFault> for OfficeFault {
    ghost use Rattle.xb_office.specs.declared.fault.OfficeFault.TheVariants.{Write};

    ghost from_gives = { λ _ e. e ≡ Write };

    fn from(_fault: WriteFault) -> OfficeFault {
        OfficeFault::Write
    }
}
