// Why the pages of parts can't be joined.
ghost use Rattle.std.specs.Prelude.{◌≡◌};
ghost use Rattle.xb_parts.specs.Joining.{fault_of_page};

use crate::damage::Damage;
use std::alloc::AllocError;
use std::fmt;
use thiserror::Error;
use xb_page::PageFault;

/// Why pages can't be joined. Parts count from 1.
#[derive(Clone, Copy, Debug, PartialEq, Eq, Error)]
pub enum PartsFault {
    /// The lines of this part don't begin where those of the part before it end, or are not lines of the
    /// office.
    Lines(usize),
    /// The page of this part is damaged.
    Part(usize, Damage),
    /// The page of this part has a line that comes after those of the part.
    PastEnd(usize),
    /// No part has this line.
    Missing(u16),
    /// Memory ran out.
    NoMemory,
}

impl fmt::Display for PartsFault {
    ghost use Rattle.std.specs.Prelude.{Some};
    ghost use Rattle.xb_parts.specs.FaultTexts.{parts_text};

    ghost output = { λ fault. Some (parts_text fault) };

    fn fmt<W: fmt::Write>(&self, f: &mut fmt::Formatter<W>) -> fmt::Result {
        match self {
            PartsFault::Lines(part) => write!(
                f,
                "part {part}: its lines do not follow those of the part before"
            ),
            PartsFault::Part(part, fault) => write!(f, "part {part}: {fault}"),
            PartsFault::PastEnd(part) => write!(
                f,
                "part {part}: the page has a line of a later part"
            ),
            PartsFault::Missing(line) => write!(f, "no part has line {line}"),
            PartsFault::NoMemory => f.write_str("out of memory"),
        }
    }
}

impl From<AllocError> for PartsFault {
    ghost use Rattle.std.specs.Prelude.{◌≡◌};
    ghost use Rattle.xb_parts.specs.declared.parts_fault.PartsFault.TheVariants.{NoMemory};

    ghost from_gives = { λ _ fault. fault ≡ NoMemory };

    fn from(_error: AllocError) -> PartsFault {
        PartsFault::NoMemory
    }
}

// What is wrong with the page of the part of this number.
pub(crate) fn fault_of_page(part: usize, fault: PageFault) -> PartsFault
    ensures { result ≡ fault_of_page part fault }
{
    let damage = match fault {
        PageFault::NoMemory => return PartsFault::NoMemory,
        PageFault::Early(1) => Damage::Overlaps,
        PageFault::Early(n) | PageFault::Number(n) => Damage::OutOfOrder(n),
        PageFault::Line(n) | PageFault::Kind(n) => Damage::NoEntry(n),
        PageFault::Key(n) => Damage::WrongKey(n),
        PageFault::Refusal(n) => Damage::WrongRefusal(n),
        PageFault::Totals(_) => Damage::WrongTotals,
        PageFault::NoTotals(_) => Damage::NoTotals,
        PageFault::GoesOn(_) => Damage::GoesOn,
    };
    PartsFault::Part(part, damage)
}
