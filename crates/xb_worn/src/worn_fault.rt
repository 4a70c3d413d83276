// Why worn calls have no rows.

use std::alloc::AllocError;
use std::fmt;
use thiserror::Error;

/// Why worn calls have no rows.
#[derive(Clone, Copy, Debug, PartialEq, Eq, Error)]
pub enum WornFault {
    /// The calls do not have the place of the fault of this number, which counts from 1.
    NoSuchPlace(usize),
    /// The fault of this number stands at the place of an earlier one.
    SamePlace(usize),
    /// The hang-up is under 1 or over 86,400,000 ms.
    HangUp,
    /// In the call of this number, which counts from 1, a time is under 1 or over 86,400,000 ms.
    Time(usize),
    /// Memory ran out.
    NoMemory,
}

impl fmt::Display for WornFault {
    ghost use Rattle.std.specs.Prelude.{Some};
    ghost use Rattle.xb_worn.specs.FaultTexts.{worn_text};

    ghost output = { λ fault. Some (worn_text fault) };

    fn fmt<W: fmt::Write>(&self, f: &mut fmt::Formatter<W>) -> fmt::Result {
        match self {
            WornFault::NoSuchPlace(number) => write!(
                f,
                "fault {number} is at a place that is not there"
            ),
            WornFault::SamePlace(number) => write!(
                f,
                "fault {number} is at the place of an earlier fault"
            ),
            WornFault::HangUp => f.write_str("the hang-up is under 1 or over 86400000 ms"),
            WornFault::Time(number) => write!(
                f,
                "call {number} has a time under 1 or over 86400000 ms"
            ),
            WornFault::NoMemory => f.write_str("out of memory"),
        }
    }
}

impl From<AllocError> for WornFault {
    ghost use Rattle.std.specs.Prelude.{◌≡◌};
    ghost use Rattle.xb_worn.specs.declared.worn_fault.WornFault.TheVariants.{NoMemory};

    ghost from_gives = { λ _ e. e ≡ NoMemory };

    fn from(_error: AllocError) -> WornFault {
        WornFault::NoMemory
    }
}
