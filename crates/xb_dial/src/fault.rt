// Why no rows are printed.
ghost use Rattle.std.specs.Prelude.{◌≡◌};

use crate::trace_fault::TraceFault;
use std::alloc::AllocError;
use std::fmt;
use thiserror::Error;
use xb_calls::{CallFault, SpeedFault};
use xb_text::{ReadFault, WriteFault};
use xb_worn::WornFault;

/// Why no rows are printed: the first of these, in this order. Running out of memory is always
/// `NoMemory`, also one of a `CallFault`.
#[derive(Debug, Drop, Error)]
pub enum DialFault {
    /// A time of the speed does not fit the standard limits.
    Speed(SpeedFault),
    /// A read of the calls failed, an interrupted one too.
    Read,
    /// The text of the calls has more than 16,777,216 bytes.
    TooLong,
    /// A text line is refused.
    Calls(CallFault),
    /// The contact of one line is asked for, and the calls are of several.
    SeveralLines,
    /// A fault of the dial is at no place of the calls, or at that of another; or a time of a call may not stand in a
    /// row.
    Worn(WornFault),
    /// The dump would last 2^64 us or longer.
    LongDump,
    /// Memory ran out.
    NoMemory,
    /// A write or the flush failed, or a write took no byte. The beginning of the rows, or of the dump, was written.
    Write,
}

impl fmt::Display for DialFault {
    ghost use Rattle.std.specs.Prelude.{Some};
    ghost use Rattle.xb_dial.specs.FaultTexts.{dial_text};

    ghost output = { λ fault. Some (dial_text fault) };

    fn fmt<W: fmt::Write>(&self, f: &mut fmt::Formatter<W>) -> fmt::Result {
        match self {
            DialFault::Speed(fault) => write!(f, "speed: {fault}"),
            DialFault::Read => f.write_str("the calls could not be read"),
            DialFault::TooLong => f.write_str("the calls are longer than 16777216 bytes"),
            DialFault::Calls(fault) => write!(f, "{fault}"),
            DialFault::SeveralLines => f.write_str(
                "the calls are of several lines, and a dump has the contact of one",
            ),
            DialFault::Worn(fault) => write!(f, "{fault}"),
            DialFault::LongDump => f.write_str("the dump is too long"),
            DialFault::NoMemory => f.write_str("out of memory"),
            DialFault::Write => f.write_str("the rows could not be written"),
        }
    }
}

impl From<SpeedFault> for DialFault {
    ghost use Rattle.xb_dial.specs.declared.fault.DialFault.TheVariants.{Speed};

    ghost from_gives = { λ fault e. e ≡ Speed fault };

    fn from(fault: SpeedFault) -> DialFault {
        DialFault::Speed(fault)
    }
}

impl From<CallFault> for DialFault {
    ghost use Rattle.xb_dial.specs.Faults.{IsOfCalls};

    ghost from_gives = { IsOfCalls };

    fn from(fault: CallFault) -> DialFault {
        match fault {
            CallFault::NoMemory => DialFault::NoMemory,
            fault => DialFault::Calls(fault),
        }
    }
}

impl From<WornFault> for DialFault {
    ghost use Rattle.xb_dial.specs.Faults.{IsOfWorn};

    ghost from_gives = { IsOfWorn };

    fn from(fault: WornFault) -> DialFault {
        match fault {
            WornFault::NoMemory => DialFault::NoMemory,
            fault => DialFault::Worn(fault),
        }
    }
}

impl From<TraceFault> for DialFault {
    ghost use Rattle.xb_dial.specs.Faults.{of_trace};

    ghost from_gives = { λ fault e. e ≡ of_trace fault };

    fn from(fault: TraceFault) -> DialFault {
        match fault {
            TraceFault::TooLong => DialFault::LongDump,
            TraceFault::NoMemory => DialFault::NoMemory,
            TraceFault::Write => DialFault::Write,
        }
    }
}

impl From<ReadFault> for DialFault {
    ghost use Rattle.xb_dial.specs.Faults.{of_read};

    ghost from_gives = { λ fault e. e ≡ of_read fault };

    fn from(fault: ReadFault) -> DialFault {
        match fault {
            ReadFault::Failed => DialFault::Read,
            ReadFault::TooLong => DialFault::TooLong,
            ReadFault::NoMemory => DialFault::NoMemory,
        }
    }
}

impl From<AllocError> for DialFault {
    ghost use Rattle.xb_dial.specs.declared.fault.DialFault.TheVariants.{NoMemory};

    ghost from_gives = { λ _ e. e ≡ NoMemory };

    fn from(_error: AllocError) -> DialFault {
        DialFault::NoMemory
    }
}

impl From<WriteFault> for DialFault {
    ghost use Rattle.xb_dial.specs.declared.fault.DialFault.TheVariants.{Write};

    ghost from_gives = { λ _ e. e ≡ Write };

    fn from(_fault: WriteFault) -> DialFault {
        DialFault::Write
    }
}
