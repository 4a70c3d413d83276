// Why a trace was not written whole.
ghost use Rattle.std.specs.Prelude.{◌≡◌};

use std::alloc::AllocError;
use thiserror::Error;
use xb_text::WriteFault;

/// Why a trace was not written whole.
#[derive(Clone, Copy, Debug, PartialEq, Eq, Error)]
pub enum TraceFault {
    /// The recording would end at 2^64 - 1 us or later. Nothing was written.
    #[error("the recording is too long")]
    TooLong,
    /// Memory ran out. Nothing was written.
    #[error("out of memory")]
    NoMemory,
    /// A write or the flush failed, or a write took no byte. The beginning of the trace was written.
    #[error("the recording could not be written")]
    Write,
}

impl From<AllocError> for TraceFault {
    ghost use Rattle.xb_dial.specs.declared.trace_fault.TraceFault.TheVariants.{NoMemory};

    ghost from_gives = { λ _ e. e ≡ NoMemory };

    fn from(_error: AllocError) -> TraceFault {
        TraceFault::NoMemory
    }
}

impl From<WriteFault> for TraceFault {
    ghost use Rattle.xb_dial.specs.declared.trace_fault.TraceFault.TheVariants.{Write};

    ghost from_gives = { λ _ e. e ≡ Write };

    fn from(_fault: WriteFault) -> TraceFault {
        TraceFault::Write
    }
}
