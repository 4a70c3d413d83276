// Why samples are not written.
ghost use Rattle.std.specs.Prelude.{◌≡◌};

use std::alloc::AllocError;
use std::fmt;
use thiserror::Error;
use xb_text::WriteFault;

/// Why samples were not written whole.
#[derive(Clone, Copy, Debug, PartialEq, Eq, Error)]
pub enum TrunkFault {
    /// Memory ran out. The beginning of the samples was written.
    NoMemory,
    /// A write or the flush failed, or a write took no byte. The beginning of the samples was written.
    Write,
}

impl fmt::Display for TrunkFault {
    ghost use Rattle.std.specs.Prelude.{Some};
    ghost use Rattle.xb_trunk.specs.FaultTexts.{trunk_text};

    ghost output = { λ fault. Some (trunk_text fault) };

    fn fmt<W: fmt::Write>(&self, f: &mut fmt::Formatter<W>) -> fmt::Result {
        match self {
            TrunkFault::NoMemory => f.write_str("out of memory"),
            TrunkFault::Write => f.write_str("the samples could not be written"),
        }
    }
}

impl From<AllocError> for TrunkFault {
    ghost use Rattle.xb_trunk.specs.declared.fault.TrunkFault.TheVariants.{NoMemory};

    ghost from_gives = { λ _ e. e ≡ NoMemory };

    fn from(_error: AllocError) -> TrunkFault {
        TrunkFault::NoMemory
    }
}

impl From<WriteFault> for TrunkFault {
    ghost use Rattle.xb_trunk.specs.declared.fault.TrunkFault.TheVariants.{Write};

    ghost from_gives = { λ _ e. e ≡ Write };

    fn from(_fault: WriteFault) -> TrunkFault {
        TrunkFault::Write
    }
}
