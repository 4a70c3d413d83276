// Why there are no tapes.
use std::alloc::AllocError;
use xb_flow::Post;
use xb_model::RowFault;

/// Why there are no tapes.
#[derive(Clone, Copy, Debug, PartialEq, Eq)]
pub enum BankFault {
    /// Memory ran out.
    NoMemory,
    /// The post could not be started.
    NoThread(Post),
    /// The source of the rows stopped with this fault, which is not that memory ran out.
    Rows(RowFault),
}

impl From<AllocError> for BankFault {
    ghost use Rattle.std.specs.Prelude.{◌≡◌};
    ghost use Rattle.xb_run.specs.declared.fault.BankFault.TheVariants.{NoMemory};

    ghost from_gives = { λ error fault. fault ≡ NoMemory };

    fn from(_error: AllocError) -> BankFault {
        BankFault::NoMemory
    }
}

impl From<RowFault> for BankFault {
    ghost use Rattle.std.specs.Prelude.{◌≡◌};
    ghost use Rattle.xb_run.specs.Faults.{bank_fault_of};

    ghost from_gives = { λ row_fault fault. fault ≡ bank_fault_of row_fault };

    fn from(fault: RowFault) -> BankFault {
        match fault {
            RowFault::NoMemory => BankFault::NoMemory,
            fault => BankFault::Rows(fault),
        }
    }
}
