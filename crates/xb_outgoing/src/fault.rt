// Why a table is refused, or not read.
ghost use Rattle.std.specs.Prelude.{◌≡◌};

use std::fmt;
use thiserror::Error;
use xb_command::OpenFault;
use xb_model::RowFault;
use xb_routes::RouteFault;

/// Why a table is refused. A number is that of the route, the first being 1. The first fault in this order is
/// returned: that of the table without `send`, and then those of each route in turn. `NoMemory` comes where memory ran
/// out, before any later check.
#[derive(Clone, Copy, Debug, PartialEq, Eq, Error)]
pub enum OutgoingFault {
    /// It is refused whatever `send` says.
    Routes(RouteFault),
    /// `send` of the route is not the text `dp`.
    Send(usize),
    /// An earlier route of the same trunk group is sent in another way.
    Differs(usize),
    /// Memory ran out.
    NoMemory,
}

impl fmt::Display for OutgoingFault {
    ghost use Rattle.std.specs.Prelude.{Some};
    ghost use Rattle.xb_outgoing.specs.FaultTexts.{outgoing_text};

    ghost output = { λ fault. Some (outgoing_text fault) };

    fn fmt<W: fmt::Write>(&self, f: &mut fmt::Formatter<W>) -> fmt::Result {
        match self {
            OutgoingFault::Routes(fault) => write!(f, "{fault}"),
            OutgoingFault::Send(number) => write!(f, "route {number} has a wrong send"),
            OutgoingFault::Differs(number) => write!(
                f,
                "route {number} is not sent as an earlier one of its trunk"
            ),
            OutgoingFault::NoMemory => f.write_str("out of memory"),
        }
    }
}

/// Why a file has no table.
#[derive(Debug, Drop, Error)]
pub enum TableFault<'a> {
    /// It could not be read, or is no text.
    #[error("the route table could not be read: {0}")]
    File(OpenFault<'a>),
    /// Its text is refused.
    #[error("route table: {0}")]
    Text(OutgoingFault),
    /// Memory ran out.
    #[error("{}", RowFault::NoMemory)]
    NoMemory,
}

impl From<RouteFault> for OutgoingFault {
    ghost use Rattle.xb_outgoing.specs.Tables.{of_routes};

    ghost from_gives = { λ fault e. e ≡ of_routes fault };

    fn from(fault: RouteFault) -> OutgoingFault {
        match fault {
            RouteFault::NoMemory => OutgoingFault::NoMemory,
            fault => OutgoingFault::Routes(fault),
        }
    }
}
