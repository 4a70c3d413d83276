// Why the program writes no deck, or no further rows of it.
ghost use Rattle.std.specs.Prelude.{◌≡◌};

use crate::wires::AllWires;
use crate::{ListFault, Listing};
use std::alloc::AllocError;
use std::{fmt, io};
use thiserror::Error;
use xb_command::InOneLine;
use xb_feed::RecordingFault;
use xb_routes::RouteFault;

/// Why the program writes no deck, or no further rows of it.
#[derive(Debug, Drop, Error)]
pub enum LoopFault<'a> {
    /// The file of the route table, which is named in one line, could not be read.
    Table(&'a str, io::Error),
    /// The route table is refused.
    Routes(RouteFault),
    /// The rows of the recording have a fault.
    Recording(RecordingFault),
    /// The recording lacks a wire; the first such name that is asked for, in one line.
    NoWire(RecordingFault, &'a str),
    /// No line is asked for; the wires of the recording, in one line.
    NoLine(Listing),
    /// No line is asked for, or the wires are, and they cannot be listed.
    Unlisted(ListFault),
    /// The wires could not be written whole.
    Wires,
    /// The wires were written, and it could not be told that there are more.
    More,
    /// All rows were written, and the bounces could not be told of.
    Tell,
    /// Memory ran out.
    NoMemory,
}

impl<'a> fmt::Display for LoopFault<'a> {
    ghost use Rattle.xb_loop.specs.FaultTexts.{loop_text};

    ghost output = { loop_text };

    fn fmt<W: fmt::Write>(&self, f: &mut fmt::Formatter<W>) -> fmt::Result {
        match self {
            LoopFault::Table(name, error) => write!(
                f,
                "the route table could not be read: {}: {error}",
                InOneLine(name)
            ),
            LoopFault::Routes(fault) => write!(f, "route table: {fault}"),
            LoopFault::Recording(fault) => write!(f, "{fault}"),
            LoopFault::NoWire(fault, name) => write!(
                f,
                "the recording has no wire {}; {fault}",
                InOneLine(name)
            ),
            LoopFault::NoLine(listing) => write!(
                f,
                "no line is asked for; the recording has {}",
                AllWires(listing)
            ),
            LoopFault::Unlisted(fault) => write!(f, "{fault}"),
            LoopFault::Wires => f.write_str("the wires could not be written"),
            LoopFault::More => f.write_str("that there are more wires could not be told"),
            LoopFault::Tell => f.write_str("the bounces could not be told of"),
            LoopFault::NoMemory => f.write_str("out of memory"),
        }
    }
}

impl<'a> From<RecordingFault> for LoopFault<'a> {
    ghost use Rattle.xb_loop.specs.declared.fault.LoopFault.TheVariants.{Recording};

    ghost from_gives = { λ fault e. e ≡ Recording fault };

    fn from(fault: RecordingFault) -> LoopFault<'a> {
        LoopFault::Recording(fault)
    }
}

impl<'a> From<AllocError> for LoopFault<'a> {
    ghost use Rattle.xb_loop.specs.declared.fault.LoopFault.TheVariants.{NoMemory};

    ghost from_gives = { λ _ e. e ≡ NoMemory };

    fn from(_error: AllocError) -> LoopFault<'a> {
        LoopFault::NoMemory
    }
}
