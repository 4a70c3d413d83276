// Why nothing is told of a recording, or nothing further.
ghost use Rattle.std.specs.Prelude.{◌≡◌, map, option_map};
ghost use Rattle.xb_feed.specs.LackedWires.{missing_in, missing_name, missing_wire};

use crate::reading::Unread;
use std::alloc::AllocError;
use std::fmt;
use thiserror::Error;
use xb_contact::Refusal;
use xb_text::WriteFault;

/// Why nothing is told of a recording, or nothing further. What was written before stands.
#[derive(Debug, Drop, Error)]
pub enum RecordingFault {
    /// A text line, counted from 1, is refused; what it begins with.
    Line(u64, Refusal, String),
    /// A sample, counted from 1, is refused.
    Sample(u64, Refusal),
    /// The recording is refused before it is read.
    Beginning(Refusal),
    /// Its end is refused.
    End(Refusal),
    /// It ends before the wire of this line has a level.
    NoLevel(u16),
    /// A read failed, an interrupted one too, or the recording had not ended after 2^64 - 1 reads.
    Read(Unread),
    /// A write or the flush failed, or a write took no byte.
    Write,
    /// Memory ran out.
    NoMemory,
}

impl fmt::Display for RecordingFault {
    ghost use Rattle.std.specs.Prelude.{Some};
    ghost use Rattle.xb_feed.specs.FaultTexts.{recording_text};

    ghost output = { λ fault. Some (recording_text fault) };

    fn fmt<W: fmt::Write>(&self, f: &mut fmt::Formatter<W>) -> fmt::Result {
        match self {
            RecordingFault::Line(number, refusal, text) => write!(
                f,
                "text line {number}: {refusal}: {text}"
            ),
            RecordingFault::Sample(number, refusal) => write!(f, "sample {number}: {refusal}"),
            RecordingFault::Beginning(refusal) => write!(f, "the recording: {refusal}"),
            RecordingFault::End(refusal) => write!(f, "the end of the recording: {refusal}"),
            RecordingFault::NoLevel(line) => write!(
                f,
                "the wire of line {line} has no level in the recording"
            ),
            RecordingFault::Read(_) => f.write_str("the recording could not be read"),
            RecordingFault::Write => f.write_str("the rows could not be written"),
            RecordingFault::NoMemory => f.write_str("out of memory"),
        }
    }
}

// The wire that is missing, where that is the reason.
fn missing_in(refusal: Refusal) -> Option<usize>
    ensures { result ≡ missing_in refusal }
{
    match refusal {
        Refusal::NoWire(wire) => Some(wire),
        _ => None,
    }
}

// The first wire that is asked for and missing, where a recording is refused for that.
fn missing_wire(fault: &RecordingFault) -> Option<usize>
    ensures { result ≡ missing_wire fault.now }
{
    match fault {
        RecordingFault::Line(_, refusal, _)
        | RecordingFault::Sample(_, refusal)
        | RecordingFault::Beginning(refusal)
        | RecordingFault::End(refusal) => missing_in(*refusal),
        RecordingFault::NoLevel(_)
        | RecordingFault::Read(_)
        | RecordingFault::Write
        | RecordingFault::NoMemory => None,
    }
}

/// The first of these names, which are those that are asked for, that a recording has no wire of, where it is refused
/// for that.
pub fn missing_name<'a>(fault: &RecordingFault, names: &[&'a str]) -> Option<&'a str>
    ensures { option_map (λ name. name.now) result
        ≡ missing_name fault.now (map (λ name. name.now) names.now) }
{
    let wire = missing_wire(fault)?;
    names.get(wire).copied()
}

impl From<AllocError> for RecordingFault {
    ghost use Rattle.xb_feed.specs.declared.fault.RecordingFault.TheVariants.{NoMemory};

    ghost from_gives = { λ _ e. e ≡ NoMemory };

    fn from(_error: AllocError) -> RecordingFault {
        RecordingFault::NoMemory
    }
}

impl From<Unread> for RecordingFault {
    ghost use Rattle.xb_feed.specs.declared.fault.RecordingFault.TheVariants.{Read};

    ghost from_gives = { λ unread e. e ≡ Read unread };

    fn from(unread: Unread) -> RecordingFault {
        RecordingFault::Read(unread)
    }
}

impl From<WriteFault> for RecordingFault {
    ghost use Rattle.xb_feed.specs.declared.fault.RecordingFault.TheVariants.{Write};

    ghost from_gives = { λ _ e. e ≡ Write };

    fn from(_fault: WriteFault) -> RecordingFault {
        RecordingFault::Write
    }
}
