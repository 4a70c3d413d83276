// Why a dial is not told of, or not further.
use std::fmt;
use thiserror::Error;
use xb_command::InOneLine;
use xb_feed::RecordingFault;

/// Why nothing is told of a recording, or nothing further. What was written before stands.
#[derive(Debug, Drop, Error)]
pub enum BenchFault<'a> {
    /// The recording has a fault.
    Recording(RecordingFault),
    /// The recording lacks a wire; the first such name that is asked for, in one line.
    NoWire(RecordingFault, &'a str),
    /// A write or the flush failed, or a write took no byte.
    Write,
    /// Memory ran out.
    NoMemory,
}

impl<'a> fmt::Display for BenchFault<'a> {
    ghost use Rattle.std.specs.Prelude.{Some};
    ghost use Rattle.xb_bench.specs.FaultTexts.{bench_text};

    ghost output = { λ fault. Some (bench_text fault) };

    fn fmt<W: fmt::Write>(&self, f: &mut fmt::Formatter<W>) -> fmt::Result {
        match self {
            BenchFault::Recording(fault) => write!(f, "{fault}"),
            BenchFault::NoWire(fault, name) => write!(
                f,
                "the recording has no wire {}; {fault}",
                InOneLine(name)
            ),
            BenchFault::Write => f.write_str("the lines could not be written"),
            BenchFault::NoMemory => f.write_str("out of memory"),
        }
    }
}
