// Why no page is written.
use crate::list::ListFault;
use crate::parts_fault::PartsFault;
use std::{fmt, io};
use thiserror::Error;
use xb_command::InOneLine;

/// Why no page is written; the file is named where there is one, in one line. The list comes first, then the files of
/// the pages, how many these are, and what they have: a fault is told only where those before it have none. Memory may
/// run out at any of them. Nothing was written, except on `Write`.
#[derive(Debug, Drop, Error)]
pub enum JoinFault<'a> {
    /// A file could not be read.
    File(&'a str, io::Error),
    /// The list is none.
    List(&'a str, ListFault),
    /// There are more pages than parts in the list, this many.
    TooMany(usize),
    /// The page of a part is damaged, or out of its place.
    Page(&'a str, PartsFault),
    /// A part is missing, or memory ran out.
    Parts(PartsFault),
    /// Memory ran out.
    NoMemory,
    /// A write or the flush failed, or a write took no byte. The beginning of the page was written.
    Write,
}

impl<'a> fmt::Display for JoinFault<'a> {
    ghost use Rattle.xb_parts.specs.FaultTexts.{join_text};

    ghost output = { join_text };

    fn fmt<W: fmt::Write>(&self, f: &mut fmt::Formatter<W>) -> fmt::Result {
        match self {
            JoinFault::File(name, error) => write!(f, "{}: {error}", InOneLine(name)),
            JoinFault::List(name, fault) => write!(f, "{}: {fault}", InOneLine(name)),
            JoinFault::TooMany(number) => write!(
                f,
                "there are more pages than the {number} parts of the list"
            ),
            JoinFault::Page(name, fault) => write!(f, "{}: {fault}", InOneLine(name)),
            JoinFault::Parts(fault) => write!(f, "{fault}"),
            JoinFault::NoMemory => f.write_str("out of memory"),
            JoinFault::Write => f.write_str("the page could not be written"),
        }
    }
}
