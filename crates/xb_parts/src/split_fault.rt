// Why a deck is not split.
ghost use Rattle.std.specs.Prelude.{◌≡◌, ◌≢◌, Err, List, Option, ℕ};
ghost use Rattle.xb_routes.specs.Text.{table_of_text};
ghost use Rattle.xb_parts.specs.SplitFaults.{HasParts, HasTable, IsFaultOf};

use crate::planning::PlanPartsFault;
use crate::writing::WriteRowsFault;
use std::{fmt, io};
use thiserror::Error;
use xb_command::InOneLine;
use xb_deck::TableFault;
use xb_model::RowFault;
use xb_routes::RouteFault;

/// Why the decks of parts are not made.
#[derive(Debug, Drop, Error)]
pub enum MakeFault {
    /// Their folder could not be made, under another name.
    Folder(io::Error),
    /// One of them could not be made in it.
    Part(io::Error),
}

impl fmt::Display for MakeFault {
    ghost use Rattle.xb_parts.specs.FaultTexts.{make_text};

    ghost output = { make_text };

    fn fmt<W: fmt::Write>(&self, f: &mut fmt::Formatter<W>) -> fmt::Result {
        match self {
            MakeFault::Folder(error) => write!(
                f,
                "the folder with .incomplete after its name could not be made: {error}"
            ),
            MakeFault::Part(error) => write!(f, "a part could not be made: {error}"),
        }
    }
}

/// Why a deck is not split.
#[derive(Debug, Drop, Error)]
pub enum SplitFault {
    /// The deck could not be opened.
    Deck(io::Error),
    /// The folder could not be looked at, or the parts could not get its name.
    Folder(io::Error),
    /// The decks of the parts could not be made.
    Make(MakeFault),
    /// The folder has something in it.
    NotEmpty,
    /// The deck gives no text of a route table.
    Table(TableFault),
    /// The table is one that an office refuses.
    Routes(RouteFault),
    /// The records have a fault.
    Rows(RowFault),
    /// There is no plan.
    Plan(PlanPartsFault),
    /// No parts were asked for.
    NoParts,
    /// There would be so many parts, which is more than files may be held open.
    TooMany(usize),
    /// A part could not be written.
    Write(io::Error),
    /// The deck was another when it was read again: its table, its records, or a line's.
    Changed,
    /// Memory ran out after the table was read.
    NoMemory,
}

impl fmt::Display for SplitFault {
    ghost use Rattle.xb_parts.specs.FaultTexts.{split_text};

    ghost output = { split_text };

    fn fmt<W: fmt::Write>(&self, f: &mut fmt::Formatter<W>) -> fmt::Result {
        match self {
            SplitFault::Deck(error) => write!(f, "the deck could not be opened: {error}"),
            SplitFault::Folder(error) => write!(f, "the folder could not be used: {error}"),
            SplitFault::Make(fault) => write!(f, "{fault}"),
            SplitFault::NotEmpty => f.write_str("the folder is not empty"),
            SplitFault::Table(fault) => write!(f, "{fault}"),
            SplitFault::Routes(fault) => write!(f, "route table: {fault}"),
            SplitFault::Rows(fault) => write!(f, "loop rows: {fault}"),
            SplitFault::Plan(fault) => write!(f, "{fault}"),
            SplitFault::NoParts => f.write_str("a deck has at least one part"),
            SplitFault::TooMany(number) => write!(
                f,
                "there would be {number} parts, and the most is 500"
            ),
            SplitFault::Write(error) => write!(f, "a part could not be written: {error}"),
            SplitFault::Changed => f.write_str("the deck has changed while it was split"),
            SplitFault::NoMemory => f.write_str("out of memory"),
        }
    }
}

/// That the deck of this name could not be opened, and why.
#[derive(Debug, Drop, Error)]
#[error("the deck could not be opened: {}: {}", InOneLine(.0), .1)]
pub(crate) struct Unopened<'a>(pub(crate) &'a str, pub(crate) io::Error);

// Why a table is refused.
pub(crate) fn fault_of_routes(fault: RouteFault) -> SplitFault
    ensures { (deck : Option (List ℕ)) (parts : Option ℕ)
        → (fault ≢ RouteFault.NoMemory → HasParts deck (λ cut. table_of_text cut.table ≡ Err fault))
        → IsFaultOf deck parts result }
{
    match fault {
        RouteFault::NoMemory => SplitFault::NoMemory,
        fault => SplitFault::Routes(fault),
    }
}

// Why they are not written. A fault in records that had none when they were counted says that the deck has
// changed.
pub(crate) fn fault_of_writing(fault: WriteRowsFault) -> SplitFault
    ensures { (deck : Option (List ℕ)) (parts : Option ℕ) → HasTable deck → IsFaultOf deck parts result }
{
    match fault {
        WriteRowsFault::Write(error) => SplitFault::Write(error),
        WriteRowsFault::Rows(RowFault::Read) => SplitFault::Rows(RowFault::Read),
        WriteRowsFault::Rows(RowFault::NoMemory) => SplitFault::NoMemory,
        WriteRowsFault::Rows(_) => SplitFault::Changed,
    }
}
