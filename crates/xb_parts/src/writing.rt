// Rows into the decks of their parts.
ghost use Rattle.std.specs.Prelude.{◌≡◌, ◌++◌, ◌∷◌, [], IfErr, IfOk, IsTrue, OnOk};
ghost use Rattle.xb_parts.specs.WriteFaults.{IsOfRows};
ghost use Rattle.xb_parts.specs.PartDecks.{Gets, GetsDecks, GetsRecords, head_of, only_below, records_of_part};

use crate::counting::{count_row, no_rows_counted};
use crate::decks::PartDecks;
use crate::load::Load;
use crate::planning::HEAD;
use crate::range::LineRange;
use std::alloc::Global;
use std::io::{self, Read};
use thiserror::Error;
use xb_model::{PerLine, Row, RowFault};
use xb_rows::{RowReader, record_of};

/// Why not all rows were written.
#[derive(Debug, Drop, Error)]
pub enum WriteRowsFault {
    /// The rows have a fault, or could not be read.
    #[error("{0}")]
    Rows(RowFault),
    /// A deck could not be written.
    #[error("a part could not be written: {0}")]
    Write(io::Error),
}

impl From<RowFault> for WriteRowsFault {
    ghost use Rattle.xb_parts.specs.declared.writing.WriteRowsFault.TheVariants.{Rows};

    ghost from_gives = { λ fault e. e ≡ Rows fault };

    fn from(fault: RowFault) -> WriteRowsFault {
        WriteRowsFault::Rows(fault)
    }
}

// Writes a row to the deck of each part that has its line.
fn write_to_parts<D: PartDecks>(decks: &mut D, ranges: &[LineRange], row: Row) -> io::Result<()>
    ensures { OnOk result (Gets (records_of_part ranges.now (row ∷ []))
        (D.contents decks.old) (D.contents decks.new)) }
{
    let record = record_of(row);
    for part in 0..ranges.len() {
        if ranges[part].has(row.line()) {
            decks.write(part, record.as_str().as_bytes())?;
        }
    }
    Ok(())
}

// Writes the records of all rows, each to the deck of the part that has its line, and counts them. On an
// `Err` the decks are not whole.
fn write_rows<R: Read, D: PartDecks>(
    alloc: Global,
    rows: &mut RowReader<R>,
    ranges: &[LineRange],
    decks: &mut D,
) -> Result<PerLine<Load>, WriteRowsFault>
    ensures decks { IfOk result (λ loads. GetsRecords rows.old ranges.now loads
        (D.contents decks.old) (D.contents decks.new)) }
    ensures fault { IfErr result (IsOfRows rows.old rows.new) }
{
    let mut loads = no_rows_counted(alloc)?;
    for _ in 0..u64::MAX {
        match rows.next_row()? {
            Some(row) => {
                count_row(&mut loads, row);
                if let Err(fault) = write_to_parts(decks, ranges, row) {
                    return Err(WriteRowsFault::Write(fault));
                }
            }
            None => return Ok(loads),
        }
    }
    Err(WriteRowsFault::Rows(RowFault::TooMany))
}

// Writes a table, the cut and the header to the deck of each part.
fn write_heads<D: PartDecks>(decks: &mut D, parts: usize, table: &[u8]) -> io::Result<()>
    ensures { OnOk result (Gets (only_below parts (head_of table.now))
        (D.contents decks.old) (D.contents decks.new)) }
{
    for part in 0..parts {
        decks.write(part, table)?;
        decks.write(part, HEAD)?;
    }
    Ok(())
}

// Writes the deck of each part, and counts the rows. On an `Err` the decks are not whole.
fn write_decks<R: Read, D: PartDecks>(
    alloc: Global,
    table: &[u8],
    rows: &mut RowReader<R>,
    ranges: &[LineRange],
    decks: &mut D,
) -> Result<PerLine<Load>, WriteRowsFault>
    ensures decks { IfOk result (λ loads. GetsDecks table.now rows.old ranges.now loads
        (D.contents decks.old) (D.contents decks.new)) }
    ensures fault { IfErr result (IsOfRows rows.old rows.new) }
{
    if let Err(fault) = write_heads(decks, ranges.len(), table) {
        return Err(WriteRowsFault::Write(fault));
    }
    write_rows(alloc, rows, ranges, decks)
}

/// Writes the deck of each part: the table, the cut, the header, and exactly the rows of its lines, in their
/// order; and makes sure that they stay. It returns what each line has of the rows that were written, for
/// a deck may have changed since it was counted. On an `Err` the decks are not whole.
pub fn write_parts<R: Read, D: PartDecks>(
    alloc: Global,
    table: &[u8],
    rows: &mut RowReader<R>,
    ranges: &[LineRange],
    decks: &mut D,
) -> Result<PerLine<Load>, WriteRowsFault>
    ensures decks { IfOk result (λ loads. GetsDecks table.now rows.old ranges.now loads
        (D.contents decks.old) (D.contents decks.new)) }
    ensures kept { OnOk result (IsTrue (D.kept decks.new)) }
    ensures fault { IfErr result (IsOfRows rows.old rows.new) }
{
    let loads = write_decks(alloc, table, rows, ranges, decks)?;
    match decks.keep() {
        Ok(()) => Ok(loads),
        Err(fault) => Err(WriteRowsFault::Write(fault)),
    }
}
