// Counting the records of each line.
ghost use Rattle.std.specs.Prelude.{◌≡◌, ◌++◌, ◌∷◌, [], List, IfErr, IfOk, IfSome};
ghost use Rattle.xb_model.specs.Rows.{LoopRow};
ghost use Rattle.xb_parts.specs.Counts.{AreLoadsOf, row_bytes};
ghost use Rattle.xb_parts.specs.RowStreams.{CountsAll, HasFailed, StopsRows};

use crate::load::Load;
use std::alloc::Global;
use std::io::Read;
use xb_model::{PerLine, Row, RowFault};
use xb_rows::{RowReader, record_of};

/// How many bytes the record of a row has, its LF counted.
pub fn record_bytes(row: Row) -> u64
    ensures { result ≡ row_bytes row }
{
    record_of(row).len() as u64
}

/// Counts a row after others.
pub fn count_row(loads: &mut PerLine<Load>, row: Row)
    ensures { (rows : List LoopRow) → AreLoadsOf rows loads.old → AreLoadsOf (rows ++ row ∷ []) loads.new }
{
    loads.get_mut(row.line()).count(record_bytes(row));
}

// What each line has of no rows; `NoMemory`.
pub(crate) fn no_rows_counted(alloc: Global) -> Result<PerLine<Load>, RowFault>
    ensures loads { IfOk result (AreLoadsOf []) }
    ensures fault { IfErr result (λ f. f ≡ RowFault.NoMemory) }
{
    match PerLine::from_fn(alloc, Load::default) {
        Ok(loads) => Ok(loads),
        Err(_) => Err(RowFault::NoMemory),
    }
}

/// What each line has of all rows. `Err` is the fault that stops them, `Read` where a read failed, which
/// `rows` tells from then on, or `NoMemory`; and `TooMany` where 2^64 - 1 rows or more came.
pub fn count_rows<R: Read>(
    alloc: Global,
    rows: &mut RowReader<R>,
) -> Result<PerLine<Load>, RowFault>
    ensures loads { IfOk result (CountsAll rows.old) }
    ensures fault { IfErr result (λ f. IfSome rows.old (λ rest. StopsRows rest f)) }
    ensures failed { IfErr result (λ f. f ≡ RowFault.Read → HasFailed rows.new) }
{
    let mut loads = no_rows_counted(alloc)?;
    for _ in 0..u64::MAX {
        match rows.next_row()? {
            Some(row) => count_row(&mut loads, row),
            None => return Ok(loads),
        }
    }
    Err(RowFault::TooMany)
}
