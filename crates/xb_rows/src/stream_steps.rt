// The steps of a reader of a stream's rows: the header, the next row.
ghost use Rattle.std.specs.Prelude.{ℕ, ◌+◌, option_map};
ghost use Rattle.xb_rows.specs.RowTexts.{rest_from, rest_of_records};
ghost use Rattle.xb_rows.specs.Scanning.{TakesHeader, TakesRow};
ghost use Rattle.xb_rows.specs.StreamRecords.{stream_left};

use crate::kept::Kept;
use crate::record::{is_header, parse_row};
use crate::record_reader::RecordReader;
use std::io::Read;
use xb_model::{Row, RowFault};

// Reads the header.
fn take_header<R: Read>(reader: &mut RecordReader<R>, kept: &mut Kept) -> Result<(), RowFault>
    ensures { (most : ℕ) → TakesHeader most (stream_left R.remaining reader.old)
        (stream_left R.remaining reader.new) result }
{
    if reader.take_record(kept)? && is_header(kept.three_fields()) {
        Ok(())
    } else {
        Err(RowFault::Header)
    }
}

// Reads the record after so many, if there is one, where there may be at most `most`.
pub(crate) fn take_row<R: Read>(
    most: u64,
    taken: u64,
    reader: &mut RecordReader<R>,
    kept: &mut Kept,
) -> Result<Option<Row>, RowFault>
    ensures { TakesRow most taken
        (option_map (rest_from most (taken + 1)) (stream_left R.remaining reader.old))
        (stream_left R.remaining reader.new) result }
{
    if !reader.take_record(kept)? {
        return Ok(None);
    }
    if taken >= most {
        return Err(RowFault::TooMany);
    }
    Ok(Some(parse_row(taken + 1, kept.three_fields())?))
}

// Reads the header, and the record after it.
pub(crate) fn take_first_row<R: Read>(
    most: u64,
    reader: &mut RecordReader<R>,
    kept: &mut Kept,
) -> Result<Option<Row>, RowFault>
    ensures { TakesRow most 0 (option_map (rest_of_records most) (stream_left R.remaining reader.old))
        (stream_left R.remaining reader.new) result }
{
    take_header(reader, kept)?;
    take_row(most, 0, reader, kept)
}
