// The steps of a reader of rows: the next record, the header, the next row.
ghost use Rattle.std.specs.Prelude.{ℕ, ◌≡◌, ◌+◌, Ok, OnOk, IfOk, IsSome, true, option_map};
ghost use Rattle.csv.specs.Reading.{reader_state, source_of, strip_bom};
ghost use Rattle.csv.specs.Records.{fields_of};
ghost use Rattle.csv.specs.declared.parser.State.TheVariants.{StartRecord};
ghost use Rattle.xb_rows.specs.RowTexts.{rest_from, rest_of_records};
ghost use Rattle.xb_rows.specs.Scanning.{IsGoing, TakesHeader, TakesRecord, TakesRow, records_left};

use crate::record::{is_header, parse_row, three_fields};
use csv::{ByteRecord, Reader, ReaderBuilder};
use std::alloc::Global;
use std::io::Read;
use xb_model::{Row, RowFault};

// A `csv` reader that gives every record, as it stands.
pub(crate) fn reader_of_records<R: Read>(alloc: Global, reader: R) -> Reader<R>
    ensures going { IsGoing result }
    ensures state { reader_state result ≡ StartRecord }
    ensures source { source_of R.remaining result ≡ option_map strip_bom (R.remaining reader) }
{
    ReaderBuilder::new()
        .has_headers(false)
        .flexible(true)
        .from_reader(alloc, reader)
}

// Reads the next record of a text, and whether there was one.
pub(crate) fn take_record<R: Read>(
    reader: &mut Reader<R>,
    fields: &mut ByteRecord,
) -> Result<bool, RowFault>
    requires { IsGoing reader.old }
    ensures record { TakesRecord (records_left R.remaining reader.old) (records_left R.remaining reader.new)
        (fields_of fields.new) result }
    ensures going { result ≡ Ok true → IsGoing reader.new }
{
    match reader.read_byte_record(fields) {
        Ok(found) => Ok(found),
        Err(error) if error.is_io_error() => Err(RowFault::Read),
        // only memory is left to fail a reader of bytes
        Err(_) => Err(RowFault::NoMemory),
    }
}

// Reads the header.
fn take_header<R: Read>(reader: &mut Reader<R>, fields: &mut ByteRecord) -> Result<(), RowFault>
    requires { IsGoing reader.old }
    ensures header { (most : ℕ) → TakesHeader most (records_left R.remaining reader.old)
        (records_left R.remaining reader.new) result }
    ensures going { OnOk result (IsGoing reader.new) }
{
    if take_record(reader, fields)? && is_header(three_fields(fields)) {
        Ok(())
    } else {
        Err(RowFault::Header)
    }
}

// Reads the record after so many, if there is one, where there may be at most `most`.
pub(crate) fn take_row<R: Read>(
    most: u64,
    taken: u64,
    reader: &mut Reader<R>,
    fields: &mut ByteRecord,
) -> Result<Option<Row>, RowFault>
    requires { IsGoing reader.old }
    ensures row { TakesRow most taken
        (option_map (rest_from most (taken + 1)) (records_left R.remaining reader.old))
        (records_left R.remaining reader.new) result }
    ensures going { IfOk result (λ row. IsSome row → IsGoing reader.new) }
{
    if !take_record(reader, fields)? {
        return Ok(None);
    }
    if taken >= most {
        return Err(RowFault::TooMany);
    }
    Ok(Some(parse_row(taken + 1, three_fields(fields))?))
}

// Reads the header, and the record after it.
pub(crate) fn take_first_row<R: Read>(
    most: u64,
    reader: &mut Reader<R>,
    fields: &mut ByteRecord,
) -> Result<Option<Row>, RowFault>
    requires { IsGoing reader.old }
    ensures row { TakesRow most 0 (option_map (rest_of_records most) (records_left R.remaining reader.old))
        (records_left R.remaining reader.new) result }
    ensures going { IfOk result (λ row. IsSome row → IsGoing reader.new) }
{
    take_header(reader, fields)?;
    take_row(most, 0, reader, fields)
}
