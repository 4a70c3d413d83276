// The rows of calls that go out by dial pulses.
ghost use Rattle.std.specs.Prelude.{◌≡◌, ◌++◌, IfOk, OnOk, string_bytes};
ghost use Rattle.std.specs.List.{flat_map};
ghost use Rattle.xb_calls.specs.Dialling.{call_runs, on_line};
ghost use Rattle.xb_calls.specs.Speeds.{ten_pulses_a_second};
ghost use Rattle.xb_rows.specs.WrittenRows.{record_text};
ghost use Rattle.xb_tandem.specs.Entries.{hang_up_after, rows_of_call};

use std::alloc::{AllocError, Global};
use xb_calls::{Call, RowOrder, Speed, rows_of_calls};
use xb_model::{Contact, Digit, LineNo, Row};
use xb_rows::record_of;

// The rows of a call, without what hangs up before it.
fn rows_alone(alloc: Global, line: LineNo, sent: &[Digit]) -> Result<Vec<Row>, AllocError>
    ensures { IfOk result (λ rows. rows.items ≡ on_line line (call_runs ten_pulses_a_second sent.now)) }
{
    let mut digits = Vec::new(alloc);
    digits.extend_from_slice(sent)?;
    let calls = [Call::new(line, digits)];
    rows_of_calls(alloc, &calls, Speed::ten(), RowOrder::ByLine)
}

// Writes the records of rows.
fn push_records(text: &mut String, rows: &[Row]) -> Result<(), AllocError>
    ensures { OnOk result (string_bytes text.new ≡ string_bytes text.old ++ flat_map record_text rows.now) }
{
    for row in rows {
        text.push_str(record_of(*row).as_str())?;
    }
    Ok(())
}

// Writes the record of the break that hangs up after so many calls.
fn push_hang_up(text: &mut String, line: LineNo, before: usize) -> Result<(), AllocError>
    ensures { let rows = on_line line (hang_up_after before) in
        OnOk result (string_bytes text.new ≡ string_bytes text.old ++ flat_map record_text rows) }
{
    if before > 0 {
        let row = Row::new(line, Contact::Brk, Speed::ten().hang_up_ms).unwrap();
        text.push_str(record_of(row).as_str())?;
    }
    Ok(())
}

/// The records of the rows that dial a number on a line, at ten pulses a second, after so many calls there.
pub(crate) fn records_of_call(
    alloc: Global,
    line: LineNo,
    before: usize,
    sent: &[Digit],
) -> Result<String, AllocError>
    ensures { IfOk result (λ text.
        string_bytes text ≡ flat_map record_text (rows_of_call line before sent.now)) }
{
    let mut text = String::new(alloc);
    push_hang_up(&mut text, line, before)?;
    push_records(&mut text, &rows_alone(alloc, line, sent)?)?;
    Ok(text)
}
