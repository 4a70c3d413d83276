// The rows of holds in ms.
ghost use Rattle.std.specs.Prelude.{◌≡◌, ◌≤◌, ◌++◌, OnOk, replicate, string_bytes};
ghost use Rattle.std.specs.List.{flat_map};
ghost use Rattle.xb_model.specs.declared.row.TheConstants.{GREATEST_MS};
ghost use Rattle.xb_rows.specs.WrittenRows.{record_text};
ghost use Rattle.xb_contact.specs.Holds.{hold_of};
ghost use Rattle.xb_loop.specs.RowsOfHolds.{contact_of, day_parts, row_of_hold, rows_of_holds};

use std::alloc::AllocError;
use xb_contact::{Hold, Level};
use xb_model::{Contact, GREATEST_MS, LineNo, Row};
use xb_rows::record_of;

/// The contact of a level: a closed loop makes, an open one breaks.
pub fn contact_of(level: Level) -> Contact
    ensures { result ≡ contact_of level }
{
    match level {
        Level::Closed => Contact::Make,
        Level::Open => Contact::Brk,
    }
}

// Adds the record of a hold of a day at most.
fn write_row(rows: &mut String, line: LineNo, level: Level, ms: u32) -> Result<(), AllocError>
    requires { ms ≤ GREATEST_MS }
    ensures { OnOk result (string_bytes rows.new
        ≡ string_bytes rows.old ++ record_text (row_of_hold line (hold_of level ms))) }
{
    match Row::new(line, contact_of(level), ms) {
        Some(row) => rows.push_str(record_of(row).as_str()),
        None => Ok(()),
    }
}

// Adds the records of so many days.
#[tactic(auto, using(crate::proofs::RowTexts::text_next))]
fn write_days(rows: &mut String, line: LineNo, level: Level, days: u64) -> Result<(), AllocError>
    ensures { OnOk result (string_bytes rows.new ≡ string_bytes rows.old
        ++ flat_map record_text (rows_of_holds line (replicate days (hold_of level GREATEST_MS)))) }
{
    for _day in 0..days {
        write_row(rows, line, level, GREATEST_MS)?;
    }
    Ok(())
}

/// Adds the records of a hold in ms: a row for each whole day of it, and one for the rest.
#[tactic(auto, using(crate::proofs::RowTexts::text_after))]
pub(crate) fn write_rows(rows: &mut String, line: LineNo, hold: Hold) -> Result<(), AllocError>
    ensures { OnOk result (string_bytes rows.new
        ≡ string_bytes rows.old ++ flat_map record_text (rows_of_holds line (day_parts hold))) }
{
    let day = u64::from(GREATEST_MS);
    write_days(rows, line, hold.level, hold.ticks / day)?;
    write_row(rows, line, hold.level, (hold.ticks % day) as u32)
}
