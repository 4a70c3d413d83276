// The columns of the wires, and their levels in a row.
ghost use Rattle.std.specs.Prelude.{◌≡◌, ◌+◌, ◌≤◌, Ok, IfErr, OnOk, map};
ghost use Rattle.xb_contact.specs.Steps.{AddsAll, IsRefusedBy};
ghost use Rattle.xb_csv.specs.Cells.{cells_of};
ghost use Rattle.xb_csv.specs.Tables.{column_number, column_of, columns_in, levels_from, numbered_columns};

use crate::cells::{cell_at, cell_of, stands_after};
use std::alloc::AllocError;
use xb_contact::{Event, Refusal, level_of, number_of, say};

// The column of a wire in a line with the names.
fn column_of(line: &[u8], wire: usize, name: &[u8]) -> Result<u16, Refusal>
    ensures { result ≡ column_of wire name.now (cells_of line.now) }
{
    match cell_of(line, name) {
        Some(column) => {
            if stands_after(line, name, column) {
                Err(Refusal::Twice)
            } else {
                Ok(column)
            }
        }
        None => Err(Refusal::NoWire(wire)),
    }
}

// The columns of wires in a line with their names. The first one that it lacks is told.
pub(crate) fn find_columns(
    line: &[u8],
    names: &[&str],
    columns: &mut Vec<u16>,
) -> Result<(), Refusal>
    ensures said { OnOk result
        (columns_in (cells_of line.now) (map (λ name. name.now) names.now) ≡ Ok columns.new.items) }
    ensures refused { IfErr result (IsRefusedBy
        (columns_in (cells_of line.now) (map (λ name. name.now) names.now))) }
{
    columns.clear();
    for (wire, name) in names.iter().enumerate() {
        match column_of(line, wire, name.as_bytes()) {
            Ok(column) => columns.push(column).map_err(AllocError::from)?,
            Err(refusal) => return Err(refusal),
        }
    }
    Ok(())
}

// The column of a wire that is named by its number.
fn column_number(name: &str) -> Option<u16>
    ensures { result ≡ column_number name.now }
{
    match number_of(name.as_bytes()) {
        Some(column) if column > 0 && column < 65_536 => Some(column as u16),
        _ => None,
    }
}

// The columns of wires that are named by their numbers. The first one that is none is told.
pub(crate) fn number_columns(names: &[&str], columns: &mut Vec<u16>) -> Result<(), Refusal>
    ensures said { OnOk result
        (numbered_columns (map (λ name. name.now) names.now) ≡ Ok columns.new.items) }
    ensures refused { IfErr result (IsRefusedBy (numbered_columns (map (λ name. name.now) names.now))) }
{
    columns.clear();
    for (wire, name) in names.iter().enumerate() {
        match column_number(name) {
            Some(column) => columns.push(column).map_err(AllocError::from)?,
            None => return Err(Refusal::NoWire(wire)),
        }
    }
    Ok(())
}

// The levels of wires in a row, each in its column after so many others.
pub(crate) fn say_levels(
    columns: &[u16],
    before: usize,
    line: &[u8],
    events: &mut Vec<Event>,
) -> Result<(), Refusal>
    requires { before ≤ 1 }
    ensures said { OnOk result (AddsAll
        (levels_from 0 before (cells_of line.now) columns.now) events.old.items events.new.items) }
    ensures refused { IfErr result (IsRefusedBy (levels_from 0 before (cells_of line.now) columns.now)) }
{
    for (wire, column) in columns.iter().enumerate() {
        let Some(cell) = cell_at(line, before + usize::from(*column)) else {
            return Err(Refusal::Columns);
        };
        match level_of(cell) {
            Some(level) => say(events, Event::Level(wire, level))?,
            None => return Err(Refusal::Level),
        }
    }
    Ok(())
}
