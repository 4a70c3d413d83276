// The calls that read texts.
use crate::decks::{ROWS, are_all_rows, row_at, table_and_rows};
use crate::outcome::Outcome;
use crate::refusal::Aim;
use std::alloc::Global;
use xb_model::{Digit, RowFault, RowSource};
use xb_routes::{RouteFault, RouteTable};
use xb_rows::{Scan, read_rows};

// The trunk group of the numbers that begin with these digits.
fn trunk_of(table: &RouteTable, [first, second, third]: [u8; 3]) -> Option<u16> {
    let digits = [Digit::new(first)?, Digit::new(second)?, Digit::new(third)?];
    Some(table.look(&digits)?.trunk.get())
}

// Whether the table has the three routes of the deck, and none of another number.
fn has_routes(table: &RouteTable) -> bool {
    trunk_of(table, [2, 3, 4]) == Some(17)
        && trunk_of(table, [4, 1, 1]) == Some(3)
        && trunk_of(table, [0, 0, 0]) == Some(1)
        && trunk_of(table, [6, 1, 1]).is_none()
}

/// Reads the table.
pub fn try_table(alloc: Global, aim: Aim) -> Option<Outcome> {
    let (text, _) = table_and_rows();
    aim.take(alloc)?;
    Some(match RouteTable::read(alloc, text.as_bytes()) {
        Ok(table) => Outcome::ample_where(has_routes(&table)),
        Err(RouteFault::NoMemory) => Outcome::NoMemory,
        Err(_) => Outcome::Wrong,
    })
}

/// Reads all rows.
pub fn try_rows(alloc: Global, aim: Aim) -> Option<Outcome> {
    let (_, text) = table_and_rows();
    aim.take(alloc)?;
    let mut reader = text.as_bytes();
    Some(match read_rows(alloc, &mut reader) {
        Ok(rows) => Outcome::ample_where(are_all_rows(&rows)),
        Err(RowFault::NoMemory) => Outcome::NoMemory,
        Err(_) => Outcome::Wrong,
    })
}

// The rows of a scan to its stop, which it then gives once more.
fn scan_to_stop(scan: &mut Scan<'_>) -> Outcome {
    for n in 0..=ROWS {
        match scan.next_row() {
            Ok(Some(row)) if row_at(n) == Some(row) => {}
            Ok(None) => return Outcome::ample_where(n == ROWS && scan.next_row() == Ok(None)),
            Err(RowFault::NoMemory) => {
                return Outcome::no_memory_where(scan.next_row() == Err(RowFault::NoMemory));
            }
            _ => return Outcome::Wrong,
        }
    }
    Outcome::Wrong
}

/// Reads one row after the other.
pub fn try_next_row(alloc: Global, aim: Aim) -> Option<Outcome> {
    let (_, text) = table_and_rows();
    aim.take(alloc)?;
    let mut scan = Scan::new(alloc, text.as_bytes());
    Some(scan_to_stop(&mut scan))
}
