// What C calls. `unsafe` stands in the attributes alone: a name that is exported as it stands must be that of
// no other symbol, and none else begins with `mfchain_`.
ghost use Rattle.std.specs.Prelude.{◌≡◌, ◌≢◌, ℕ, []};
ghost use Rattle.xb_routes.specs.Table.{Table};
ghost use Rattle.xb_structs.specs.Calls.{IsNotTaken, IsTaken};
ghost use Rattle.xb_structs.specs.Hearing.{HasHeard};
ghost use Rattle.xb_structs.specs.Taking.{HasTaken};
ghost use Rattle.mfchain.specs.Calls.{DoesNotOpen, Opens, close_of};

use crate::faults::{put_fault, put_text};
use std::alloc::Global;
use xb_structs::{
    DONE, PlainLine, PlainMark, PlainRow, PlainTable, fault_status, open, take_by_status,
};

/// Reads the route table that a TOML text writes. Where it is refused, the status says why, `fault` gets the
/// same as a text, and the table is as it was.
#[unsafe(no_mangle)]
pub extern "C" fn mfchain_open(
    alloc: Global,
    text: &[u8],
    table: &mut PlainTable,
    fault: &mut [u8],
) -> u32
    ensures opens { result ≡ 0 → Opens text.now table.new }
    ensures refuses { result ≢ 0 → DoesNotOpen text.now table.old table.new result }
{
    put_text(&[], fault);
    match open(alloc, text, table) {
        Ok(()) => DONE,
        Err(why) => {
            put_fault(alloc, why, fault);
            fault_status(why)
        }
    }
}

/// Takes one row of a line, by a table: the first `count` of `room` are the marks that the row gives. On any
/// other status than 0 the line and the room are as they were, and `count` is 0.
#[unsafe(no_mangle)]
pub extern "C" fn mfchain_take(
    table: &PlainTable,
    line: &mut PlainLine,
    row: &PlainRow,
    room: &mut [PlainMark],
    count: &mut usize,
) -> u32
    ensures takes { result ≡ 0 → IsTaken table.now line.old line.new row.now room.new count.new }
    ensures refuses { result ≢ 0 →
        IsNotTaken table.now line.old line.new row.now room.old room.new count.new result }
{
    take_by_status(table, line, row, room, count)
}

/// Takes the row that ends the record of a line, as `mfchain_take` does.
#[unsafe(no_mangle)]
pub extern "C" fn mfchain_close(
    table: &PlainTable,
    line: &mut PlainLine,
    number: u32,
    room: &mut [PlainMark],
    count: &mut usize,
) -> u32
    ensures takes { result ≡ 0 →
        IsTaken table.now line.old line.new (close_of number) room.new count.new }
    ensures refuses { result ≢ 0 →
        IsNotTaken table.now line.old line.new (close_of number) room.old room.new count.new result }
{
    let row = PlainRow {
        line: number,
        state: 67,
        ms: 0,
    };
    mfchain_take(table, line, &row, room, count)
}

/// Forgets what is known of a line: its next row, or what is heard on it next, begins a new record.
#[unsafe(no_mangle)]
pub extern "C" fn mfchain_reopen(line: &mut PlainLine)
    ensures taken { (table : Table) → HasTaken table line.new [] [] }
    ensures heard { (table : Table) (number : ℕ) → HasHeard table number line.new [] [] }
{
    *line = PlainLine::new();
}

/// How many entries the rows of a line have given since it was fresh; the count stops at 4,294,967,295.
#[unsafe(no_mangle)]
pub extern "C" fn mfchain_entries(line: &PlainLine) -> u32
    ensures { result ≡ line.now.entries }
{
    line.entries
}
