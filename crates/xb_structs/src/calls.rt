// A row that is taken for a caller of another language.
ghost use Rattle.std.specs.Prelude.{◌≡◌, ◌≢◌};
ghost use Rattle.xb_structs.specs.Calls.{IsNotTaken, IsTaken};

use crate::line::PlainLine;
use crate::mark::PlainMark;
use crate::row::PlainRow;
use crate::status::{DONE, refusal_status};
use crate::table::PlainTable;
use crate::taking::take;

/// Takes one row of a line as `take` does, and answers by a status: on 0 the first `count` of `room` are the
/// marks that the row gives. On any other the line and the room are as they were, and `count` is 0.
pub fn take_by_status(
    table: &PlainTable,
    line: &mut PlainLine,
    row: &PlainRow,
    room: &mut [PlainMark],
    count: &mut usize,
) -> u32
    ensures takes { result ≡ 0 → IsTaken table.now line.old line.new row.now room.new count.new }
    ensures refuses { result ≢ 0 →
        IsNotTaken table.now line.old line.new row.now room.old room.new count.new result }
{
    *count = 0;
    match take(table, line, row, room) {
        Ok(given) => {
            *count = given;
            DONE
        }
        Err(refusal) => refusal_status(refusal),
    }
}
