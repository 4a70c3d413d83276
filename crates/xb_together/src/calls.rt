// A whole list of rows: what became of one call.
ghost use Rattle.std.specs.Prelude.{◌≡◌, IfOk, option_map, slice_get};
ghost use Rattle.xb_model.specs.Tapes.{tape_of};

use std::alloc::{AllocError, Global};
use xb_model::{LineNo, Mark, Row};
use xb_routes::RouteTable;
use xb_serial::key_serial;

/// What became of call attempt `call` of a line, counted from 0, given the rows of all lines: the marks
/// of its keying, or the one mark of its refusal. `None` if the line made fewer attempts; `Err` where
/// memory ran out.
pub fn marks_of_call(
    alloc: Global,
    table: &RouteTable,
    rows: &[Row],
    line: LineNo,
    call: usize,
) -> Result<Option<Vec<Mark>>, AllocError>
    ensures { IfOk result (λ marks. option_map (λ v. v.items) marks
        ≡ slice_get (tape_of table.now.plan table.now.limits table.now.routes line rows.now) call) }
{
    let tapes = key_serial(alloc, rows, table)?;
    match tapes.entry(line, call) {
        Some(marks) => Ok(Some(Vec::from_slice(alloc, marks)?)),
        None => Ok(None),
    }
}
