// A list of rows, with the stages on threads.
ghost use Rattle.std.specs.Prelude.{◌≡◌, IfOk};
ghost use Rattle.xb_model.specs.Tapes.{joined_tape};

use std::alloc::Global;
use std::sync::Wait;
use std::thread::Threads;
use std::time::Clock;
use xb_model::{LineNo, Listed, Mark, Row};
use xb_ring::NoGate;
use xb_routes::RouteTable;
use xb_run::{BankFault, run};

/// What is sent or refused on a line, given the rows of all lines: the marks of all its call attempts,
/// in order. Four senders share the work, and 64 items may wait between two stages. `Err` where memory
/// ran out, or a thread could not be started.
pub fn marks_on_threads<R: Threads + Wait + Clock + Sync>(
    rt: &R,
    alloc: Global,
    table: &RouteTable,
    rows: &[Row],
    line: LineNo,
) -> Result<Vec<Mark>, BankFault>
    ensures { IfOk result (λ marks. marks.items
        ≡ joined_tape table.now.plan table.now.limits table.now.routes line rows.now) }
{
    let tapes = run(rt, alloc, Listed::new(rows), table, 4, 64, &NoGate)?;
    let marks = Vec::from_slice(alloc, tapes.marks(line))?;
    Ok(marks)
}
