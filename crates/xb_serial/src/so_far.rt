// A caller of a live office, which keeps the marks.
ghost use Rattle.std.specs.Prelude.{IfOk};
ghost use Rattle.xb_serial.specs.Promises.{KeepsPromises};

use crate::live::Live;
use std::alloc::{AllocError, Global};
use xb_model::{Mark, On, Row};
use xb_routes::RouteTable;

/// The marks that rows of all lines have made certain, in the order in which they were given. `Err`
/// where memory ran out.
pub fn marks_so_far(
    alloc: Global,
    table: RouteTable,
    rows: &[Row],
) -> Result<Vec<On<Mark>>, AllocError>
    ensures { IfOk result (λ marks. KeepsPromises table rows.now marks.items) }
{
    let mut live = Live::new(alloc, table)?;
    let mut marks = Vec::new(alloc);
    for row in rows {
        live.take(*row);
        marks.extend_from_slice(live.given())?;
    }
    Ok(marks)
}
