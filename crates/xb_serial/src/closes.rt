// The closes of all lines.
ghost use Rattle.std.specs.Prelude.{◌≡◌, IfOk};
ghost use Rattle.xb_images.specs.Images.{all_closes};

use std::alloc::{AllocError, Global};
use xb_model::{LINES, LineNo, Row};

// A close of each line of the office, ascending: of a line that is closed, or has no rows, nothing comes by
// it.
pub(crate) fn close_rows(alloc: Global) -> Result<Vec<Row>, AllocError>
    ensures { IfOk result (λ rows. rows.items ≡ all_closes) }
{
    let mut rows = Vec::with_capacity(alloc, usize::from(LINES))?;
    for number in 0..LINES {
        if let Some(line) = LineNo::new(number) {
            rows.push(Row::close(line))?;
        }
    }
    Ok(rows)
}
