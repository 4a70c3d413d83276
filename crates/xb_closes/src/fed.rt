// The rows that are fed to the chain.
ghost use Rattle.std.specs.Prelude.{◌≡◌, ◌++◌, [], None, IfOk};
ghost use Rattle.xb_closes.specs.Fed.{fed};
ghost use Rattle.xb_closes.specs.Left.{left};

use crate::line_uses::LineUses;
use std::alloc::{AllocError, Global};
use xb_model::Row;

// Feeds the closes of the open lines, lines ascending.
fn close_lines(mut uses: LineUses, fed: &mut Vec<Row>) -> Result<(), AllocError>
    ensures { IfOk result (λ _. fed.new.items ≡ fed.old.items ++ left uses [] None) }
{
    while let Some(row) = uses.close_next(None) {
        fed.push(row)?;
    }
    Ok(())
}

/// The fed rows of a list: those without the ones of a line after its close, then a close for each
/// line that has rows and none, lines ascending. `Err` where memory ran out.
pub fn fed_rows(alloc: Global, rows: &[Row]) -> Result<Vec<Row>, AllocError>
    ensures { IfOk result (λ all. all.items ≡ fed rows.now None) }
{
    let mut uses = LineUses::new(alloc)?;
    let mut fed = Vec::with_capacity(alloc, rows.len())?;
    for row in rows {
        if uses.hears(*row) {
            fed.push(*row)?;
        }
    }
    close_lines(uses, &mut fed)?;
    Ok(fed)
}
