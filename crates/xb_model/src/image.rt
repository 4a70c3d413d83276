// What a stage makes of a whole list of items.
ghost use Rattle.std.specs.Prelude.{◌≡◌, IfOk};
ghost use Rattle.xb_model.specs.Image.{image};

use crate::on::OnLine;
use crate::per_line::PerLine;
use crate::stage::{LineStage, OUTPUT_ROOM};
use std::alloc::{AllocError, Global};

/// What a stage sends for a list of items: for each item in turn, what it sends with the state of
/// the item's line after the earlier items of that line. It takes the room for a state of each line,
/// and for what is sent; `Err` where memory ran out.
pub fn image_of<S: LineStage>(
    alloc: Global,
    stage: &S,
    items: Vec<S::In>,
) -> Result<Vec<S::Out>, AllocError>
    ensures { IfOk result (λ v. v.items ≡ image S.In.line_of (S.machine stage.now) items.items) }
{
    let mut states = PerLine::from_fn(alloc, || stage.fresh())?;
    let mut sent = Vec::with_capacity(alloc, OUTPUT_ROOM)?;
    let mut all = Vec::new(alloc);
    for item in items {
        let line = item.line();
        let state = states.get_mut(line);
        stage.step(state, item, &mut sent);
        all.append(&mut sent)?;
    }
    Ok(all)
}
