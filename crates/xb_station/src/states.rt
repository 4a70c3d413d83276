// The states of all lines.
ghost use Rattle.std.specs.Prelude.{◌≡◌, ◌≤◌, ◌<◌, [], length, vec_capacity, slice_set, slice_index_or, reverse};
ghost use Rattle.xb_model.specs.declared.line.TheConstants.{LINES};
ghost use Rattle.xb_model.specs.declared.stage.TheConstants.{OUTPUT_ROOM};

use xb_model::{LineStage, OnLine, PerLine};

// Takes an item with the state of its line. What is sent for it stands in `out` from the last on.
pub(crate) fn take_item<S: LineStage>(
    stage: &S,
    states: &mut PerLine<S::State>,
    item: S::In,
    out: &mut Vec<S::Out>,
)
    requires empty { out.old.items ≡ [] }
    requires room { OUTPUT_ROOM ≤ vec_capacity out.old }
    ensures lines { length states.old ≡ LINES }
    ensures below { S.In.line_of item < LINES }
    ensures state { (fallback : S.State) →
        let old = slice_index_or states.old (S.In.line_of item) fallback in
        states.new ≡ slice_set states.old (S.In.line_of item) ((S.machine stage.now).next old item) }
    ensures out { (fallback : S.State) →
        let old = slice_index_or states.old (S.In.line_of item) fallback in
        out.new.items ≡ reverse ((S.machine stage.now).outs old item) }
    ensures room { vec_capacity out.new ≡ vec_capacity out.old }
{
    let state = states.get_mut(item.line());
    stage.step(state, item, out);
    out.reverse();
}
