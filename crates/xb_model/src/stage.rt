// The stage that keeps a state for each line.
ghost use Rattle.std.specs.Prelude.{◌≡◌, ◌+◌, ◌<◌, ◌≤◌, [], ◌∷◌, ◌++◌, length, vec_len, vec_capacity};
ghost use Rattle.std.specs.List.{AllByRecursion};
ghost use Rattle.xb_model.specs.Image.{Machine};
ghost use Rattle.xb_model.specs.OnLines.{on_line};

use crate::line::LineNo;
use crate::mark::KEYING_MARKS;
use crate::on::{On, OnLine};

/// The most that a stage sends for one item: the marks of the longest keying, rounded up to a
/// multiple of four.
pub const MOST_OUTPUTS: usize = (KEYING_MARKS + 3) / 4 * 4;

/// The room that a stage is given for what it sends for one item.
pub const OUTPUT_ROOM: usize = 24;

/// A stage of the chain: it takes items of many lines, and treats each line by
/// itself. Its caller keeps a state for each line. Neither call takes memory or waits.
pub trait LineStage {
    /// What the stage takes.
    type In: OnLine + Drop;

    /// What it sends.
    type Out: OnLine + Default + Drop;

    /// What it keeps of a line's earlier items.
    type State: Drop;

    // what the stage does on one line
    ghost machine: { Self → Machine Self.In Self.Out Self.State };

    /// The state of a line before its first item.
    fn fresh(&self) -> Self::State
        ensures { result ≡ (machine self.now).start };

    /// Takes one item with its line's state, which then is the state for the line's next item.
    /// What the stage sends for the item, `MOST_OUTPUTS` at most, is put into `out`: the caller
    /// gives it empty, with room for `OUTPUT_ROOM`.
    fn step(&self, state: &mut Self::State, item: Self::In, out: &mut Vec<Self::Out>)
        requires empty { out.old.items ≡ [] }
        requires room { OUTPUT_ROOM ≤ vec_capacity out.old }
        ensures state { state.new ≡ (machine self.now).next state.old item }
        ensures out { out.new.items ≡ (machine self.now).outs state.old item }
        ensures few { length out.new.items ≤ MOST_OUTPUTS }
        ensures room { vec_capacity out.new ≡ vec_capacity out.old };

    // what is sent for an item is on the item's line
    ghost on_line: { (stage : Self) (state : Self.State) (item : Self.In) →
        AllByRecursion (λ sent. Self.Out.line_of sent ≡ Self.In.line_of item)
        ((machine stage).outs state item) };
}

/// Appends one thing to what a stage sends, on the line. The list has room for it.
pub fn send<T>(line: LineNo, out: &mut Vec<On<T>>, what: T)
    requires { vec_len out.old < vec_capacity out.old }
    ensures items { out.new.items ≡ out.old.items ++ on_line line (what ∷ []) }
    ensures len { vec_len out.new ≡ vec_len out.old + 1 }
    ensures capacity { vec_capacity out.new ≡ vec_capacity out.old }
{
    out.push_reserved(On { line, what });
}
