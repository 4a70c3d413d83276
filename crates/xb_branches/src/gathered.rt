// What a gather holds.
ghost use Rattle.std.specs.Prelude.{◌≡◌, ◌<◌, ◌≤◌};
ghost use Rattle.xb_branches.specs.declared.branches.TheConstants.{MOST_BRANCHES};
ghost use Rattle.xb_branches.specs.GatherSteps.{close_next, closed_by, gathered_of, held_after, Awaits, CanGather, sent_of, left_of};

use crate::branches::after;
use xb_flow::{Ending, Flow};

/// What a gather holds.
#[derive(Drop)]
pub(crate) enum Gathered<T> {
    /// An item of the input at the place is wanted.
    Wants,
    /// An item.
    One(T),
    /// The End of this input was received, and then those of the inputs below the place; the End of
    /// the input at the place is wanted.
    Closing(usize),
    /// The End.
    Ends,
    /// The End was sent.
    Over,
}

// The next input whose End is to be taken, or the End to be sent.
fn close_after<T>(inputs: usize, first: usize, next: usize) -> (Gathered<T>, usize)
    requires next { next ≤ inputs }
    requires few { inputs ≤ MOST_BRANCHES }
    ensures { result ≡ close_next inputs first next }
{
    let at = if next == first { next + 1 } else { next };
    if at < inputs {
        (Gathered::Closing(first), at)
    } else {
        (Gathered::Ends, at)
    }
}

// What is held after an item that is dropped, or the End, of the input at the place.
fn close_by<T: Drop>(
    taken: Flow<T>,
    inputs: usize,
    first: usize,
    place: usize,
) -> (Gathered<T>, usize)
    requires within { place < inputs }
    requires few { inputs ≤ MOST_BRANCHES }
    ensures { result ≡ closed_by inputs first place taken }
{
    match taken {
        Flow::Item(_) => (Gathered::Closing(first), place),
        Flow::End => close_after(inputs, first, place + 1),
    }
}

// What is held after an item or the End of the input at the place.
fn gather_next<T: Ending>(taken: Flow<T>, place: usize, inputs: usize) -> (Gathered<T>, usize)
    requires within { place < inputs }
    requires few { inputs ≤ MOST_BRANCHES }
    ensures { result ≡ gathered_of T.ending inputs place taken }
{
    match taken {
        Flow::Item(item) => {
            let next = if item.ends() {
                after(place, inputs)
            } else {
                place
            };
            (Gathered::One(item), next)
        }
        Flow::End => close_after(inputs, place, 0),
    }
}

// What is held after an item or the End of the input at the place, where one is wanted.
pub(crate) fn held_after<T: Ending + Drop>(
    held: &Gathered<T>,
    taken: Flow<T>,
    place: usize,
    inputs: usize,
) -> (Gathered<T>, usize)
    requires wanted { Awaits held.now }
    requires within { place < inputs }
    requires few { inputs ≤ MOST_BRANCHES }
    ensures { result ≡ held_after T.ending inputs place held.now taken }
{
    match held {
        Gathered::Wants => gather_next(taken, place, inputs),
        Gathered::Closing(first) => close_by(taken, inputs, *first, place),
        Gathered::One(_) | Gathered::Ends | Gathered::Over => unreachable!(),
    }
}

// What is sent, and what is held after that.
pub(crate) fn release<T: Drop>(held: Gathered<T>) -> (Flow<T>, Gathered<T>)
    requires { CanGather held }
    ensures { result ≡ (sent_of held, left_of held) }
{
    match held {
        Gathered::One(item) => (Flow::Item(item), Gathered::Wants),
        Gathered::Ends => (Flow::End, Gathered::Over),
        Gathered::Wants | Gathered::Closing(_) | Gathered::Over => unreachable!(),
    }
}
