// What a deal holds.
ghost use Rattle.std.specs.Prelude.{◌≡◌};
ghost use Rattle.xb_branches.specs.DealSteps.{CanSend, holding_of, place_of, released, left_of};

use xb_flow::Flow;

/// What a deal holds.
#[derive(Drop)]
pub(crate) enum Held<T> {
    /// An item is wanted.
    Nothing,
    /// An item for the output at the place.
    One(T),
    /// The End, for the outputs from the place on.
    Ends,
    /// The End was sent to every output.
    Over,
}

// What is held after an item or the End was received, and for which output.
pub(crate) fn holding<T>(taken: Flow<T>, place: usize) -> (Held<T>, usize)
    ensures { result ≡ (holding_of taken, place_of taken place) }
{
    match taken {
        Flow::Item(item) => (Held::One(item), place),
        Flow::End => (Held::Ends, 0),
    }
}

// What is sent, and what is held after that.
pub(crate) fn release<T: Drop>(held: Held<T>, last: bool) -> (Flow<T>, Held<T>)
    requires { CanSend held }
    ensures { result ≡ (released held, left_of held last) }
{
    match held {
        Held::One(item) => (Flow::Item(item), Held::Nothing),
        Held::Ends => (Flow::End, if last { Held::Over } else { Held::Ends }),
        Held::Nothing | Held::Over => unreachable!(),
    }
}
