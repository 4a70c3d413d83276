//! What is kept of the digits of a line, as the contract of a function that does nothing.
ghost use Rattle.xb_plot.specs.TurnLaws.{KeepsTheLast};

/// Of digits that are taken one by one the last are kept, all of them where they are `MOST_TURNS` or fewer,
/// and the others are counted.
pub fn the_last_turns_are_kept()
    ensures { KeepsTheLast }
{}
