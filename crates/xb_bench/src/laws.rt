//! What the definitions give, as the contracts of functions that do nothing but cite.
ghost use Rattle.std.specs.Prelude.{◌≡◌};
ghost use Rattle.xb_plot.specs.declared.turns.TheConstants.{MOST_TURNS};
ghost use Rattle.xb_bench.specs.DrawnLaws.{DrawsTheDigits};
ghost use Rattle.xb_bench.specs.WorkedTexts.{DialsAreTold};

use xb_plot::laws::the_last_turns_are_kept;

/// **What is drawn of a line are the digits that are told of it**: of the line of each wire, whatever a recording says, the
/// drawing that `by_plots` leaves at its end has the last of the digits that `by_digits` tells of that line, in order, how
/// many older ones there were, and what all of them come to.
pub fn the_digits_are_drawn()
    ensures { DrawsTheDigits }
{
    the_last_turns_are_kept();
}

/// The line and the object of a good digit, of a spoiled one, of pulses that no pause ended, of the end of a recording, and
/// of what digits come to, as worked by hand.
pub fn dials_are_told()
    ensures { DialsAreTold }
{}

/// How many digits of a line are drawn at most.
pub fn constants()
    ensures most_turns { MOST_TURNS ≡ 1000 }
{}
