//! What is told of a dial over a whole record, as the contracts of functions that do nothing.
ghost use Rattle.xb_turns.specs.DialLaws.{TellsTheRuns};
ghost use Rattle.xb_turns.specs.ReportLaws.{TellsTheReport};
ghost use Rattle.xb_turns.specs.SumLaws.{SumsAllDigits};
ghost use Rattle.xb_turns.specs.TrainLaws.{FiguresAreReported, MeasuresTrains};
ghost use Rattle.xb_turns.specs.WorkedTrains.{WorkedTrains};
ghost use Rattle.std.specs.Prelude.{◌≡◌};
ghost use Rattle.xb_turns.specs.declared.verdict.TheConstants.{JUDGED_PULSES};
ghost use Rattle.xb_turns.specs.declared.figures.TheConstants.{MANY_PULSES};

/// What is told of a dial, piece by piece of a settled record, is what is told of the runs that the pieces make: each is
/// told once, in the moment in which it is certain.
pub fn the_runs_are_told()
    ensures { TellsTheRuns }
{}

/// The digits that are told are those of the report of the same runs in ms: as many, with as many pulses each, and with
/// the same first fault of the same run.
pub fn the_report_is_told()
    ensures { TellsTheReport }
{}

/// **The speed of a train that a pause ends is the number of its whole periods by their time, and its share of break the
/// time of their breaks by it**, in ticks of any scale. A whole period is a break and the make after it; the last break
/// is in none. The other fields of the `Train` are those of these runs too.
pub fn trains_are_measured()
    ensures { MeasuresTrains }
{}

/// Where a tick is a ms, the speed and the share of break are those that the report of `xb_heard` has of the same runs.
pub fn figures_are_reported()
    ensures { FiguresAreReported }
{}

/// What is told of some dials, reckoned by hand.
pub fn worked_trains()
    ensures { WorkedTrains }
{}

/// What the digits of a line come to is what all of them come to: how many they are, their means, the least and the
/// greatest, the longest bounce, and how often each verdict was given.
pub fn all_digits_are_summed()
    ensures { SumsAllDigits }
{}

/// From how many pulses on a digit is judged, and has no speed.
pub fn constants()
    ensures judged_pulses { JUDGED_PULSES ≡ 5 }
    ensures many_pulses { MANY_PULSES ≡ 16777216 }
{}
