//! What the definitions give: each law is the contract of a function that does nothing.
ghost use Rattle.xb_heard.specs.Mutilated.{MutilatedIsNamed};
ghost use Rattle.xb_heard.specs.PeriodLaws.{GoByWholePeriods};
ghost use Rattle.xb_heard.specs.WorkedReports.{WorkedFigures, WorkedReports};
ghost use Rattle.std.specs.Prelude.{◌≡◌};
ghost use Rattle.xb_heard.specs.declared.figures.TheConstants.{MANY_RUNS};

/// What is heard in some worked rows, at each limit.
pub fn worked_reports()
    ensures { WorkedReports }
{}

/// The figures of some trains.
pub fn worked_figures()
    ensures { WorkedFigures }
{}

/// **The speed of a train is the number of its whole periods by their time, and its share of break the time of their
/// breaks by it**: the whole periods are its runs before the last break.
pub fn figures_go_by_whole_periods()
    ensures { GoByWholePeriods }
{}

/// The chain takes a digit for mutilated exactly where the report of its line names what spoils it.
pub fn mutilated_is_named()
    ensures { MutilatedIsNamed }
{}

/// Of how many runs a train has no percent break.
pub fn constants()
    ensures many_runs { MANY_RUNS ≡ 4294967296 }
{}
