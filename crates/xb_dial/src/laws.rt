//! What traces come to: each law is the contract of a function that does nothing.
ghost use Rattle.xb_dial.specs.TraceLaws.{TracesAreRead, TracesAreTheRows, TracesKeepRuns, TracesSettle};
ghost use Rattle.xb_dial.specs.WorkedTrace.{WorkedTrace};
ghost use Rattle.std.specs.Prelude.{◌≡◌};
ghost use Rattle.xb_dial.specs.declared.bouncing.TheConstants.{DRAWS, MOST_BOUNCES};
ghost use Rattle.xb_dial.specs.declared.contact_runs.TheConstants.{IDLE_MS, US_OF_MS};

/// Whatever the rows are, the trace is read back as the changes of the contact.
pub fn traces_are_read()
    ensures { TracesAreRead }
{}

/// The bounces disturb the runs of the rows, whose levels alternate, and take no time of them.
pub fn traces_keep_runs()
    ensures { TracesKeepRuns }
{}

/// Where an eighth of `us` is shorter than a settled run, and each run lasts for that time and `us` or longer, settling
/// takes the bounces away and nothing else: the runs are those of the rows in us, and in ms as they are told.
pub fn traces_settle()
    ensures settled { TracesSettle }
    ensures told { TracesAreTheRows }
{}

/// A trace that another program has written.
pub fn worked_trace()
    ensures { WorkedTrace }
{}

/// How many words a run draws for its bounces, how many bounces it has at most, how long the contact rests, and how many us a ms has.
pub fn constants()
    ensures draws { DRAWS ≡ 9 }
    ensures most_bounces { MOST_BOUNCES ≡ 4 }
    ensures idle_ms { IDLE_MS ≡ 1000 }
    ensures us_of_ms { US_OF_MS ≡ 1000 }
{}
