// The short runs of a contact that are taken away.
ghost use Rattle.std.specs.Prelude.{◌≡◌};
ghost use Rattle.xb_contact.specs.Holds.{same_level};
ghost use Rattle.xb_feed.specs.Tallies.{begun_tally, counted_anew, tally_after, with_run};

use xb_contact::{Hold, Level};

/// How many short runs were taken away of a contact, and how many ticks the longest had.
#[derive(Clone, Copy)]
pub struct Bounces {
    /// How many.
    pub count: u64,
    /// The longest.
    pub longest: u64,
}

const NO_BOUNCES: Bounces = Bounces {
    count: 0,
    longest: 0,
};

/// The short runs of a contact that have ended, and its run under way.
#[derive(Clone, Copy)]
pub struct Tally {
    // From how many ticks on a run is none of them.
    least: u64,
    // The run under way; at the beginning it has no tick.
    run: Hold,
    bounces: Bounces,
}

// The bounces with a run that has ended, which is one of them where it has a tick and is short.
fn with_run(bounces: Bounces, least: u64, ticks: u64) -> Bounces
    ensures { result ≡ with_run bounces least ticks }
{
    if ticks == 0 || ticks >= least {
        return bounces;
    }
    Bounces {
        count: bounces.count.saturating_add(1),
        longest: bounces.longest.max(ticks),
    }
}

impl Tally {
    /// A contact at the beginning of its record, where it has this level. Runs of less than `least` ticks are
    /// taken away.
    pub fn new(least: u64, first: Level) -> Tally
        ensures { result ≡ begun_tally least first }
    {
        let run = Hold {
            level: first,
            ticks: 0,
        };
        Tally {
            least,
            run,
            bounces: NO_BOUNCES,
        }
    }

    /// The contact has a level for so long.
    pub fn take(self, hold: Hold) -> Tally
        ensures { result ≡ tally_after self hold }
    {
        if hold.ticks == 0 {
            return self;
        }
        let Tally {
            least,
            run,
            bounces,
        } = self;
        if hold.level == run.level {
            let level = run.level;
            let ticks = run.ticks.saturating_add(hold.ticks);
            return Tally {
                least,
                run: Hold { level, ticks },
                bounces,
            };
        }
        Tally {
            least,
            run: hold,
            bounces: with_run(bounces, least, run.ticks),
        }
    }

    /// The short runs that have ended.
    pub fn bounces(self) -> Bounces
        ensures { result ≡ self.bounces }
    {
        self.bounces
    }

    /// The run under way, with no short runs before it.
    pub fn counted_anew(self) -> Tally
        ensures { result ≡ counted_anew self }
    {
        Tally {
            bounces: NO_BOUNCES,
            ..self
        }
    }
}
