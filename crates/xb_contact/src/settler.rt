// The settling machine.
ghost use Rattle.std.specs.Prelude.{◌≡◌, ◌+◌, ◌<◌, ◌^◌};
ghost use Rattle.xb_contact.specs.Holds.{total_of};
ghost use Rattle.xb_contact.specs.SettledLaws.{SettlesTheRecord};
ghost use Rattle.xb_contact.specs.Machine.{IsWithin, given_by, phase_after, reach, step, unsettled, pieces_of};

use crate::hold::Hold;
use crate::level::Level;
use crate::settling::{Phase, Settling, Stretch};
use std::marker::Model;

// What a hold gives, and the phase after it.
pub(crate) struct Step {
    pub(crate) given: Option<Hold>,
    pub(crate) phase: Phase,
}

/// The machine that settles contacts: a run shorter than its `least` ticks belongs to the next run that is
/// as long or longer, so that a change is dated at the first edge that leads to it. It keeps a `Settling` of
/// each contact.
#[derive(Clone, Copy, Debug, PartialEq, Eq)]
pub struct Settler {
    least: u64,
}

impl Model for Settler {
    ghost use Rattle.std.specs.Prelude.{ℕ, ◌<◌};

    ghost Value = { ℕ };

    ghost view = { λ s. s.least };

    ghost invariant = { λ s. 0 < s.least };

    ghost inverse = { λ n. record { least = n } };
}

impl Settler {
    /// The machine by which a run of `least` ticks is settled. What it gives of a recording, and what is left
    /// at its end, are the settled record, cut into pieces.
    pub fn new(least: u64) -> Settler
        requires { 0 < least }
        ensures least { result ≡ least }
        ensures settles { SettlesTheRecord result }
    {
        Settler { least }
    }

    // The run under way has lasted so long, after short runs of `waiting` ticks.
    fn reach(&self, before: Level, waiting: u64, run: Hold) -> Step
        requires { waiting + run.ticks < 2 ^ 64 }
        ensures value { result ≡ reach self.now before waiting run }
        ensures time { total_of (pieces_of result.given) + unsettled result.phase ≡ waiting + run.ticks }
    {
        if run.ticks >= self.least {
            Step {
                given: Some(Hold {
                    level: run.level,
                    ticks: waiting + run.ticks,
                }),
                phase: Phase::Settled(run.level),
            }
        } else {
            Step {
                given: None,
                phase: Phase::Unsettled(Stretch {
                    before,
                    waiting,
                    run,
                }),
            }
        }
    }

    // A hold that lasts.
    fn step(&self, phase: Phase, hold: Hold) -> Step
        requires { unsettled phase + hold.ticks < 2 ^ 64 }
        ensures value { result ≡ step self.now phase hold }
        ensures time { total_of (pieces_of result.given) + unsettled result.phase
            ≡ unsettled phase + hold.ticks }
    {
        match phase {
            Phase::Settled(level) if level == hold.level => Step {
                given: Some(Hold {
                    level,
                    ticks: hold.ticks,
                }),
                phase,
            },
            Phase::Settled(level) => self.reach(level, 0, hold),
            Phase::Unsettled(stretch) if stretch.run.level == hold.level => {
                let longer = Hold {
                    level: stretch.run.level,
                    ticks: stretch.run.ticks + hold.ticks,
                };
                self.reach(stretch.before, stretch.waiting, longer)
            }
            Phase::Unsettled(stretch) => {
                self.reach(stretch.before, stretch.waiting + stretch.run.ticks, hold)
            }
        }
    }

    /// Takes the next hold of a contact, and returns the piece of its settled record that is certain with it,
    /// if one is: whatever comes later, the piece stands. Pieces of one level may follow each other.
    pub fn take(&self, state: &mut Settling, hold: Hold) -> Option<Hold>
        requires { unsettled state.old + hold.ticks < 2 ^ 64 }
        ensures state { state.new ≡ phase_after self.now state.old hold }
        ensures given { result ≡ given_by self.now state.old hold }
        ensures time { total_of (pieces_of result) + unsettled state.new ≡ unsettled state.old + hold.ticks }
    {
        if hold.ticks == 0 {
            return None;
        }
        let Step { given, phase } = self.step(state.phase(), hold);
        *state = Settling::at(phase);
        given
    }
}
