// States as plain numbers.
ghost use Rattle.std.specs.Prelude.{◌≡◌};
ghost use Rattle.xb_pulse.specs.Plain.{plain, plain_of, phase_of};

use crate::state::{Phase, PulseState, Tally};
use xb_model::{GREATEST_LIMIT, MANY_BREAKS};

/// What the pulse stage knows of a line, as plain numbers: for a caller that keeps the states of its
/// lines in memory of its own, as one in C does. All zeros is a line before its first row.
#[derive(Clone, Copy, Debug, PartialEq, Eq)]
pub struct PlainPulse {
    /// 0 on hook, 1 between trains, 2 in a break, 3 in a make, 4 timed out, 5 closed.
    pub phase: u8,
    /// How long the make or break is so far, in ms.
    pub total: u32,
    /// How many breaks of the train have ended.
    pub breaks: u8,
    /// Whether the train is bad.
    pub bad: bool,
}

// The numbers of a phase.
fn plain(phase: u8, total: u32, tally: Tally) -> PlainPulse
    ensures { result ≡ plain phase total tally }
{
    PlainPulse {
        phase,
        total,
        breaks: tally.breaks,
        bad: tally.bad,
    }
}

// Those of any phase.
fn plain_of(phase: Phase) -> PlainPulse
    ensures { result ≡ plain_of phase }
{
    match phase {
        Phase::OnHook => plain(0, 0, Tally::none()),
        Phase::BetweenTrains(total) => plain(1, total, Tally::none()),
        Phase::InBreak(total, tally) => plain(2, total, tally),
        Phase::InMake(total, tally) => plain(3, total, tally),
        Phase::TimedOut(total) => plain(4, total, Tally::none()),
        Phase::Closed => plain(5, 0, Tally::none()),
    }
}

impl PulseState {
    /// The state as plain numbers, from which it comes back.
    pub fn plain(self) -> PlainPulse
        ensures value { result ≡ plain_of self }
        ensures back { phase_of result ≡ self }
    {
        plain_of(self.phase())
    }

    /// The state of plain numbers. Numbers that no state has give one all the same: counts stop where
    /// they do in a state, and an unknown phase is on hook.
    pub fn of_plain(plain: PlainPulse) -> PulseState
        ensures { result ≡ phase_of plain }
    {
        let total = plain.total.min(GREATEST_LIMIT);
        let tally = Tally {
            breaks: plain.breaks.min(MANY_BREAKS),
            bad: plain.bad,
        };
        PulseState::at(match plain.phase {
            1 => Phase::BetweenTrains(total),
            2 => Phase::InBreak(total, tally),
            3 => Phase::InMake(total, tally),
            4 => Phase::TimedOut(total),
            5 => Phase::Closed,
            _ => Phase::OnHook,
        })
    }
}
