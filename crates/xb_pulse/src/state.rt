// What the pulse stage keeps of a line.
ghost use Rattle.std.specs.Prelude.{◌≡◌};
ghost use Rattle.xb_pulse.specs.Counters.{IsWithin};

use std::marker::Model;

// The part of a pulse train that is heard so far.
#[derive(Clone, Copy, Debug, PartialEq, Eq)]
pub(crate) struct Tally {
    // How many of its breaks have ended, at most `MANY_BREAKS`.
    pub(crate) breaks: u8,
    // Whether one of these breaks, or of the makes between them, is out of its limits.
    pub(crate) bad: bool,
}

impl Tally {
    ghost use Rattle.xb_pulse.specs.Machine.{no_breaks};

    // Before the first break of a train.
    pub(crate) fn none() -> Tally
        ensures { result ≡ no_breaks }
    {
        Tally {
            breaks: 0,
            bad: false,
        }
    }
}

// What is known of a line from its rows so far. Each length is in ms, and stops at
// `GREATEST_LIMIT`.
#[derive(Clone, Copy, Debug, PartialEq, Eq)]
pub(crate) enum Phase {
    // No attempt is under way: nothing came but breaks, or the line was released.
    OnHook,
    // In a make of this length that is in no train: an attempt's first, or one that ended a train.
    BetweenTrains(u32),
    // In a break of this length after this part of a train.
    InBreak(u32, Tally),
    // In a make of this length after this part of a train.
    InMake(u32, Tally),
    // The attempt timed out, and the break after its last make has this length.
    TimedOut(u32),
    // The line's record is closed.
    Closed,
}

/// What the pulse stage knows of a line from its rows so far. It counts ms up to 1,000,000, the
/// greatest limit, and the breaks of a train up to 11, which are too many for a digit.
#[derive(Clone, Copy, Debug, PartialEq, Eq)]
pub struct PulseState {
    phase: Phase,
}

impl Model for PulseState {
    ghost use Rattle.xb_pulse.specs.declared.state.Phase.{Phase};
    ghost use Rattle.xb_pulse.specs.Counters.{IsWithin};

    ghost Value = { Phase };

    ghost view = { λ state. state.phase };

    ghost invariant = { λ state. IsWithin state.phase };

    ghost inverse = { λ phase. record { phase = phase } };
}

impl PulseState {
    /// A line in this phase.
    pub(crate) fn at(phase: Phase) -> PulseState
        requires { IsWithin phase }
        ensures { result ≡ phase }
    {
        PulseState { phase }
    }

    /// The line's phase.
    pub(crate) fn phase(self) -> Phase
        ensures value { result ≡ self }
        ensures within { IsWithin result }
    {
        self.phase
    }
}
