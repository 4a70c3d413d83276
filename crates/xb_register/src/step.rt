// What a signal does on its line.
ghost use Rattle.std.specs.Prelude.{◌≡◌};
ghost use Rattle.xb_register.specs.Machine.{enter, give, refuse};

use crate::state::Phase;
use crate::stored::StoredDigits;
use xb_model::{Dialled, Reason};

// The outcome that a signal brings to its attempt, if it does, and the phase after it.
#[derive(Drop)]
pub(crate) struct Step {
    pub(crate) outcome: Option<Dialled>,
    pub(crate) phase: Phase,
}

impl Step {
    // No outcome is given, and the line enters this phase.
    pub(crate) fn enter(phase: Phase) -> Step
        ensures { result ≡ enter phase }
    {
        Step {
            outcome: None,
            phase,
        }
    }

    // This outcome is given, and the line enters this phase.
    pub(crate) fn give(outcome: Dialled, phase: Phase) -> Step
        ensures { result ≡ give outcome phase }
    {
        Step {
            outcome: Some(outcome),
            phase,
        }
    }

    // The attempt is refused, with the count of its good digits.
    pub(crate) fn refuse(reason: Reason, digits: &StoredDigits, phase: Phase) -> Step
        ensures { result ≡ refuse reason digits.now phase }
    {
        Step::give(Dialled::Refused(reason, digits.len()), phase)
    }
}
