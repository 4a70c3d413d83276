// What a row does on its line.
ghost use Rattle.std.specs.Prelude.{◌≡◌, ◌<◌};
ghost use Rattle.arrayvec.specs.ArrayVec.{array_vec_len};
ghost use Rattle.xb_pulse.specs.Machine.{enter, with_first};

use crate::state::Phase;
use arrayvec::ArrayVec;
use xb_model::Signal;

/// The most signals that one row sends.
pub const MOST_SIGNALS: usize = 2;

// What a row sends on its line, and the phase after it.
#[derive(Drop)]
pub(crate) struct Step {
    pub(crate) sent: ArrayVec<Signal, MOST_SIGNALS>,
    pub(crate) phase: Phase,
}

impl Step {
    // Nothing is sent, and the line enters this phase.
    pub(crate) fn enter(phase: Phase) -> Step
        ensures { result ≡ enter phase }
    {
        Step {
            sent: ArrayVec::new(),
            phase,
        }
    }

    // This signal is sent before the others.
    pub(crate) fn with_first(mut self, signal: Signal) -> Step
        requires { array_vec_len self.sent < MOST_SIGNALS }
        ensures { result ≡ with_first signal self }
    {
        self.sent.insert(0, signal);
        self
    }
}
