// What the register knows of a line.
ghost use Rattle.std.specs.Prelude.{◌≡◌};
ghost use Rattle.xb_register.specs.Phases.{HasRoom};

use crate::stored::StoredDigits;
use std::marker::Model;
use std::mem;

// Where an attempt stands.
#[derive(Drop)]
pub(crate) enum Phase {
    // No attempt.
    OnHook,
    // An attempt, with its good digits so far.
    Listening(StoredDigits),
    // An attempt whose outcome was given: nothing is heard until release or close.
    Done,
}

/// What the register knows of a line: that no attempt has begun, the good digits of one, or that
/// nothing is heard until release or close.
#[derive(Drop)]
pub struct RegisterState {
    pub(crate) phase: Phase,
}

impl Model for RegisterState {
    ghost use Rattle.xb_register.specs.declared.state.Phase.{Phase};
    ghost use Rattle.xb_register.specs.Phases.{HasRoom};

    ghost Value = { Phase };

    ghost view = { λ state. state.phase };

    ghost invariant = { λ state. HasRoom state.phase };
}

impl RegisterState {
    /// A line on which no attempt has begun.
    pub(crate) fn fresh() -> RegisterState
        ensures { result ≡ Phase.OnHook }
    {
        RegisterState {
            phase: Phase::OnHook,
        }
    }

    /// A line in this phase.
    pub(crate) fn at(phase: Phase) -> RegisterState
        requires { HasRoom phase }
        ensures { result ≡ phase }
    {
        RegisterState { phase }
    }

    /// Takes the phase out; the line is then on-hook.
    pub(crate) fn take(&mut self) -> Phase
        ensures value { result ≡ self.old }
        ensures room { HasRoom result }
        ensures after { self.new ≡ Phase.OnHook }
    {
        mem::replace(&mut self.phase, Phase::OnHook)
    }

    /// Puts a phase in.
    pub(crate) fn put(&mut self, phase: Phase)
        requires { HasRoom phase }
        ensures { self.new ≡ phase }
    {
        self.phase = phase;
    }
}
