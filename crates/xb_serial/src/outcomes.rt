// What the signals of a row tell of an attempt.
ghost use Rattle.std.specs.Prelude.{◌≡◌, ◌≤◌, fold, length};
ghost use Rattle.std.specs.Option.{option_to_list};
ghost use Rattle.xb_model.specs.OnLines.{whats_from};
ghost use Rattle.xb_register.specs.Machine.{outcomes_by, phase_after};

use xb_model::{Dialled, Signal};
use xb_register::{Register, RegisterState};

/// What the register gives for signals of one line, of which no more than one brings an outcome. So
/// it is of the signals that the pulse stage sends for one row.
pub fn outcome_of(
    register: &Register,
    state: &mut RegisterState,
    signals: &[Signal],
) -> Option<Dialled>
    requires { length (whats_from (phase_after register.now) (outcomes_by register.now) state.old signals.now)
        ≤ 1 }
    ensures outcome { option_to_list result
        ≡ whats_from (phase_after register.now) (outcomes_by register.now) state.old signals.now }
    ensures state { state.new ≡ fold (phase_after register.now) state.old signals.now }
{
    let mut outcome = None;
    for signal in signals {
        if let Some(given) = register.take(state, *signal) {
            outcome = Some(given);
        }
    }
    outcome
}
