// Which lines have a refused attempt, and which are chosen.
ghost use Rattle.std.specs.Prelude.{◌≡◌, map};
ghost use Rattle.xb_heard.specs.Attempts.{attempt_in};
ghost use Rattle.xb_hear.specs.Choosing.{has_refused, is_chosen, is_refused};

use crate::request::Choice;
use xb_heard::HeardAttempt;
use xb_model::Dialled;

// Whether the register refused an attempt.
fn is_refused(outcome: &Dialled) -> bool
    ensures { result ≡ is_refused outcome.now }
{
    match outcome {
        Dialled::Number(_) => false,
        Dialled::Refused(_, _) => true,
    }
}

/// Whether the register refused one of these attempts of a line.
pub(crate) fn has_refused(attempts: &[HeardAttempt]) -> bool
    ensures { result ≡ has_refused (map attempt_in attempts.now) }
{
    for attempt in attempts {
        if is_refused(&attempt.outcome) {
            return true;
        }
    }
    false
}

/// Whether a line with these attempts is chosen.
pub(crate) fn is_chosen(choice: Choice, attempts: &[HeardAttempt]) -> bool
    ensures { result ≡ is_chosen choice (map attempt_in attempts.now) }
{
    match choice {
        Choice::All => !attempts.is_empty(),
        Choice::Refused => has_refused(attempts),
    }
}
