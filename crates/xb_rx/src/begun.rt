// A keying that goes on, and what is done with the next key.
ghost use Rattle.std.specs.Prelude.{◌≡◌};
ghost use Rattle.xb_rx.specs.Begun.{step_of};

use xb_measured::{MOST_DIGITS, NamedKey};

// What is done with a key.
#[derive(Clone, Copy, Debug, PartialEq, Eq)]
pub(crate) enum Step {
    // A keying begins with it, or goes on.
    Keeps,
    // It completes the keying.
    Completes,
    // The keys so far stand in no keying.
    BreaksOff,
}

/// What is done with a key that comes after those of a keying that goes on.
pub(crate) fn step_of(begun: &[NamedKey], key: &NamedKey) -> Step
    ensures { result ≡ step_of begun.now key.now }
{
    if begun.is_empty() {
        if key.is_kp() {
            return Step::Keeps;
        }
        return Step::BreaksOff;
    }
    if key.is_st() {
        return Step::Completes;
    }
    if begun.len() <= MOST_DIGITS && key.digit().is_some() {
        Step::Keeps
    } else {
        Step::BreaksOff
    }
}
