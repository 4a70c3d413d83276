// The register.
ghost use Rattle.std.specs.Prelude.{◌≡◌};
ghost use Rattle.std.specs.Option.{option_to_list};
ghost use Rattle.xb_incoming.specs.Machine.{advance, at_end, listen};

use crate::key::{Symbol, TimedKey, is_clear, times_out};
use crate::phase::{Keyed, Phase, Step, opened};
use std::mem;
use xb_model::{Dialled, Reason};

/// An incoming register, which takes one key at a time.
#[derive(Drop)]
pub struct Register {
    timeout_ms: u64,
    phase: Phase,
}

// A key in a keying.
fn listen(keyed: Keyed, what: Symbol, end: u64) -> Step
    ensures { result ≡ listen keyed what end }
{
    match what {
        Symbol::Digit(digit) => Step::enter(Phase::Keying(keyed.with_digit(digit), end)),
        Symbol::St => Step::give(keyed.number(), Phase::Idle),
        Symbol::Kp | Symbol::Other => Step::refuse(Reason::Mutilated, &keyed, Phase::Deaf(end)),
    }
}

// A key in any phase.
fn advance(limit: u64, phase: Phase, key: TimedKey) -> Step
    ensures { result ≡ advance limit phase key }
{
    match phase {
        Phase::Idle => Step::enter(opened(key.what, key.end_ms)),
        Phase::Keying(keyed, last) => {
            if times_out(limit, last, key.begin_ms) {
                Step::refuse(Reason::TimedOut, &keyed, opened(key.what, key.end_ms))
            } else {
                listen(keyed, key.what, key.end_ms)
            }
        }
        Phase::Deaf(last) => {
            if is_clear(last, key.begin_ms) {
                Step::enter(opened(key.what, key.end_ms))
            } else {
                Step::enter(Phase::Deaf(key.end_ms))
            }
        }
    }
}

// What the end of the keys tells.
fn at_end(phase: &Phase) -> Option<Dialled>
    ensures { option_to_list result ≡ at_end phase.now }
{
    match phase {
        Phase::Idle => None,
        Phase::Keying(keyed, _) => Some(Dialled::Refused(Reason::Abandoned, keyed.count)),
        Phase::Deaf(_) => None,
    }
}

impl Register {
    ghost use Rattle.std.specs.Prelude.{◌≡◌, ℕ, List, [], ◌∷◌, ◌++◌};
    ghost use Rattle.std.specs.Option.{option_to_list};
    ghost use Rattle.xb_model.specs.declared.dialled.Dialled.{Dialled as Outcome};
    ghost use Rattle.xb_incoming.specs.declared.key.TimedKey.{TimedKey as Key};
    ghost use Rattle.xb_incoming.specs.Attempts.{outcomes};
    ghost use Rattle.xb_incoming.specs.Machine.{HasTaken};

    /// A register that has taken no key, with its time-out: the shortest silence inside a keying by which it times out,
    /// in ms.
    pub fn new(timeout_ms: u64) -> Register
        ensures { HasTaken timeout_ms result [] [] }
    {
        Register {
            timeout_ms,
            phase: Phase::Idle,
        }
    }

    /// Takes a key, and tells the outcome that it makes certain.
    pub fn take(&mut self, key: TimedKey) -> Option<Dialled>
        ensures { (limit : ℕ) (keys : List Key) (told : List Outcome) → HasTaken limit self.old keys told
            → HasTaken limit self.new (keys ++ key ∷ []) (told ++ option_to_list result) }
    {
        let phase = mem::replace(&mut self.phase, Phase::Idle);
        let Step { outcome, phase } = advance(self.timeout_ms, phase, key);
        self.phase = phase;
        outcome
    }

    /// The outcome of the keying that is open where the keys end.
    pub fn finish(&self) -> Option<Dialled>
        ensures { (limit : ℕ) (keys : List Key) (told : List Outcome) → HasTaken limit self.now keys told
            → told ++ option_to_list result ≡ outcomes limit keys }
    {
        at_end(&self.phase)
    }
}
