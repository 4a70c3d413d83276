// What is heard of a line beside its marks.
ghost use Rattle.std.specs.Prelude.{◌≡◌, if◌then◌else◌};
ghost use Rattle.xb_pulse.specs.Machine.{signals_by};
ghost use Rattle.xb_register.specs.Laws.{is_seizure};
ghost use Rattle.xb_live.specs.Hearings.{after_row, after_signal, after_signals, digits_by, digits_kept, fresh_hearing};

use arrayvec::ArrayVec;
use xb_model::{Dialled, Limits, LineStage, NumberDigits, Plan, Row, Signal};
use xb_pulse::{MOST_SIGNALS, Pulse, PulseState};
use xb_register::{Register, RegisterState};

// The phase of `PlainRegister` in which the register keeps digits.
const LISTENING: u8 = 1;

/// What is heard of a line beside its marks: how long its rows last, when its last attempt began, and what was
/// dialled in it.
#[derive(Drop)]
pub struct Hearing {
    pulse: PulseState,
    register: RegisterState,
    // The ms of the line's rows so far.
    pub(crate) at: u64,
    // The ms of those before the row with which its last attempt began.
    pub(crate) began: u64,
    // The number of that attempt, or its good digits so far.
    pub(crate) dialled: NumberDigits,
}

// When the last attempt began: now, where a signal seizes a register, or when it did.
fn begins(signal: Signal, now: u64, before: u64) -> u64
    ensures { result ≡ (if is_seizure signal then now else before) }
{
    match signal {
        Signal::Seize => now,
        _ => before,
    }
}

// Puts the digits that the register keeps, if it does, in the place of those that it kept.
#[tactic(auto, using(crate::proofs::HeardSignals::kept_plain))]
fn keep_digits(register: &RegisterState, digits: &mut NumberDigits)
    ensures { digits.new ≡ digits_kept register.now digits.old }
{
    let plain = register.plain();
    if plain.phase == LISTENING {
        *digits = plain.digits;
    }
}

// Puts the digits after a signal, which brings this, in the place of those before it.
fn keep(given: Option<Dialled>, register: &RegisterState, digits: &mut NumberDigits)
    ensures { digits.new ≡ digits_by given register.now digits.old }
{
    match given {
        Some(Dialled::Number(number)) => *digits = number,
        Some(Dialled::Refused(_, _)) => {}
        None => keep_digits(register, digits),
    }
}

impl Hearing {
    /// A line before its first row.
    pub(crate) fn fresh(limits: Limits, plan: Plan) -> Hearing
        ensures { result ≡ fresh_hearing limits plan }
    {
        Hearing {
            pulse: Pulse::new(limits).fresh(),
            register: Register::new(plan).fresh(),
            at: 0,
            began: 0,
            dialled: NumberDigits::new(),
        }
    }

    // Takes a signal of a row that is not yet in the line's time.
    fn hear(&mut self, register: &Register, signal: Signal)
        ensures { self.new ≡ after_signal register.now self.old signal }
    {
        self.began = begins(signal, self.at, self.began);
        let given = register.take(&mut self.register, signal);
        keep(given, &self.register, &mut self.dialled);
    }

    // Takes the signals of such a row.
    fn hear_all(&mut self, register: &Register, signals: &[Signal])
        ensures { self.new ≡ after_signals register.now self.old signals.now }
    {
        for signal in signals {
            self.hear(register, *signal);
        }
    }

    /// Takes a row of the line: its signals.
    pub(crate) fn take(
        &mut self,
        limits: Limits,
        plan: Plan,
        row: Row,
    ) -> ArrayVec<Signal, MOST_SIGNALS>
        ensures next { self.new ≡ after_row limits plan self.old row }
        ensures signals { result.items ≡ signals_by limits self.old.pulse row }
    {
        let signals = Pulse::new(limits).take(&mut self.pulse, row);
        self.hear_all(&Register::new(plan), &signals);
        self.at = self.at.saturating_add(u64::from(row.ms()));
        signals
    }
}
