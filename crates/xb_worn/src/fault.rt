// Faults of a dial, each at one place of the calls.
ghost use Rattle.std.specs.Prelude.{◌≡◌};
ghost use Rattle.std.specs.List.{list_any};
ghost use Rattle.xb_worn.specs.Faults.{digit_fault, fault_of_call, fault_of_digit, fault_of_pulse, preliminary_of, pulse_fault, stands_in};
ghost use Rattle.xb_worn.specs.Sending.{SendsAsWith};

/// A digit of the calls. Calls count from 1 in their order, and digits from 1 in the call.
#[derive(Clone, Copy, Debug, PartialEq, Eq)]
pub struct DigitPlace {
    /// The number of the call.
    pub call: usize,
    /// The number of the digit in the call.
    pub digit: usize,
}

/// A pulse of the calls. Pulses count from 1 in the digit.
#[derive(Clone, Copy, Debug, PartialEq, Eq)]
pub struct PulsePlace {
    /// Its digit.
    pub place: DigitPlace,
    /// The number of the pulse in the digit.
    pub pulse: usize,
}

/// What is wrong with a pulse.
#[derive(Clone, Copy, Debug, PartialEq, Eq)]
pub enum PulseFault {
    /// Its break lasts so many ms.
    Break(u32),
    /// It does not come: its break and the make after it are left out.
    Lost,
    /// One more comes after it, which is as it is.
    Extra,
}

/// What is wrong with the end of a digit.
#[derive(Clone, Copy, Debug, PartialEq, Eq)]
pub enum DigitFault {
    /// The make that ends it lasts so many ms.
    Pause(u32),
    /// The hook is flashed after it: a break of so many ms, and a make as long as a pause.
    Flash(u32),
}

/// A fault, and where it is.
#[derive(Clone, Copy, Debug, PartialEq, Eq)]
pub enum Fault {
    /// A fault of a pulse.
    Pulse(PulsePlace, PulseFault),
    /// A fault of the end of a digit.
    Digit(DigitPlace, DigitFault),
    /// A preliminary pulse in the call of this number: before its first digit a break of so many ms, and a make as long
    /// as a pause.
    Preliminary(usize, u32),
}

// What a fault does to a pulse.
fn fault_of_pulse(place: PulsePlace, fault: Fault) -> Option<PulseFault>
    ensures { result ≡ fault_of_pulse place fault }
{
    match fault {
        Fault::Pulse(at, kind)
            if at.place.call == place.place.call
                && at.place.digit == place.place.digit
                && at.pulse == place.pulse => { Some(kind) }
        _ => None,
    }
}

// What a fault does to the end of a digit.
fn fault_of_digit(place: DigitPlace, fault: Fault) -> Option<DigitFault>
    ensures { result ≡ fault_of_digit place fault }
{
    match fault {
        Fault::Digit(at, kind) if at.call == place.call && at.digit == place.digit => Some(kind),
        _ => None,
    }
}

// What a fault does to a call: how long the break of a preliminary pulse lasts.
fn fault_of_call(number: usize, fault: Fault) -> Option<u32>
    ensures { result ≡ fault_of_call number fault }
{
    match fault {
        Fault::Preliminary(call, ms) if call == number => Some(ms),
        _ => None,
    }
}

/// What is wrong with a pulse.
pub(crate) fn pulse_fault(place: PulsePlace, faults: &[Fault]) -> Option<PulseFault>
    ensures { result ≡ pulse_fault place faults.now }
{
    for fault in faults {
        if let Some(kind) = fault_of_pulse(place, *fault) {
            return Some(kind);
        }
    }
    None
}

/// What is wrong with the end of a digit.
pub(crate) fn digit_fault(place: DigitPlace, faults: &[Fault]) -> Option<DigitFault>
    ensures { result ≡ digit_fault place faults.now }
{
    for fault in faults {
        if let Some(kind) = fault_of_digit(place, *fault) {
            return Some(kind);
        }
    }
    None
}

/// How long the break of a preliminary pulse of a call lasts.
pub(crate) fn preliminary_of(number: usize, faults: &[Fault]) -> Option<u32>
    ensures { result ≡ preliminary_of number faults.now }
{
    for fault in faults {
        if let Some(ms) = fault_of_call(number, *fault) {
            return Some(ms);
        }
    }
    None
}

// Whether a fault stands in the call of this number.
fn stands_in(number: usize, fault: Fault) -> bool
    ensures { result ≡ stands_in number fault }
{
    match fault {
        Fault::Pulse(at, _kind) => at.place.call == number,
        Fault::Digit(at, _kind) => at.call == number,
        Fault::Preliminary(call, _ms) => call == number,
    }
}

// Whether one of some faults stands in the call of this number.
fn touch(number: usize, faults: &[Fault]) -> bool
    ensures { result ≡ list_any (stands_in number) faults.now }
{
    for fault in faults {
        if stands_in(number, *fault) {
            return true;
        }
    }
    false
}

/// The faults to be looked at in the call of this number: all, or none where none stands in it.
pub(crate) fn faults_in(number: usize, faults: &[Fault]) -> &[Fault]
    ensures { SendsAsWith number faults.now result.now }
{
    if touch(number, faults) { faults } else { &[] }
}
