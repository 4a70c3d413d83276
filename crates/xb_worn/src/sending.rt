// The pulses of a call as they are sent.
ghost use Rattle.std.specs.Prelude.{◌≡◌, ◌++◌, IfOk, OnOk};
ghost use Rattle.xb_calls.specs.Dialling.{pulse_count};
ghost use Rattle.xb_worn.specs.Sending.{ended, flash_after, pause_after, preliminary, pulses_from, sent_digit, sent_digits, sent_pulses, with_fault};

use crate::fault::{
    DigitFault, DigitPlace, Fault, PulseFault, PulsePlace, digit_fault, faults_in, preliminary_of,
    pulse_fault,
};
use crate::pulse::SentPulse;
use crate::wear::Wear;
use std::alloc::{AllocError, Global};
use xb_calls::{Call, pulse_count};
use xb_chance::{state_after, word_of};
use xb_model::Digit;

// Puts a pulse after the others, as its fault sends it.
fn push_pulse(
    pulses: &mut Vec<SentPulse>,
    fault: Option<PulseFault>,
    pulse: SentPulse,
) -> Result<(), AllocError>
    ensures { OnOk result (pulses.new.items ≡ pulses.old.items ++ with_fault fault pulse) }
{
    match fault {
        None => pulses.push(pulse)?,
        Some(PulseFault::Break(ms)) => pulses.push(SentPulse {
            break_ms: u64::from(ms),
            make_ms: pulse.make_ms,
        })?,
        Some(PulseFault::Lost) => {}
        Some(PulseFault::Extra) => {
            pulses.push(pulse)?;
            pulses.push(pulse)?;
        }
    }
    Ok(())
}

// The pulses of a digit, of which the last does not end it yet.
fn pulses_of(
    alloc: Global,
    wear: &Wear,
    faults: &[Fault],
    place: DigitPlace,
    state: u64,
    digit: Digit,
) -> Result<Vec<SentPulse>, AllocError>
    ensures { let made = pulses_from wear.now faults.now place state 0 (pulse_count digit) in
        IfOk result (λ pulses. pulses.items ≡ made) }
{
    let mut pulses = Vec::new(alloc);
    for before in 0..pulse_count(digit) {
        let pulse = usize::from(before) + 1;
        let fault = pulse_fault(PulsePlace { place, pulse }, faults);
        push_pulse(&mut pulses, fault, wear.pulse(state, before))?;
    }
    Ok(pulses)
}

// Makes the last make a pause.
fn end_digit(pulses: &mut Vec<SentPulse>, pause_ms: u64) -> Result<(), AllocError>
    ensures { OnOk result (pulses.new.items ≡ ended pause_ms pulses.old.items) }
{
    if let Some(last) = pulses.pop() {
        pulses.push(SentPulse {
            break_ms: last.break_ms,
            make_ms: pause_ms,
        })?;
    }
    Ok(())
}

// How long the pause after a digit lasts.
fn pause_after(fault: Option<DigitFault>, pause_ms: u32) -> u32
    ensures { result ≡ pause_after fault pause_ms }
{
    match fault {
        Some(DigitFault::Pause(ms)) => ms,
        Some(DigitFault::Flash(_)) | None => pause_ms,
    }
}

// Puts the flash of a fault after the others.
fn push_flash(
    pulses: &mut Vec<SentPulse>,
    fault: Option<DigitFault>,
    pause_ms: u32,
) -> Result<(), AllocError>
    ensures { OnOk result (pulses.new.items ≡ pulses.old.items ++ flash_after fault pause_ms) }
{
    if let Some(DigitFault::Flash(ms)) = fault {
        pulses.push(SentPulse {
            break_ms: u64::from(ms),
            make_ms: u64::from(pause_ms),
        })?;
    }
    Ok(())
}

// Puts a preliminary pulse after the others, if there is one.
fn push_preliminary(
    pulses: &mut Vec<SentPulse>,
    break_ms: Option<u32>,
    pause_ms: u32,
) -> Result<(), AllocError>
    ensures { OnOk result (pulses.new.items ≡ pulses.old.items ++ preliminary break_ms pause_ms) }
{
    if let Some(ms) = break_ms {
        pulses.push(SentPulse {
            break_ms: u64::from(ms),
            make_ms: u64::from(pause_ms),
        })?;
    }
    Ok(())
}

// Puts the pulses of a digit after the others.
fn push_digit(
    alloc: Global,
    pulses: &mut Vec<SentPulse>,
    wear: &Wear,
    faults: &[Fault],
    place: DigitPlace,
    state: u64,
    digit: Digit,
) -> Result<(), AllocError>
    ensures { let made = sent_digit wear.now faults.now place state digit in
        OnOk result (pulses.new.items ≡ pulses.old.items ++ made) }
{
    let fault = digit_fault(place, faults);
    let pause_ms = wear.speed.pause_ms;
    let mut own = pulses_of(alloc, wear, faults, place, state, digit)?;
    end_digit(&mut own, u64::from(pause_after(fault, pause_ms)))?;
    pulses.extend_from_slice(&own)?;
    push_flash(pulses, fault, pause_ms)
}

// Puts the pulses of digits of a call after the others.
fn push_digits(
    alloc: Global,
    pulses: &mut Vec<SentPulse>,
    wear: &Wear,
    faults: &[Fault],
    call: usize,
    seed: u64,
    digits: &[Digit],
) -> Result<(), AllocError>
    ensures { let made = sent_digits wear.now faults.now call seed 1 digits.now in
        OnOk result (pulses.new.items ≡ pulses.old.items ++ made) }
{
    let mut number = 1;
    let mut state = seed;
    for digit in digits {
        state = state_after(state, 1);
        let place = DigitPlace {
            call,
            digit: number,
        };
        push_digit(alloc, pulses, wear, faults, place, word_of(state), *digit)?;
        number += 1;
    }
    Ok(())
}

/// The pulses of the call of a number, by the state of the call.
pub(crate) fn pulses_of_call(
    alloc: Global,
    wear: &Wear,
    faults: &[Fault],
    number: usize,
    state: u64,
    call: &Call,
) -> Result<Vec<SentPulse>, AllocError>
    ensures { let made = sent_pulses wear.now faults.now number state call.now.digits in
        IfOk result (λ pulses. pulses.items ≡ made) }
{
    let own = faults_in(number, faults);
    let mut pulses = Vec::new(alloc);
    push_preliminary(
        &mut pulses,
        preliminary_of(number, own),
        wear.speed.pause_ms,
    )?;
    push_digits(alloc, &mut pulses, wear, own, number, state, call.digits())?;
    Ok(pulses)
}
