// The rows of one line: what is dialled, as makes and breaks.
ghost use Rattle.std.specs.Prelude.{◌≡◌, ◌<◌, ◌≤◌, ◌++◌, ◌∷◌, [], OnOk};
ghost use Rattle.xb_model.specs.declared.digit.TheConstants.{DIGITS};
ghost use Rattle.xb_model.specs.declared.signal.TheConstants.{MOST_PULSES};
ghost use Rattle.xb_model.specs.Rows.{IsRow, row_of};
ghost use Rattle.xb_calls.specs.Calls.{AreDigits};
ghost use Rattle.xb_calls.specs.Dialling.{call_runs, digit_runs, on_line, pulse_count};
ghost use Rattle.xb_calls.specs.LineRows.{AddsCall, MayStand};

use crate::call::Call;
use crate::speed::Speed;
use std::alloc::AllocError;
use xb_model::{Contact, Digit, LineNo, MOST_PULSES, Row};

// Puts a make or a break of a line after the rows.
fn push_run(rows: &mut Vec<Row>, line: LineNo, contact: Contact, ms: u32) -> Result<(), AllocError>
    requires { IsRow contact ms }
    ensures { OnOk result (rows.new.items ≡ rows.old.items ++ row_of line contact ms ∷ []) }
{
    let row = Row::new(line, contact, ms).unwrap();
    rows.push(row)?;
    Ok(())
}

/// How many pulses a digit has.
pub fn pulse_count(digit: Digit) -> u8
    ensures count { result ≡ pulse_count digit }
    ensures some { 1 ≤ result }
    ensures most { result ≤ MOST_PULSES }
    ensures below { digit < DIGITS }
{
    match digit.get() {
        0 => MOST_PULSES,
        value => value,
    }
}

// Puts the pulses of a digit after the rows.
fn push_digit(
    rows: &mut Vec<Row>,
    speed: Speed,
    line: LineNo,
    digit: Digit,
) -> Result<(), AllocError>
    requires { MayStand speed }
    ensures rows { let made = on_line line (digit_runs speed digit) in
        OnOk result (rows.new.items ≡ rows.old.items ++ made) }
    ensures below { digit < DIGITS }
{
    for _pulse in 1..pulse_count(digit) {
        push_run(rows, line, Contact::Brk, speed.break_ms)?;
        push_run(rows, line, Contact::Make, speed.make_ms)?;
    }
    push_run(rows, line, Contact::Brk, speed.break_ms)?;
    push_run(rows, line, Contact::Make, speed.pause_ms)
}

// Puts a call after the rows: the make that seizes, and the digits.
fn push_call(rows: &mut Vec<Row>, speed: Speed, call: &Call) -> Result<(), AllocError>
    requires { MayStand speed }
    ensures rows { let made = on_line call.now.line (call_runs speed call.now.digits) in
        OnOk result (rows.new.items ≡ rows.old.items ++ made) }
    ensures digits { OnOk result (AreDigits call.now.digits) }
{
    let line = call.line();
    push_run(rows, line, Contact::Make, speed.seize_ms)?;
    for digit in call.digits() {
        push_digit(rows, speed, line, *digit)?;
    }
    Ok(())
}

/// Puts a call after the rows of its line: a break hangs up, if there are any, and then the call
/// follows.
pub(crate) fn push_next_call(
    rows: &mut Vec<Row>,
    speed: Speed,
    call: &Call,
) -> Result<(), AllocError>
    requires { MayStand speed }
    ensures rows { OnOk result (AddsCall speed call.now rows.old.items rows.new.items) }
    ensures digits { OnOk result (AreDigits call.now.digits) }
{
    if !rows.is_empty() {
        push_run(rows, call.line(), Contact::Brk, speed.hang_up_ms)?;
    }
    push_call(rows, speed, call)
}
