// What one text line of calls writes.
ghost use Rattle.std.specs.Prelude.{◌≡◌, IfOk, IfErr, Ok, position};
ghost use Rattle.xb_calls.specs.CallTexts.{IsFaultOf, call_of_digits, call_of_line, digits_of, is_wrong, number_fault, two_fields};
ghost use Rattle.xb_calls.specs.Lists.{is_blank};
ghost use Rattle.xb_calls.specs.WrongBytes.{first_wrong};

use crate::call::Call;
use crate::fault::CallFault;
use crate::text_line::{add_digit, after_blanks, is_blank, is_grouping};
use crate::told_field::ToldField;
use crate::wrong_byte::WrongByte;
use std::alloc::{AllocError, Global};
use xb_model::{Digit, LineNo, Plan, line_of, plan_len};

// Whether a byte of a text line is neither a digit, nor groups digits.
fn is_wrong(byte: u8) -> bool
    ensures { result ≡ is_wrong byte }
{
    !is_grouping(byte) && !byte.is_ascii_digit()
}

// The index of the first byte of a text line that is wrong.
fn place_of_wrong(line: &[u8]) -> Option<usize>
    ensures { result ≡ position is_wrong line.now }
{
    line.iter().position(|byte| is_wrong(*byte))
}

// The first byte of a text line that is wrong.
fn first_wrong(line: &[u8]) -> Option<WrongByte>
    ensures { result ≡ first_wrong is_wrong line.now }
{
    let at = place_of_wrong(line)?;
    Some(WrongByte {
        place: at + 1,
        byte: line[at],
    })
}

// The digits that a field writes.
fn digits_of(alloc: Global, field: &[u8]) -> Result<Vec<Digit>, AllocError>
    ensures { IfOk result (λ digits. digits.items ≡ digits_of field.now) }
{
    let mut digits = Vec::new(alloc);
    for byte in field {
        add_digit(&mut digits, Digit::from_ascii(*byte))?;
    }
    Ok(digits)
}

// Why digits are no number of the plan.
fn number_fault(whole: Option<Plan>, n: u32, digits: &[Digit]) -> Option<CallFault>
    ensures { result ≡ number_fault whole n digits.now }
{
    match plan_len(whole?, digits) {
        Some(len) if usize::from(len) == digits.len() => None,
        Some(len) if usize::from(len) < digits.len() => Some(CallFault::GoesOn(n)),
        _ => Some(CallFault::Unfinished(n)),
    }
}

// The index of the first blank of a text.
fn place_of_blank(text: &[u8]) -> Option<usize>
    ensures { result ≡ position is_blank text.now }
{
    text.iter().position(|byte| is_blank(*byte))
}

// The two fields of a text line.
fn two_fields(line: &[u8]) -> (&[u8], &[u8])
    ensures { (result.0.now, result.1.now) ≡ two_fields line.now }
{
    let call = after_blanks(line);
    match place_of_blank(call) {
        Some(n) => (&call[..n], &call[n..]),
        None => (call, &[]),
    }
}

// The call of these digits on a line, or why they are no number.
fn call_of_digits(
    whole: Option<Plan>,
    n: u32,
    line: LineNo,
    digits: Vec<Digit>,
) -> Result<Call, CallFault>
    ensures { result ≡ call_of_digits whole n line digits.items }
{
    if digits.is_empty() {
        return Err(CallFault::NoDigits(n));
    }
    match number_fault(whole, n, &digits) {
        None => Ok(Call::new(line, digits)),
        Some(fault) => Err(fault),
    }
}

/// The call of text line `n`, or its first fault: line, digits, number.
pub(crate) fn call_of_line(
    alloc: Global,
    whole: Option<Plan>,
    n: u32,
    text: &[u8],
) -> Result<Call, CallFault>
    ensures call { IfOk result (λ call. call_of_line whole n text.now ≡ Ok call) }
    ensures fault { IfErr result (λ f. IsFaultOf (call_of_line whole n text.now) f) }
{
    let (first, field) = two_fields(text);
    let Some(line) = line_of(first) else {
        return Err(CallFault::Line(n, ToldField::of(first)));
    };
    if let Some(wrong) = first_wrong(text) {
        return Err(CallFault::Digit(n, wrong));
    }
    match digits_of(alloc, field) {
        Ok(digits) => call_of_digits(whole, n, line, digits),
        Err(_) => Err(CallFault::NoMemory),
    }
}
