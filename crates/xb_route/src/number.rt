// Numbers as they are written.
ghost use Rattle.std.specs.Prelude.{◌≡◌, IfErr, IfOk, Ok, position};
ghost use Rattle.xb_calls.specs.WrongBytes.{first_wrong};
ghost use Rattle.xb_route.specs.NumberTexts.{IsFaultOfText, digits_of, is_wrong, number_of_text};

use crate::fault::NumberFault;
use std::alloc::{AllocError, Global};
use xb_calls::{WrongByte, add_digit, is_grouping};
use xb_model::{Digit, digit_of_character};

// Whether a character neither dials a digit, nor groups digits.
fn is_wrong(character: u8) -> bool
    ensures { result ≡ is_wrong character }
{
    !is_grouping(character) && digit_of_character(character).is_none()
}

// The index of the first character of a text that is wrong.
fn place_of_wrong(text: &[u8]) -> Option<usize>
    ensures { result ≡ position is_wrong text.now }
{
    text.iter().position(|byte| is_wrong(*byte))
}

// The first character of a text that is wrong.
fn first_wrong(text: &[u8]) -> Option<WrongByte>
    ensures { result ≡ first_wrong is_wrong text.now }
{
    let at = place_of_wrong(text)?;
    Some(WrongByte {
        place: at + 1,
        byte: text[at],
    })
}

// The digits that a text dials.
fn digits_of(alloc: Global, text: &[u8]) -> Result<Vec<Digit>, AllocError>
    ensures { IfOk result (λ digits. digits.items ≡ digits_of text.now) }
{
    let mut digits = Vec::new(alloc);
    for byte in text {
        add_digit(&mut digits, digit_of_character(*byte))?;
    }
    Ok(digits)
}

/// The number that a text writes, as `234-5678` or `PE6-5000`: digits, and letters in place of those beside which they
/// stand on a dial, small ones too, which blanks (spaces and tabs) and hyphens may group.
pub fn number_of_text(alloc: Global, text: &[u8]) -> Result<Vec<Digit>, NumberFault>
    ensures number { IfOk result (λ digits. number_of_text text.now ≡ Ok digits.items) }
    ensures fault { IfErr result (IsFaultOfText text.now) }
{
    if let Some(wrong) = first_wrong(text) {
        return Err(NumberFault::Character(wrong));
    }
    let digits = match digits_of(alloc, text) {
        Ok(digits) => digits,
        Err(_) => return Err(NumberFault::NoMemory),
    };
    if digits.is_empty() {
        return Err(NumberFault::NoDigits);
    }
    Ok(digits)
}
