// The numbers of words, and those of a text.
ghost use Rattle.std.specs.Prelude.{◌≡◌, ◌≤◌, Ok, IfErr, IfOk, OnOk, length, map};
ghost use Rattle.xb_route.specs.NumberTexts.{numbers_of_text, numbers_of_words};
ghost use Rattle.xb_route.specs.TextSteps.{IsWrong, StopsBy, TakesText, digits_of_numbers};

use crate::fault::NumberFault;
use crate::number::number_of_text;
use std::alloc::Global;
use xb_calls::{is_passed_over, strip_carriage_return, without_mark};
use xb_model::Digit;
use xb_text::first_piece;

/// The most bytes of a text of numbers (own limit).
pub const MOST_TEXT_BYTES: usize = 16_777_216;

/// The first text that is no number: its place, from 1, and what is wrong with it.
pub(crate) type Wrong = (usize, NumberFault);

// Puts the number of a text after the earlier ones.
fn take_number(
    alloc: Global,
    place: usize,
    text: &[u8],
    numbers: &mut Vec<Vec<Digit>>,
) -> Result<(), Wrong>
    ensures taken { OnOk result (TakesText place text.now
        (digits_of_numbers numbers.old.items) (digits_of_numbers numbers.new.items)) }
    ensures fault { IfErr result (StopsBy place text.now) }
{
    let number = match number_of_text(alloc, text) {
        Ok(number) => number,
        Err(fault) => return Err((place, fault)),
    };
    if numbers.push(number).is_err() {
        return Err((place, NumberFault::NoMemory));
    }
    Ok(())
}

/// The numbers of words.
pub(crate) fn numbers_of_words(alloc: Global, words: &[&str]) -> Result<Vec<Vec<Digit>>, Wrong>
    ensures numbers { IfOk result (λ numbers.
        numbers_of_words (map (λ word. word.now) words.now) ≡ Ok (digits_of_numbers numbers.items)) }
    ensures fault { IfErr result (IsWrong (numbers_of_words (map (λ word. word.now) words.now))) }
{
    let mut numbers = Vec::new(alloc);
    let mut place = 0;
    for word in words {
        place += 1;
        take_number(alloc, place, word.as_bytes(), &mut numbers)?;
    }
    Ok(numbers)
}

/// The numbers of a text, one in each text line. A text line ends at LF or at the end of the text, and one CR
/// before that end is dropped; it is passed over where nothing follows its blanks, or a `#`. A byte order mark at the
/// beginning of the text is dropped.
pub(crate) fn numbers_of_text(alloc: Global, text: &[u8]) -> Result<Vec<Vec<Digit>>, Wrong>
    requires { length text.now ≤ MOST_TEXT_BYTES }
    ensures numbers { IfOk result (λ numbers.
        numbers_of_text text.now ≡ Ok (digits_of_numbers numbers.items)) }
    ensures fault { IfErr result (IsWrong (numbers_of_text text.now)) }
{
    let mut numbers = Vec::new(alloc);
    let mut place = 0;
    let plain = without_mark(text);
    let mut left = Some(plain);
    while let Some(lines) = left {
        let (line, later) = first_piece(b'\n', lines);
        let line = strip_carriage_return(line);
        place += 1;
        left = later;
        if !is_passed_over(line) {
            take_number(alloc, place, line, &mut numbers)?;
        }
    }
    Ok(numbers)
}
