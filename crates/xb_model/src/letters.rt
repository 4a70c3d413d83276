// The digits that the characters of a number dial.
ghost use Rattle.std.specs.Prelude.{◌≡◌};
ghost use Rattle.xb_model.specs.Letters.{digit_of_character, digit_of_letter};

use crate::digit::Digit;

// The digit beside which a letter stands on a dial; `None` of Q, of Z and of what is no letter.
fn digit_of_letter(character: u8) -> Option<Digit>
    ensures { result ≡ digit_of_letter character }
{
    match character.to_ascii_uppercase() {
        b'A'..=b'C' => Digit::new(2),
        b'D'..=b'F' => Digit::new(3),
        b'G'..=b'I' => Digit::new(4),
        b'J'..=b'L' => Digit::new(5),
        b'M'..=b'O' => Digit::new(6),
        b'P' | b'R'..=b'S' => Digit::new(7),
        b'T'..=b'V' => Digit::new(8),
        b'W'..=b'Y' => Digit::new(9),
        _ => None,
    }
}

/// The digit that a character dials: a digit itself, or the digit beside which a letter stands.
pub fn digit_of_character(character: u8) -> Option<Digit>
    ensures { result ≡ digit_of_character character }
{
    match Digit::from_ascii(character) {
        Some(digit) => Some(digit),
        None => digit_of_letter(character),
    }
}
