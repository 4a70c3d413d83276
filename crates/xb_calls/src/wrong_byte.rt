// A byte that may not stand where it stands, as a fault tells it.
ghost use Rattle.std.specs.Prelude.{◌≡◌, ◌<◌};
ghost use Rattle.std.specs.Char.{digit_char};

use std::fmt;

/// A byte of a text line, or of a word, that may not stand there. A fault tells its place, and what it is: printable
/// ASCII as it is, and any other byte in hexadecimal, as `\xe2`.
#[derive(Clone, Copy, Debug, PartialEq, Eq)]
pub struct WrongByte {
    /// Its place in the text line, or in the word, in bytes from 1.
    pub place: usize,
    /// The byte.
    pub byte: u8,
}

// The digit of a number, in hexadecimal.
fn hex_digit(number: u8) -> u8
    requires { number < 16 }
    ensures { result ≡ digit_char number }
{
    if number < 10 {
        b'0' + number
    } else {
        b'a' + (number - 10)
    }
}

impl fmt::Display for WrongByte {
    ghost use Rattle.std.specs.Prelude.{Some};
    ghost use Rattle.xb_calls.specs.FaultTexts.{wrong_byte_text};

    ghost output = { λ wrong. Some (wrong_byte_text wrong) };

    fn fmt<W: fmt::Write>(&self, f: &mut fmt::Formatter<W>) -> fmt::Result {
        let WrongByte { place, byte } = *self;
        if 32 <= byte && byte < 127 {
            let character = char::from(byte);
            write!(f, "at byte {place}: \"{character}\"")
        } else {
            let high = char::from(hex_digit(byte / 16));
            let low = char::from(hex_digit(byte % 16));
            write!(f, "at byte {place}: \\x{high}{low}")
        }
    }
}
