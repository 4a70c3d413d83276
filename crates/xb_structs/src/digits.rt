// Digits as bytes.
ghost use Rattle.std.specs.Prelude.{◌≡◌, ◌≤◌, length, map, take};
ghost use Rattle.xb_structs.specs.Digits.{digit_in};

use xb_model::{Digit, DigitList};

// A digit, 0 for what is none.
fn digit_of(byte: u8) -> Digit
    ensures { result ≡ digit_in byte }
{
    Digit::new(byte).unwrap_or_default()
}

/// The digits of some bytes, 0 for what is none.
pub fn digits_of<const CAPACITY: usize>(bytes: &[u8]) -> DigitList<CAPACITY>
    requires { length bytes.now ≤ CAPACITY }
    ensures { result ≡ map digit_in bytes.now }
{
    let mut digits = DigitList::new();
    for byte in bytes {
        digits.push(digit_of(*byte));
    }
    digits
}

/// Writes digits to the front of the room.
pub fn put_digits(digits: &[Digit], room: &mut [u8])
    requires { length digits.now ≤ length room.old }
    ensures digits { map digit_in (take (length digits.now) room.new) ≡ digits.now }
    ensures bytes { take (length digits.now) room.new ≡ digits.now }
{
    for (i, digit) in digits.iter().enumerate() {
        room[i] = digit.get();
    }
}
