// The digit that a character dials, for C.
ghost use Rattle.std.specs.Prelude.{◌≡◌, ◌≢◌, Some, None};
ghost use Rattle.xb_model.specs.Letters.{digit_of_character};
ghost use Rattle.mfchain.specs.declared.status.TheConstants.{WRONG_CHARACTER as wrong};

use crate::status::WRONG_CHARACTER;
use xb_model::digit_of_character;
use xb_structs::DONE;

/// The digit that a character dials: a digit itself, or the digit beside which a letter stands on a dial, small or not.
/// On any other status than 0 it dials none, and `digit` is as it was.
#[unsafe(no_mangle)]
pub extern "C" fn mfchain_digit_of(character: u8, digit: &mut u8) -> u32
    ensures dials { result ≡ 0 → digit_of_character character ≡ Some digit.new }
    ensures refuses { result ≢ 0 → (result ≡ wrong) × (digit_of_character character ≡ None)
        × (digit.new ≡ digit.old) }
{
    match digit_of_character(character) {
        Some(dialled) => {
            *digit = dialled.get();
            DONE
        }
        None => WRONG_CHARACTER,
    }
}
