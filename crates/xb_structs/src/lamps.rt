// The digits of an attempt that goes on.
ghost use Rattle.std.specs.Prelude.{◌≡◌, ◌≤◌, take};
ghost use Rattle.xb_model.specs.declared.digits.TheConstants.{NUMBER_DIGITS};
ghost use Rattle.xb_structs.specs.Hearing.{digits_so_far};
ghost use Rattle.xb_structs.specs.Lines.{register_in};

use crate::digits::put_digits;
use crate::line::{PlainLine, register_of};
use xb_model::NUMBER_DIGITS;

/// The digits so far of an attempt that has no outcome yet, as lamps show them: they are written to the front of
/// the room, and the result says how many they are. Any other line has none.
pub fn dialled(line: &PlainLine, room: &mut [u8; NUMBER_DIGITS]) -> usize
    ensures digits { take result room.new ≡ digits_so_far (register_in line.now.register) }
    ensures few { result ≤ NUMBER_DIGITS }
{
    let known = register_of(&line.register).plain();
    let digits = known.digits.digits();
    put_digits(digits, room);
    digits.len()
}
