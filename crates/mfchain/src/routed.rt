// What C asks of a number that is dialled on no line.
ghost use Rattle.std.specs.Prelude.{◌≡◌, ◌≢◌};
ghost use Rattle.mfchain.specs.Routed.{IsNotRouted, IsRouted};

use xb_structs::{DONE, PlainMark, PlainTable, not_routed_status, route_number};

/// The marks of the number that digits complete, on line 0: the first `count` of `room`. On any other status than 0
/// the room is as it was, and `count` is 0.
#[unsafe(no_mangle)]
pub extern "C" fn mfchain_route_number(
    table: &PlainTable,
    digits: &[u8],
    room: &mut [PlainMark],
    count: &mut usize,
) -> u32
    ensures routes { result ≡ 0 → IsRouted table.now digits.now room.new count.new }
    ensures refuses { result ≢ 0 →
        IsNotRouted table.now digits.now room.old room.new count.new result }
{
    *count = 0;
    match route_number(table, digits, room) {
        Ok(given) => {
            *count = given;
            DONE
        }
        Err(why) => not_routed_status(why),
    }
}
