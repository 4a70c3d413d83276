// The line of an entry, as text for C.
ghost use Rattle.std.specs.Prelude.{◌≡◌, ◌≢◌, ◌<◌, length};
ghost use Rattle.mfchain.specs.Entries.{DoesNotPrint, PrintsEntry};

use crate::status::{NO_ROOM, WRONG_MARKS};
use crate::texts::put_ended;
use xb_structs::{DONE, PlainMark, PrintFault, print_entry};

/// The line of entry `number` as `mfbank` prints it, of the marks that a row gave: its text, and a zero in place of the
/// LF, at the front of the room, for which 1,025 bytes are enough. On any other status than 0 the room is as it was.
#[unsafe(no_mangle)]
pub extern "C" fn mfchain_entry(number: u32, marks: &[PlainMark], room: &mut [u8]) -> u32
    ensures prints { result ≡ 0 → PrintsEntry number marks.now room.new }
    ensures refuses { result ≢ 0 → DoesNotPrint number marks.now room.old room.new result }
    ensures enough { 1024 < length room.old → result ≢ 7 }
{
    let Some(first) = marks.first() else {
        return WRONG_MARKS;
    };
    let mut line = [0; 1024];
    match print_entry(first.line, number, marks, &mut line) {
        Ok(count) => {
            if put_ended(&line[..count], room) {
                DONE
            } else {
                NO_ROOM
            }
        }
        Err(PrintFault::Marks) => WRONG_MARKS,
        Err(PrintFault::Room) => NO_ROOM,
    }
}
