// Marks as plain numbers.
ghost use Rattle.std.specs.Prelude.{◌≡◌, ◌≤◌, length, map, take};
ghost use Rattle.xb_structs.specs.Marks.{mark_on};

use xb_model::{Key, LineNo, Mark, Reason, Tone};

/// A mark on a line.
#[repr(C)]
#[derive(Clone, Copy)]
pub struct PlainMark {
    /// The line.
    pub line: u32,
    /// 0 a trunk group, 1 a digit, 2 KP, 3 ST; 4 to 7 a refusal: a mutilated digit, an unknown number, an
    /// abandoned attempt, a time-out.
    pub kind: u32,
    /// The trunk group, the digit, or the count of a refusal.
    pub value: u32,
    /// The lower tone of a key, in Hz.
    pub low: u32,
    /// The higher tone of a key, in Hz.
    pub high: u32,
}

// A mark on a line as plain numbers.
fn plain(line: LineNo, mark: &Mark) -> PlainMark
    ensures { result ≡ mark_on line mark.now }
{
    let line = u32::from(line.get());
    let (kind, value, low, high) = match mark {
        Mark::Trunk(trunk) => (0, u32::from(trunk.get()), 0, 0),
        Mark::Tone(Key::Digit(digit), Tone { low, high }) => {
            (1, u32::from(digit.get()), u32::from(*low), u32::from(*high))
        }
        Mark::Tone(Key::Kp, Tone { low, high }) => (2, 0, u32::from(*low), u32::from(*high)),
        Mark::Tone(Key::St, Tone { low, high }) => (3, 0, u32::from(*low), u32::from(*high)),
        Mark::Refused(Reason::Mutilated, heard) => (4, u32::from(*heard), 0, 0),
        Mark::Refused(Reason::Unknown, heard) => (5, u32::from(*heard), 0, 0),
        Mark::Refused(Reason::Abandoned, heard) => (6, u32::from(*heard), 0, 0),
        Mark::Refused(Reason::TimedOut, heard) => (7, u32::from(*heard), 0, 0),
    };
    PlainMark {
        line,
        kind,
        value,
        low,
        high,
    }
}

/// Writes marks of a line to the front of the room.
pub fn put_marks(line: LineNo, marks: &[Mark], room: &mut [PlainMark])
    requires { length marks.now ≤ length room.old }
    ensures written { take (length marks.now) room.new ≡ map (mark_on line) marks.now }
    ensures length { length room.new ≡ length room.old }
{
    for (i, mark) in marks.iter().enumerate() {
        room[i] = plain(line, mark);
    }
}
