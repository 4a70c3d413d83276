// What C tells of a line that it hears by itself.
ghost use Rattle.std.specs.Prelude.{◌≡◌, ◌≢◌, ◌≤◌, take};
ghost use Rattle.xb_structs.specs.declared.heard_signal.HeardSignal.TheVariants as heard;
ghost use Rattle.xb_structs.specs.Hearing.{digits_so_far};
ghost use Rattle.xb_structs.specs.Lines.{register_in};
ghost use Rattle.mfchain.specs.LineSignals.{IsNotHeard, IsHeard};

use xb_structs::{
    DONE, HeardSignal, PlainLine, PlainMark, PlainTable, dialled, hear, not_heard_status,
};

// Takes what was heard on a line as `hear` does, and answers by a status.
fn hear_by_status(
    table: &PlainTable,
    line: &mut PlainLine,
    number: u32,
    heard: HeardSignal,
    room: &mut [PlainMark],
    count: &mut usize,
) -> u32
    ensures hears { result ≡ 0 → IsHeard table.now line.old line.new number heard room.new count.new }
    ensures refuses { result ≢ 0 →
        IsNotHeard table.now line.old line.new number heard room.old room.new count.new result }
{
    *count = 0;
    match hear(table, line, number, heard, room) {
        Ok(given) => {
            *count = given;
            DONE
        }
        Err(why) => not_heard_status(why),
    }
}

/// Takes it that a line is seized: a call attempt begins. The first `count` of `room` are the marks that this
/// gives. On any other status than 0 the line and the room are as they were, and `count` is 0.
#[unsafe(no_mangle)]
pub extern "C" fn mfchain_seize(
    table: &PlainTable,
    line: &mut PlainLine,
    number: u32,
    room: &mut [PlainMark],
    count: &mut usize,
) -> u32
    ensures hears { result ≡ 0 →
        IsHeard table.now line.old line.new number heard.Seizure room.new count.new }
    ensures refuses { result ≢ 0 →
        IsNotHeard table.now line.old line.new number heard.Seizure room.old room.new count.new result }
{
    hear_by_status(table, line, number, HeardSignal::Seizure, room, count)
}

/// Takes a digit that was dialled on a line, 0 to 9, as `mfchain_seize` does.
#[unsafe(no_mangle)]
pub extern "C" fn mfchain_digit(
    table: &PlainTable,
    line: &mut PlainLine,
    number: u32,
    digit: u8,
    room: &mut [PlainMark],
    count: &mut usize,
) -> u32
    ensures hears { result ≡ 0 →
        IsHeard table.now line.old line.new number (heard.Digit digit) room.new count.new }
    ensures refuses { result ≢ 0 →
        IsNotHeard table.now line.old line.new number (heard.Digit digit) room.old room.new count.new result }
{
    hear_by_status(table, line, number, HeardSignal::Digit(digit), room, count)
}

/// Takes it that a digit was dialled which cannot be told, as `mfchain_seize` does.
#[unsafe(no_mangle)]
pub extern "C" fn mfchain_mutilated_digit(
    table: &PlainTable,
    line: &mut PlainLine,
    number: u32,
    room: &mut [PlainMark],
    count: &mut usize,
) -> u32
    ensures hears { result ≡ 0 →
        IsHeard table.now line.old line.new number heard.MutilatedDigit room.new count.new }
    ensures refuses { result ≢ 0 →
        IsNotHeard table.now line.old line.new number heard.MutilatedDigit
        room.old room.new count.new result }
{
    hear_by_status(
        table,
        line,
        number,
        HeardSignal::MutilatedDigit,
        room,
        count,
    )
}

/// Takes it that nothing was dialled for too long, as `mfchain_seize` does.
#[unsafe(no_mangle)]
pub extern "C" fn mfchain_time_out(
    table: &PlainTable,
    line: &mut PlainLine,
    number: u32,
    room: &mut [PlainMark],
    count: &mut usize,
) -> u32
    ensures hears { result ≡ 0 →
        IsHeard table.now line.old line.new number heard.TimeOut room.new count.new }
    ensures refuses { result ≢ 0 →
        IsNotHeard table.now line.old line.new number heard.TimeOut room.old room.new count.new result }
{
    hear_by_status(table, line, number, HeardSignal::TimeOut, room, count)
}

/// Takes it that a line is released, as `mfchain_seize` does.
#[unsafe(no_mangle)]
pub extern "C" fn mfchain_release(
    table: &PlainTable,
    line: &mut PlainLine,
    number: u32,
    room: &mut [PlainMark],
    count: &mut usize,
) -> u32
    ensures hears { result ≡ 0 →
        IsHeard table.now line.old line.new number heard.Release room.new count.new }
    ensures refuses { result ≢ 0 →
        IsNotHeard table.now line.old line.new number heard.Release room.old room.new count.new result }
{
    hear_by_status(table, line, number, HeardSignal::Release, room, count)
}

/// The digits so far of an attempt that has no outcome yet, for lamps: they are written to the front of `digits`,
/// and the result says how many they are. Any other line has none.
#[unsafe(no_mangle)]
pub extern "C" fn mfchain_dialled(line: &PlainLine, digits: &mut [u8; 10]) -> u32
    ensures digits { take result digits.new ≡ digits_so_far (register_in line.now.register) }
    ensures few { result ≤ 10 }
{
    dialled(line, digits) as u32
}
