// What a row tells the register, as plain numbers.
ghost use Rattle.std.specs.Prelude.{◌≡◌, ◌≤◌, IfOk, IfErr, OnErr, length, map, take, true};
ghost use Rattle.xb_model.specs.TwoOfFive.{pattern_of_count};
ghost use Rattle.xb_pulse.specs.Machine.{signals_by};
ghost use Rattle.xb_structs.specs.Lines.{pulse_in};
ghost use Rattle.xb_structs.specs.Signals.{Hears, IsNotHeard, bare, bits_of, plain_signal};

use crate::line::{PlainLine, pulse_of};
use crate::refusal::Refusal;
use crate::row::{PlainRow, row_of};
use crate::table::{PlainTable, parts_of};
use arrayvec::ArrayVec;
use xb_model::{Limits, Row, Signal};
use xb_pulse::{MOST_SIGNALS, Pulse};

/// What the register is told.
#[repr(C)]
#[derive(Clone, Copy)]
pub struct PlainSignal {
    /// 0 an attempt begins, 1 a digit ends, 2 a time-out, 3 a release, 4 the record ends.
    pub kind: u8,
    /// How many breaks the digit has; no more than 11 are counted.
    pub breaks: u8,
    /// Whether one of its breaks or makes is out of its limits: 0 where none is.
    pub bad: u8,
    /// Which of the five elements of the weights 0, 1, 2, 4 and 7 operate: 1 where one does.
    pub elements: [u8; 5],
}

/// The elements that operate for a train, of the weights 0, 1, 2, 4 and 7.
pub fn train_elements(count: u8, bad: bool) -> [u8; 5]
    ensures { result ≡ bits_of (pattern_of_count count bad) }
{
    if bad {
        return [0; 5];
    }
    match count {
        1 => [1, 1, 0, 0, 0],
        2 => [1, 0, 1, 0, 0],
        3 => [0, 1, 1, 0, 0],
        4 => [1, 0, 0, 1, 0],
        5 => [0, 1, 0, 1, 0],
        6 => [0, 0, 1, 1, 0],
        7 => [1, 0, 0, 0, 1],
        8 => [0, 1, 0, 0, 1],
        9 => [0, 0, 1, 0, 1],
        10 => [0, 0, 0, 1, 1],
        _ => [0; 5],
    }
}

// A signal that is no digit.
fn bare(kind: u8) -> PlainSignal
    ensures { result ≡ bare kind }
{
    PlainSignal {
        kind,
        breaks: 0,
        bad: 0,
        elements: train_elements(0, true),
    }
}

// A signal as plain numbers.
fn plain_signal(signal: Signal) -> PlainSignal
    ensures { result ≡ plain_signal signal }
{
    match signal {
        Signal::Seize => bare(0),
        Signal::Digit(count, bad) => PlainSignal {
            kind: 1,
            breaks: count,
            bad: u8::from(bad),
            elements: train_elements(count, bad),
        },
        Signal::TimeOut => bare(2),
        Signal::Release => bare(3),
        Signal::Close => bare(4),
    }
}

// Writes signals to the front of the room.
fn put_signals(signals: &[Signal], room: &mut [PlainSignal])
    requires { length signals.now ≤ length room.old }
    ensures written { take (length signals.now) room.new ≡ map plain_signal signals.now }
    ensures length { length room.new ≡ length room.old }
{
    for (i, signal) in signals.iter().enumerate() {
        room[i] = plain_signal(*signal);
    }
}

// What a row tells, by the limits of a table.
fn signals_of(limits: Limits, line: &PlainLine, row: Row) -> ArrayVec<Signal, MOST_SIGNALS>
    ensures { result.items ≡ signals_by limits (pulse_in line.now.pulse) row }
{
    let mut pulse = pulse_of(&line.pulse);
    Pulse::new(limits).take(&mut pulse, row)
}

/// What the register is told by a row that a line is about to take: so many signals at the front of the room.
/// Nothing of the line changes. On an `Err` the room is as it was.
pub fn signals(
    table: &PlainTable,
    line: &PlainLine,
    row: &PlainRow,
    room: &mut [PlainSignal],
) -> Result<usize, Refusal>
    ensures hears { IfOk result (Hears table.now line.now row.now room.new) }
    ensures few { IfOk result (λ count. count ≤ length room.new) }
    ensures refused { IfErr result (λ refusal.
        IsNotHeard refusal table.now row.now line.now (length room.old)) }
    ensures kept { OnErr result (room.new ≡ room.old) }
{
    let Some(parts) = parts_of(table) else {
        return Err(Refusal::NotOpened);
    };
    let sent = signals_of(parts.limits, line, row_of(row)?);
    if sent.len() > room.len() {
        return Err(Refusal::Room);
    }
    put_signals(&sent, room);
    Ok(sent.len())
}
