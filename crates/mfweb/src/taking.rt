// A row of a line, in one call.
ghost use Rattle.std.specs.Prelude.{◌≡◌, ◌≢◌, [], ℕ, IfErr, IfOk};
ghost use Rattle.xb_routes.specs.Table.{Table};
ghost use Rattle.xb_structs.specs.Hearing.{HasHeard};
ghost use Rattle.xb_structs.specs.Taking.{HasTaken, IsRefused};
ghost use Rattle.mfweb.specs.Lamps.{AreLamps};
ghost use Rattle.mfweb.specs.Taken.{RefusesRow, TakesRow, digit_of_first};

use crate::lamps::{WebDigit, WebLamps, attempt_of, lamps_of};
use crate::wrong::wrong_by;
use xb_model::Relays;
use xb_structs::{
    DONE, PlainLine, PlainMark, PlainRow, PlainSignal, PlainTable, Refusal, refusal_status,
    signals, take,
};

// What the digit is that a row ended, where it is none, and where the row ended none.
const SPOILED: u32 = 10;

const NOT_ENDED: u32 = 11;

// The phase of an attempt in which the register listens.
const LISTENS: u8 = 1;

/// What a row of a line gives, and what is known of the line after it.
#[repr(C)]
#[derive(Clone, Copy)]
pub struct WebTaken {
    /// The marks that the row gives, and room for more.
    pub marks: [PlainMark; 24],
    /// What the register was told by it, and room for more.
    pub signals: [PlainSignal; 2],
    /// How many marks there are.
    pub mark_count: u32,
    /// How many signals there are.
    pub signal_count: u32,
    /// What is known of the line after the row.
    pub lamps: WebLamps,
    /// What is wrong with the make or break of a digit that the row ended: 0 nothing, 1 the break is under `pulse_min`,
    /// 2 it is over `pulse_max`, 3 the make is under `make_min`, 4 the break comes after ten others.
    pub wrong: u32,
    /// The digit that the first signal ends: 10 where it is spoiled, 11 where that signal ends none.
    pub digit: u32,
    /// Whether the register listened when the row came: 1 where it did.
    pub listens: u32,
}

// The digit that the first of these signals ends.
fn digit_of_first(signals: &[PlainSignal]) -> u32
    ensures { result ≡ digit_of_first signals.now }
{
    match signals.first() {
        Some(signal) if signal.kind == 1 => {
            match Relays::of_count(signal.breaks, signal.bad != 0).digit() {
                Some(digit) => u32::from(digit.get()),
                None => SPOILED,
            }
        }
        _ => NOT_ENDED,
    }
}

// Room for the marks and the signals of a row.
fn empty() -> WebTaken {
    let digit = WebDigit {
        value: 0,
        elements: [0; 5],
    };
    WebTaken {
        marks: [PlainMark {
            line: 0,
            kind: 0,
            value: 0,
            low: 0,
            high: 0,
        }; 24],
        signals: [PlainSignal {
            kind: 0,
            breaks: 0,
            bad: 0,
            elements: [0; 5],
        }; 2],
        mark_count: 0,
        signal_count: 0,
        lamps: WebLamps {
            entries: 0,
            phase: 0,
            breaks: 0,
            attempt: 0,
            count: 0,
            digits: [digit; 10],
        },
        wrong: 0,
        digit: NOT_ENDED,
        listens: 0,
    }
}

// What a row gives, and the line after it.
fn take_row(
    table: &PlainTable,
    line: &PlainLine,
    row: &PlainRow,
) -> Result<(WebTaken, PlainLine), Refusal>
    ensures taken { IfOk result (λ given. TakesRow table.now line.now given.1 row.now given.0) }
    ensures refused { IfErr result (λ refusal. IsRefused refusal table.now row.now line.now 24) }
{
    let mut taken = empty();
    let mut after = *line;
    let mark_count = take(table, &mut after, row, &mut taken.marks)?;
    let signal_count = signals(table, line, row, &mut taken.signals)?;
    taken.mark_count = mark_count as u32;
    taken.signal_count = signal_count as u32;
    taken.lamps = lamps_of(&after);
    taken.wrong = wrong_by(table.limits, &line.pulse, row);
    taken.digit = digit_of_first(&taken.signals[..signal_count]);
    taken.listens = u32::from(attempt_of(&line.register) == LISTENS);
    Ok((taken, after))
}

/// Takes one row of a line, by a table: its marks, what the register was told by it, and what is known of the line after
/// it. On any other status than 0 the line and `taken` are as they were.
#[unsafe(no_mangle)]
pub extern "C" fn mfweb_take(
    table: &PlainTable,
    line: &mut PlainLine,
    row: &PlainRow,
    taken: &mut WebTaken,
) -> u32
    ensures takes { result ≡ 0 → TakesRow table.now line.old line.new row.now taken.new }
    ensures refuses { result ≢ 0 →
        RefusesRow table.now line.old line.new row.now taken.old taken.new result }
{
    match take_row(table, line, row) {
        Ok((given, after)) => {
            *taken = given;
            *line = after;
            DONE
        }
        Err(refusal) => refusal_status(refusal),
    }
}

/// Forgets what is known of a line: its next row, or what is heard on it next, begins a new record.
#[unsafe(no_mangle)]
pub extern "C" fn mfweb_reopen(line: &mut PlainLine)
    ensures taken { (table : Table) → HasTaken table line.new [] [] }
    ensures heard { (table : Table) (number : ℕ) → HasHeard table number line.new [] [] }
{
    *line = PlainLine::new();
}

/// Writes what is known of a line.
#[unsafe(no_mangle)]
pub extern "C" fn mfweb_lamps(line: &PlainLine, lamps: &mut WebLamps)
    ensures { AreLamps line.now lamps.new }
{
    *lamps = lamps_of(line);
}
