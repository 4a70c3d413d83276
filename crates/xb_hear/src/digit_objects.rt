// The JSON objects of digits, and of runs with their places.
ghost use Rattle.std.specs.Prelude.{◌≡◌, ◌++◌, ◌∷◌, ◌-◌, ◌^◌, [], IfOk, OnOk, map, min};
ghost use Rattle.serde_json.specs.Data.{array, number, unsigned};
ghost use Rattle.serde_json.specs.View.{items_of, view};
ghost use Rattle.xb_heard.specs.Digits.{digit_in};
ghost use Rattle.xb_heard.specs.Figures.{times_of, whole_periods};
ghost use Rattle.xb_json.specs.Objects.{data_of};
ghost use Rattle.xb_hear.specs.Objects.{count_value, digit_object, digit_of_parts, digits_from, extent_object};
ghost use Rattle.xb_hear.specs.Objects.{fault_object, first_run, or_null, run_object, text_line, times_object};

use serde_json::Value;
use std::alloc::{AllocError, Global};
use xb_heard::{DigitRow, Extent, HeardDigit, PlacedRun, Spoiler, Times, row_of, times_of};
use xb_json::{Member, object_of};
use xb_model::{Dialled, Limits};
use xb_report::{fault_name, is_taken, limit_of};

// A count, which stops at 2^64 - 1.
fn count_of(count: u128) -> Member<'static>
    ensures { data_of result ≡ count_value count }
{
    let most = u128::from(u64::MAX);
    Member::Number(count.min(most) as u64)
}

// A figure, or null where there is none.
fn figure_or_null(figure: Option<u128>) -> Member<'static>
    ensures { data_of result ≡ or_null count_value figure }
{
    match figure {
        Some(figure) => count_of(figure),
        None => Member::Null,
    }
}

// The text line in which a run begins, where so many stand before the first record.
fn text_line(before: Option<u64>, run: &PlacedRun) -> Member<'static>
    ensures { data_of result ≡ text_line before run.now }
{
    match before {
        Some(lines) => count_of(u128::from(lines) + u128::from(run.first_record)),
        None => Member::Null,
    }
}

// A run with its place.
fn run_object(alloc: Global, before: Option<u64>, run: &PlacedRun) -> Result<Value, AllocError>
    ensures { IfOk result (λ value. view value ≡ run_object before run.now) }
{
    let members = [
        ("from_ms", Member::Number(run.start)),
        ("ms", Member::Number(run.ms)),
        ("record", Member::Number(u64::from(run.first_record))),
        ("text_line", text_line(before, run)),
    ];
    object_of(alloc, &members)
}

/// A run with its place, or null. `Err` says that memory ran out.
pub(crate) fn run_or_null(
    alloc: Global,
    before: Option<u64>,
    run: Option<PlacedRun>,
) -> Result<Value, AllocError>
    ensures { IfOk result (λ value. view value ≡ or_null (run_object before) run) }
{
    match run {
        Some(run) => run_object(alloc, before, &run),
        None => Ok(Value::Null),
    }
}

/// The first of runs with its place, or null. `Err` says that memory ran out.
pub(crate) fn first_run(
    alloc: Global,
    before: Option<u64>,
    runs: &[PlacedRun],
) -> Result<Value, AllocError>
    ensures { IfOk result (λ value. view value ≡ first_run before runs.now) }
{
    match runs.first() {
        Some(run) => run_object(alloc, before, run),
        None => Ok(Value::Null),
    }
}

// The shortest and the longest, or null.
fn extent_or_null(alloc: Global, extent: Option<Extent>) -> Result<Value, AllocError>
    ensures { IfOk result (λ value. view value ≡ or_null extent_object extent) }
{
    match extent {
        Some(Extent { least, most }) => {
            let least = ("least", Member::Number(least));
            let most = ("most", Member::Number(most));
            object_of(alloc, &[least, most])
        }
        None => Ok(Value::Null),
    }
}

// How many breaks, how long they are, and how long all is.
fn times_object(alloc: Global, times: Times) -> Result<Value, AllocError>
    ensures { IfOk result (λ value. view value ≡ times_object times) }
{
    let members = [
        ("count", Member::Number(times.breaks)),
        ("ms", count_of(times.all_ms)),
        ("open_ms", count_of(times.open_ms)),
    ];
    object_of(alloc, &members)
}

// What spoils a digit, and where, or null.
fn fault_or_null(
    alloc: Global,
    before: Option<u64>,
    limits: Limits,
    spoiler: Option<Spoiler>,
) -> Result<Value, AllocError>
    ensures { IfOk result (λ value. view value ≡ or_null (fault_object before limits) spoiler) }
{
    let Some(Spoiler { fault, run }) = spoiler else {
        return Ok(Value::Null);
    };
    let members = [
        ("from_ms", Member::Number(run.start)),
        ("kind", Member::Word(fault_name(fault))),
        ("limit", Member::Number(u64::from(limit_of(limits, fault)))),
        ("ms", Member::Number(run.ms)),
        ("record", Member::Number(u64::from(run.first_record))),
        ("text_line", text_line(before, &run)),
    ];
    object_of(alloc, &members)
}

// The times of the whole periods of a train: the runs before its last break.
fn periods_of(train: &[PlacedRun]) -> Times
    ensures { result ≡ times_of (whole_periods train.now) }
{
    times_of(&train[..train.len().saturating_sub(1)])
}

// The name of a digit, or null where it is spoiled.
fn name_or_null(name: Option<u64>) -> Member<'static>
    ensures { data_of result ≡ or_null (λ digit. number (unsigned digit)) name }
{
    match name {
        Some(digit) => Member::Number(digit),
        None => Member::Null,
    }
}

// What stands in the object of a digit as an object of its own, or null.
#[derive(Drop)]
struct DigitParts {
    breaks: Value,
    fault: Value,
    makes: Value,
    periods: Value,
}

// The object of a digit with these parts.
fn digit_of_parts(
    alloc: Global,
    taken: bool,
    row: DigitRow,
    parts: &DigitParts,
) -> Result<Value, AllocError>
    ensures { IfOk result (λ value. view value ≡ digit_of_parts taken row
        (view parts.now.breaks) (view parts.now.fault) (view parts.now.makes) (view parts.now.periods)) }
{
    let members = [
        ("breaks_ms", Member::Value(&parts.breaks)),
        ("digit", name_or_null(row.name)),
        ("fault", Member::Value(&parts.fault)),
        ("makes_ms", Member::Value(&parts.makes)),
        ("open_permille", figure_or_null(row.share)),
        ("pause_ms", Member::Number(row.pause)),
        ("periods", Member::Value(&parts.periods)),
        ("pulses", Member::Number(row.pulses)),
        ("speed_tenths", figure_or_null(row.speed)),
        ("taken", Member::Bool(taken)),
    ];
    object_of(alloc, &members)
}

// A digit that the register took, or did not.
fn digit_object(
    alloc: Global,
    before: Option<u64>,
    limits: Limits,
    taken: bool,
    digit: &HeardDigit,
) -> Result<Value, AllocError>
    ensures { IfOk result (λ value. view value ≡ digit_object before limits taken (digit_in digit.now)) }
{
    let row = row_of(digit, taken);
    let parts = DigitParts {
        breaks: extent_or_null(alloc, row.breaks)?,
        fault: fault_or_null(alloc, before, limits, digit.spoiler)?,
        makes: extent_or_null(alloc, row.makes)?,
        periods: times_object(alloc, periods_of(digit.pulses))?,
    };
    digit_of_parts(alloc, taken, row, &parts)
}

// Puts a digit after the others.
fn push_digit(
    alloc: Global,
    values: &mut Vec<Value>,
    before: Option<u64>,
    limits: Limits,
    taken: bool,
    digit: &HeardDigit,
) -> Result<(), AllocError>
    ensures { OnOk result (map view values.new.items
        ≡ map view values.old.items ++ digit_object before limits taken (digit_in digit.now) ∷ []) }
{
    values.push(digit_object(alloc, before, limits, taken, digit)?)?;
    Ok(())
}

/// The digits of an attempt with this outcome. `Err` says that memory ran out.
pub(crate) fn digits_array(
    alloc: Global,
    before: Option<u64>,
    limits: Limits,
    outcome: &Dialled,
    digits: &[HeardDigit],
) -> Result<Value, AllocError>
    ensures { IfOk result (λ value. view value
        ≡ array (items_of (digits_from before limits outcome.now 0 (map digit_in digits.now)))) }
{
    let mut values = Vec::new(alloc);
    for (index, digit) in digits.iter().enumerate() {
        push_digit(
            alloc,
            &mut values,
            before,
            limits,
            is_taken(outcome, index),
            digit,
        )?;
    }
    Ok(Value::from(values))
}
