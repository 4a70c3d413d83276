// What the texts of a picture say.
ghost use Rattle.std.specs.Prelude.{◌≡◌, ◌++◌, IfOk, OnOk, codes, string_bytes};
ghost use Rattle.xb_model.specs.Page.{four_digits};
ghost use Rattle.xb_report.specs.Cells.{place_text};
ghost use Rattle.xb_report.specs.Words.{fault_text, outcome_text};
ghost use Rattle.xb_picture.specs.Labels.{left_out_text, limits_words, record_text, tenths_with};

use std::alloc::{AllocError, Global};
use xb_heard::{PlacedRun, Spoiler};
use xb_model::{Dialled, Limits, LineNo};
use xb_report::{push_fault, push_line, push_outcome, push_place};

// Puts the limits after the text, in words.
fn push_limits(out: &mut String, limits: Limits) -> Result<(), AllocError>
    ensures { OnOk result (string_bytes out.new ≡ string_bytes out.old ++ limits_words limits) }
{
    let Limits {
        pulse_min,
        pulse_max,
        make_min,
        pause,
        release,
        timeout,
    } = limits;
    write!(
        out,
        "pulse: break of {pulse_min} to {pulse_max} ms; between pulses: make of {make_min} ms or more; "
    )?;
    write!(
        out,
        "digit ends: make of {pause} ms; hangs up: break of {release} ms; time-out: make of {timeout} ms"
    )
}

// Puts a number in tenths after the text, and its unit.
fn push_tenths(out: &mut String, tenths: u128, unit: &str) -> Result<(), AllocError>
    ensures { OnOk result (string_bytes out.new ≡ string_bytes out.old ++ tenths_with tenths unit.now) }
{
    let whole = tenths / 10;
    let tenth = tenths % 10;
    write!(out, "{whole}.{tenth}{unit}")
}

// Puts the record after the text where a fault stands, of a digit that the register took, or did not.
fn push_record(out: &mut String, number: u32, taken: bool) -> Result<(), AllocError>
    ensures { OnOk result (string_bytes out.new ≡ string_bytes out.old ++ record_text taken number) }
{
    if taken {
        write!(out, "at record {number}")
    } else {
        write!(out, "at record {number}, ignored")
    }
}

// Puts after the text how many attempts are not drawn.
fn push_others(out: &mut String, before: usize, after: usize) -> Result<(), AllocError>
    ensures { OnOk result (string_bytes out.new ≡ string_bytes out.old ++ left_out_text before after) }
{
    write!(
        out,
        "not drawn here: {before} attempts before, {after} after; --attempt K draws attempt K"
    )
}

// The line that is drawn.
pub(crate) fn line_words(alloc: Global, line: LineNo) -> Result<String, AllocError>
    ensures { IfOk result (λ text. string_bytes text ≡ codes "line " ++ four_digits line) }
{
    let mut text = String::from_str(alloc, "line ")?;
    push_line(&mut text, line)?;
    Ok(text)
}

// The limits by which it was heard.
pub(crate) fn limits_words(alloc: Global, limits: Limits) -> Result<String, AllocError>
    ensures { IfOk result (λ text. string_bytes text ≡ limits_words limits) }
{
    let mut text = String::new(alloc);
    push_limits(&mut text, limits)?;
    Ok(text)
}

// How many attempts there are before those that are drawn, and how many after them.
pub(crate) fn left_out_words(
    alloc: Global,
    before: usize,
    after: usize,
) -> Result<String, AllocError>
    ensures { IfOk result (λ text. string_bytes text ≡ left_out_text before after) }
{
    let mut text = String::new(alloc);
    push_others(&mut text, before, after)?;
    Ok(text)
}

// What came of an attempt.
pub(crate) fn outcome_words(alloc: Global, outcome: &Dialled) -> Result<String, AllocError>
    ensures { IfOk result (λ text. string_bytes text ≡ outcome_text outcome.now) }
{
    let mut text = String::new(alloc);
    push_outcome(&mut text, outcome)?;
    Ok(text)
}

// Where an attempt begins.
pub(crate) fn from_words(alloc: Global, run: &PlacedRun) -> Result<String, AllocError>
    ensures { IfOk result (λ text. string_bytes text ≡ codes "from " ++ place_text run.now) }
{
    let mut text = String::from_str(alloc, "from ")?;
    push_place(&mut text, run)?;
    Ok(text)
}

// A number in tenths, and its unit.
pub(crate) fn with_unit(alloc: Global, tenths: u128, unit: &str) -> Result<String, AllocError>
    ensures { IfOk result (λ text. string_bytes text ≡ tenths_with tenths unit.now) }
{
    let mut text = String::new(alloc);
    push_tenths(&mut text, tenths, unit)?;
    Ok(text)
}

// What spoils a digit, by these limits.
pub(crate) fn spoiled_words(
    alloc: Global,
    limits: Limits,
    spoiler: Spoiler,
) -> Result<String, AllocError>
    ensures { IfOk result (λ text. string_bytes text
        ≡ fault_text limits spoiler.fault spoiler.run.ms) }
{
    let mut text = String::new(alloc);
    push_fault(&mut text, limits, spoiler.fault, spoiler.run.ms)?;
    Ok(text)
}

// The record where that stands, of a digit that the register took, or did not.
pub(crate) fn record_words(
    alloc: Global,
    spoiler: Spoiler,
    taken: bool,
) -> Result<String, AllocError>
    ensures { IfOk result (λ text. string_bytes text
        ≡ record_text taken spoiler.run.first_record) }
{
    let mut text = String::new(alloc);
    push_record(&mut text, spoiler.run.first_record, taken)?;
    Ok(text)
}
