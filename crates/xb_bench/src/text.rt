// The lines of digits and of attempts that end.
ghost use Rattle.std.specs.Prelude.{◌≡◌, ◌++◌, OnOk, string_bytes};
ghost use Rattle.xb_bench.specs.Texts.{digit_text, drift_text, ended_text, extent_of, figures_text, name_text};
ghost use Rattle.xb_bench.specs.Texts.{said_text, sign_of, spread_text, times_text, unended_text, wrong_text};
ghost use Rattle.xb_report.specs.Cells.{at_right};

use crate::setting::Setting;
use std::alloc::AllocError;
use xb_contact::Scale;
use xb_model::{Limits, LineNo, MOST_PULSES};
use xb_report::{push_fault, push_figure, push_line, push_number, push_right, push_tenths};
use xb_turns::{
    Drift, Said, Spread, Train, Wrong, drift_of, share_of, speed_of, tenths_of_ms, verdict_of,
    word_of,
};

// What stands before each cell.
const GAP: &str = "  ";

// Puts the name of a digit after the text: none where no pause ended it, and x where it is spoiled.
fn push_name(
    setting: Setting,
    out: &mut String,
    ended: bool,
    train: &Train,
) -> Result<(), AllocError>
    ensures { OnOk result (string_bytes out.new
        ≡ string_bytes out.old ++ at_right 5 (name_text ended train.now)) }
{
    if !ended {
        return push_right(out, 5, "-");
    }
    match train.wrong {
        None => push_number(
            setting.alloc,
            out,
            5,
            train.pulses as u64 % u64::from(MOST_PULSES),
        ),
        Some(_) => push_right(out, 5, "x"),
    }
}

/// Puts from the least to the greatest of two figures after the text; one where both are the same. `Err` says that
/// memory ran out.
pub(crate) fn push_extent(
    out: &mut String,
    least: Option<u128>,
    most: Option<u128>,
) -> Result<(), AllocError>
    ensures { OnOk result (string_bytes out.new ≡ string_bytes out.old ++ extent_of least most) }
{
    match (least, most) {
        (Some(least), Some(most)) if least != most => {
            push_figure(out, Some(least))?;
            out.push_str("-")?;
            push_figure(out, Some(most))
        }
        (least, _) => push_figure(out, least),
    }
}

// Puts the least and the greatest of some times in ms at the right of a cell, or a dash.
fn push_spread(
    setting: Setting,
    out: &mut String,
    scale: Scale,
    spread: Option<Spread>,
) -> Result<(), AllocError>
    ensures { OnOk result (string_bytes out.new
        ≡ string_bytes out.old ++ at_right 11 (spread_text scale spread)) }
{
    let Some(spread) = spread else {
        return push_right(out, 11, "-");
    };
    let least = tenths_of_ms(scale, spread.least);
    let most = tenths_of_ms(scale, spread.most);
    let mut text = String::new(setting.alloc);
    push_extent(&mut text, least, most)?;
    push_right(out, 11, &text)
}

// The sign of a figure in tenths.
fn sign_of(is_below: bool, tenths: u128) -> &'static str
    ensures { result.now ≡ sign_of is_below tenths }
{
    match (is_below, tenths) {
        (_, 0) => "",
        (true, _) => "-",
        (false, _) => "+",
    }
}

// Puts a figure in tenths with its sign after the text, or a dash.
fn push_signed(out: &mut String, drift: Drift) -> Result<(), AllocError>
    ensures { OnOk result (string_bytes out.new ≡ string_bytes out.old ++ drift_text drift) }
{
    if let Some(tenths) = drift.tenths {
        out.push_str(sign_of(drift.is_below, tenths))?;
    }
    push_figure(out, drift.tenths)
}

// Puts how the periods change at the right of a cell, in percent.
fn push_drift(setting: Setting, out: &mut String, drift: Drift) -> Result<(), AllocError>
    ensures { OnOk result (string_bytes out.new ≡ string_bytes out.old ++ at_right 7 (drift_text drift)) }
{
    let mut text = String::new(setting.alloc);
    push_signed(&mut text, drift)?;
    push_right(out, 7, &text)
}

// Puts the speed and the share of a digit after the text.
fn push_figures(
    setting: Setting,
    out: &mut String,
    scale: Scale,
    train: &Train,
) -> Result<(), AllocError>
    ensures { OnOk result (string_bytes out.new ≡ string_bytes out.old ++ figures_text scale train.now) }
{
    out.push_str(GAP)?;
    push_number(setting.alloc, out, 6, train.pulses as u64)?;
    out.push_str(GAP)?;
    push_tenths(setting.alloc, out, 5, speed_of(scale, train))?;
    out.push_str(GAP)?;
    push_tenths(setting.alloc, out, 7, share_of(train))
}

// Puts the times of a digit after the text.
fn push_times(
    setting: Setting,
    out: &mut String,
    scale: Scale,
    train: &Train,
    bounce: u64,
) -> Result<(), AllocError>
    ensures { OnOk result (string_bytes out.new
        ≡ string_bytes out.old ++ times_text scale train.now bounce) }
{
    out.push_str(GAP)?;
    push_spread(setting, out, scale, Some(train.breaks))?;
    out.push_str(GAP)?;
    push_spread(setting, out, scale, train.makes)?;
    out.push_str(GAP)?;
    push_drift(setting, out, drift_of(train))?;
    out.push_str(GAP)?;
    push_tenths(setting.alloc, out, 9, tenths_of_ms(scale, bounce))
}

// Puts what is wrong with a digit after the text, if anything is.
fn push_wrong(out: &mut String, limits: Limits, wrong: Option<Wrong>) -> Result<(), AllocError>
    ensures { OnOk result (string_bytes out.new ≡ string_bytes out.old ++ wrong_text limits wrong) }
{
    match wrong {
        None => Ok(()),
        Some(Wrong { fault, ms }) => {
            out.push_str(GAP)?;
            push_fault(out, limits, fault, ms)
        }
    }
}

/// Puts the line of a digit after the text. `Err` says that memory ran out.
pub(crate) fn push_digit(
    setting: Setting,
    out: &mut String,
    line: LineNo,
    scale: Scale,
    ended: bool,
    train: &Train,
    bounce: u64,
) -> Result<(), AllocError>
    ensures { OnOk result (string_bytes out.new
        ≡ string_bytes out.old ++ digit_text setting line scale ended train.now bounce) }
{
    let verdict = verdict_of(
        setting.windows,
        train.pulses,
        speed_of(scale, train),
        share_of(train),
    );
    push_line(out, line)?;
    out.push_str(GAP)?;
    push_name(setting, out, ended, train)?;
    push_figures(setting, out, scale, train)?;
    push_times(setting, out, scale, train, bounce)?;
    out.push_str(GAP)?;
    push_right(out, 7, word_of(verdict))?;
    push_wrong(out, setting.limits, train.wrong)?;
    out.push_str("\n")
}

// Puts the line of pulses that no pause ended after the text, if there are any.
fn push_unended(
    setting: Setting,
    out: &mut String,
    line: LineNo,
    scale: Scale,
    pulses: Option<(Train, u64)>,
) -> Result<(), AllocError>
    ensures { OnOk result (string_bytes out.new
        ≡ string_bytes out.old ++ unended_text setting line scale pulses) }
{
    match pulses {
        Some((train, bounce)) => push_digit(setting, out, line, scale, false, &train, bounce),
        None => Ok(()),
    }
}

// Puts the line of an attempt that ended after the text, after the pulses that no pause ended.
pub(crate) fn push_ended(
    setting: Setting,
    out: &mut String,
    line: LineNo,
    scale: Scale,
    pulses: Option<(Train, u64)>,
    why: &str,
) -> Result<(), AllocError>
    ensures { OnOk result (string_bytes out.new
        ≡ string_bytes out.old ++ ended_text setting line scale pulses why.now) }
{
    push_unended(setting, out, line, scale, pulses)?;
    push_line(out, line)?;
    out.push_str(GAP)?;
    out.push_str(why)?;
    out.push_str("\n")
}

/// Puts what is told of a line after the text.
pub(crate) fn push_said(
    setting: Setting,
    out: &mut String,
    line: LineNo,
    scale: Scale,
    said: Said,
) -> Result<(), AllocError>
    ensures { OnOk result (string_bytes out.new
        ≡ string_bytes out.old ++ said_text setting line scale said) }
{
    match said {
        Said::Digit(train, bounce) => push_digit(setting, out, line, scale, true, &train, bounce),
        Said::HungUp(pulses) => push_ended(setting, out, line, scale, pulses, "hung up"),
    }
}
