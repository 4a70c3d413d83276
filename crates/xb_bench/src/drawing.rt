// The digits of a line, drawn.
ghost use Rattle.std.specs.Prelude.{◌≡◌, ◌++◌, IfOk, OnOk, string_bytes};
ghost use Rattle.std.specs.List.{flat_map};
ghost use Rattle.xb_bench.specs.Drawings.{drawing_of, drawing_text, lines_text, turn_text};
ghost use Rattle.xb_bench.specs.SummaryTexts.{sums_text};

use crate::setting::{Form, Setting};
use crate::summary::push_sums;
use crate::text::push_digit;
use crate::windows::COLUMNS;
use std::alloc::{AllocError, Global};
use xb_contact::Scale;
use xb_model::LineNo;
use xb_plot::{Turn, Turns, push_page_part, push_plot};
use xb_turns::Sums;

// What the digits come to, in words.
fn sums_words(alloc: Global, scale: Scale, sums: Sums) -> Result<String, AllocError>
    ensures { IfOk result (λ text. string_bytes text ≡ sums_text scale sums) }
{
    let mut text = String::new(alloc);
    push_sums(&mut text, scale, sums)?;
    Ok(text)
}

// Puts the text line of a digit after the text.
fn push_turn(
    setting: Setting,
    out: &mut String,
    line: LineNo,
    scale: Scale,
    turn: &Turn,
) -> Result<(), AllocError>
    ensures { OnOk result (string_bytes out.new
        ≡ string_bytes out.old ++ turn_text setting line scale turn.now) }
{
    push_digit(setting, out, line, scale, true, &turn.train, turn.bounce)
}

// Puts the text lines of digits after the text.
fn push_turns(
    setting: Setting,
    out: &mut String,
    line: LineNo,
    scale: Scale,
    turns: &[Turn],
) -> Result<(), AllocError>
    ensures { OnOk result (string_bytes out.new
        ≡ string_bytes out.old ++ flat_map (turn_text setting line scale) turns.now) }
{
    for turn in turns {
        push_turn(setting, out, line, scale, turn)?;
    }
    Ok(())
}

// The text lines of digits, after the names of the columns.
fn lines_of(
    setting: Setting,
    line: LineNo,
    scale: Scale,
    turns: &[Turn],
) -> Result<String, AllocError>
    ensures { IfOk result (λ text. string_bytes text ≡ lines_text setting line scale turns.now) }
{
    let mut text = String::new(setting.alloc);
    text.push_str(COLUMNS)?;
    push_turns(setting, &mut text, line, scale, turns)?;
    Ok(text)
}

/// Puts the plot of the last digits of a line after the text, with what all of them come to; for a page, with their text
/// lines. `Err` says that memory ran out.
pub(crate) fn push_drawing(
    setting: Setting,
    out: &mut String,
    line: LineNo,
    scale: Scale,
    sums: Sums,
    turns: &Turns,
) -> Result<(), AllocError>
    ensures { OnOk result (string_bytes out.new
        ≡ string_bytes out.old ++ drawing_text (drawing_of setting line scale sums turns.now)) }
{
    let (alloc, windows) = (setting.alloc, setting.windows);
    let words = sums_words(alloc, scale, sums)?;
    let (older, kept) = (turns.older(), turns.kept());
    match setting.form {
        Form::Page => {
            let lines = lines_of(setting, line, scale, kept)?;
            push_page_part(
                alloc, out, windows, scale, line, &words, older, kept, &lines,
            )
        }
        Form::Lines | Form::Objects | Form::Picture => {
            push_plot(alloc, out, windows, scale, line, &words, older, kept)
        }
    }
}
