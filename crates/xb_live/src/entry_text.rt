// The text of an entry.
ghost use Rattle.std.specs.Prelude.{◌≡◌, ◌++◌, IfErr, IfOk, OnOk, string_bytes};
ghost use Rattle.std.specs.List.{flat_map};
ghost use Rattle.serde_json.specs.View.{view};
ghost use Rattle.xb_tape.specs.MarkLines.{mark_line};
ghost use Rattle.xb_clock.specs.Clocks.{Clock, IsClockSince, text_in};
ghost use Rattle.xb_live.specs.Clocks.{IsClockOf, styled};
ghost use Rattle.xb_live.specs.Faults.{IsOfCompleted, IsOfEntry, IsOfRow};
ghost use Rattle.xb_clock.specs.Objects.{with_time};
ghost use Rattle.xb_live.specs.Objects.{line_of, timed_mark, timed_object, totals_object};
ghost use Rattle.xb_live.specs.Texts.{completed_text, row_text, text_by, text_of, totals_of};
ghost use Rattle.xb_live.specs.TimedEntries.{told_with};

use crate::events::text_of_signals;
use crate::fault::EntriesFault;
use crate::line_hearing::Hearing;
use crate::objects::{mark_object, object_of, totals_object};
use jiff_core::Timestamp;
use std::alloc::{AllocError, Global};
use xb_clock::{TimeText, Times, times_of, with_time};
use xb_json::line_of;
use xb_model::{LineNo, Mark, Signal};
use xb_tape::{write_entry, write_mark_line, write_totals};

/// How entries are printed.
#[derive(Clone, Copy, Debug, PartialEq, Eq)]
pub enum EntryForm {
    /// One line for each entry, as the page has it.
    Entries,
    /// One line for each mark.
    Marks,
    /// One JSON object for each entry, with its times and what was dialled: its times of day too, where the one
    /// is given that the ms are counted from.
    Objects(Option<Timestamp>),
    /// One JSON object for each mark, in the same way.
    MarkObjects(Option<Timestamp>),
    /// As `Objects`, and one object for each event of a line, in the row that makes it.
    Events(Option<Timestamp>),
}

// Writes a line for each mark of entry `number` of a line.
fn write_mark_lines(
    out: &mut String,
    line: LineNo,
    number: usize,
    entry: &[Mark],
) -> Result<(), AllocError>
    ensures { OnOk result (string_bytes out.new
        ≡ string_bytes out.old ++ flat_map (λ mark. mark_line line number mark) entry.now) }
{
    for mark in entry {
        write_mark_line(out, line, number, mark)?;
    }
    Ok(())
}

// The object of entry `number` of a line with these times, as a text line.
fn object_line(
    alloc: Global,
    line: LineNo,
    number: usize,
    entry: &[Mark],
    heard: &Hearing,
    times: &Times,
) -> Result<String, AllocError>
    ensures { IfOk result (λ text. string_bytes text ≡ line_of (timed_object
        (text_in times.now.from) (text_in times.now.at) (told_with line number entry.now heard.now))) }
{
    let object = object_of(alloc, line, number, entry, heard)?;
    let object = with_time(alloc, object, "at", &times.at)?;
    let object = with_time(alloc, object, "from", &times.from)?;
    line_of(alloc, &object)
}

// The object of a mark, of which the entry is complete at this time, as a text line.
fn mark_object_line(
    alloc: Global,
    line: LineNo,
    number: usize,
    mark: &Mark,
    at: u64,
    time: &Option<TimeText>,
) -> Result<String, AllocError>
    ensures { IfOk result (λ text. string_bytes text
        ≡ line_of (timed_mark (text_in time.now) line number at mark.now)) }
{
    let object = mark_object(alloc, line, number, mark, at)?;
    let object = with_time(alloc, object, "at", time)?;
    line_of(alloc, &object)
}

// Objects for the marks of entry `number` of a line, each a text line.
fn mark_object_lines(
    alloc: Global,
    line: LineNo,
    number: usize,
    entry: &[Mark],
    at: u64,
    time: &Option<TimeText>,
) -> Result<String, AllocError>
    ensures { IfOk result (λ text. string_bytes text
        ≡ flat_map (λ mark. line_of (timed_mark (text_in time.now) line number at mark)) entry.now) }
{
    let mut lines = String::new(alloc);
    for mark in entry {
        lines.push_str(&mark_object_line(alloc, line, number, mark, at, time)?)?;
    }
    Ok(lines)
}

// The object of entry `number` of a line, as a text line.
fn text_of_object(
    alloc: Global,
    since: Option<Timestamp>,
    line: LineNo,
    number: usize,
    entry: &[Mark],
    heard: &Hearing,
) -> Result<String, EntriesFault>
    ensures text { (clock : Clock) → IsClockSince since clock → IfOk result (λ text. string_bytes text
        ≡ text_by (EntryForm.Objects since) clock (told_with line number entry.now heard.now)) }
    ensures fault { IfErr result
        (IsOfEntry (EntryForm.Objects since) (told_with line number entry.now heard.now)) }
{
    // names a type inside `Times`, without which the check has no plan for the borrow of `times`
    let _text: Option<TimeText> = None;
    let Some(times) = times_of(since, heard.began, heard.at) else {
        return Err(EntriesFault::Late(line.get(), number));
    };
    Ok(object_line(alloc, line, number, entry, heard, &times)?)
}

// The objects of its marks, each a text line.
fn text_of_mark_objects(
    alloc: Global,
    since: Option<Timestamp>,
    line: LineNo,
    number: usize,
    entry: &[Mark],
    heard: &Hearing,
) -> Result<String, EntriesFault>
    ensures text { (clock : Clock) → IsClockSince since clock → IfOk result (λ text. string_bytes text
        ≡ text_by (EntryForm.MarkObjects since) clock (told_with line number entry.now heard.now)) }
    ensures fault { IfErr result
        (IsOfEntry (EntryForm.MarkObjects since) (told_with line number entry.now heard.now)) }
{
    // as in `text_of_object`
    let _text: Option<TimeText> = None;
    let Some(times) = times_of(since, heard.began, heard.at) else {
        return Err(EntriesFault::Late(line.get(), number));
    };
    Ok(mark_object_lines(alloc, line, number, entry, heard.at, &times.at)?)
}

/// What is printed of entry `number` of a line, of which this is heard.
pub(crate) fn text_of_entry(
    alloc: Global,
    form: EntryForm,
    line: LineNo,
    number: usize,
    entry: &[Mark],
    heard: &Hearing,
) -> Result<String, EntriesFault>
    ensures text { (clock : Clock) → IsClockOf form clock → IfOk result (λ text. string_bytes text
        ≡ text_of (styled form clock) (told_with line number entry.now heard.now)) }
    ensures fault { IfErr result (IsOfEntry form (told_with line number entry.now heard.now)) }
{
    let mut text = String::new(alloc);
    match form {
        EntryForm::Entries => write_entry(&mut text, line, number, entry)?,
        EntryForm::Marks => write_mark_lines(&mut text, line, number, entry)?,
        EntryForm::Objects(since) | EntryForm::Events(since) => {
            return text_of_object(alloc, since, line, number, entry, heard);
        }
        EntryForm::MarkObjects(since) => {
            return text_of_mark_objects(alloc, since, line, number, entry, heard);
        }
    }
    Ok(text)
}

// What is printed of the entry of this number, if a row completes one.
fn text_of_completed(
    alloc: Global,
    form: EntryForm,
    line: LineNo,
    number: Option<usize>,
    entry: &[Mark],
    heard: &Hearing,
) -> Result<String, EntriesFault>
    ensures text { (clock : Clock) → IsClockOf form clock → IfOk result (λ text. string_bytes text
        ≡ completed_text (styled form clock) line entry.now heard.now number) }
    ensures fault { IfErr result (IsOfCompleted form line entry.now heard.now number) }
{
    match number {
        None => Ok(String::new(alloc)),
        Some(number) => text_of_entry(alloc, form, line, number, entry, heard),
    }
}

/// What is printed of a row of a line: its signals, and the entry of this number, if it completes one.
pub(crate) fn text_of_row(
    alloc: Global,
    form: EntryForm,
    line: LineNo,
    signals: &[Signal],
    number: Option<usize>,
    entry: &[Mark],
    heard: &Hearing,
) -> Result<Vec<u8>, EntriesFault>
    ensures text { (clock : Clock) → IsClockOf form clock → IfOk result (λ text. text.items
        ≡ row_text (styled form clock) line signals.now number entry.now heard.now) }
    ensures fault { IfErr result (IsOfRow form line signals.now number entry.now heard.now) }
{
    let mut text = text_of_signals(alloc, form, line, signals, heard)?;
    let completed = text_of_completed(alloc, form, line, number, entry, heard)?;
    text.extend_from_slice(completed.as_bytes())
        .map_err(AllocError::from)?;
    Ok(text)
}

// The object of the totals, as a text line.
fn totals_line(alloc: Global, keyed: usize, refused: usize) -> Result<String, AllocError>
    ensures { IfOk result (λ text. string_bytes text ≡ line_of (totals_object keyed refused)) }
{
    let object = totals_object(alloc, keyed, refused)?;
    line_of(alloc, &object)
}

/// What is printed of the totals. `Err` says that memory ran out.
pub(crate) fn text_of_totals(
    alloc: Global,
    form: EntryForm,
    keyed: usize,
    refused: usize,
) -> Result<String, AllocError>
    ensures { IfOk result (λ text. string_bytes text ≡ totals_of form keyed refused) }
{
    match form {
        EntryForm::Entries | EntryForm::Marks => {
            let mut text = String::new(alloc);
            write_totals(&mut text, keyed as u128, refused as u128)?;
            Ok(text)
        }
        EntryForm::Objects(_) | EntryForm::MarkObjects(_) | EntryForm::Events(_) => totals_line(
            alloc, keyed, refused,
        ),
    }
}
