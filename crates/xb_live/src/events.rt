// The text of events.
ghost use Rattle.std.specs.Prelude.{◌≡◌, ◌++◌, codes, IfErr, IfOk, OnOk};
ghost use Rattle.std.specs.List.{flat_map, list_any};
ghost use Rattle.xb_model.specs.Numbers.{digit_of_count};
ghost use Rattle.xb_clock.specs.Clocks.{Clock, IsClockSince, text_in};
ghost use Rattle.xb_live.specs.Clocks.{IsClockOf};
ghost use Rattle.xb_live.specs.EventObjects.{bare_object, digit_object, is_event, line_at, object_by};
ghost use Rattle.xb_live.specs.EventTokens.{dialled_tokens, name_tokens, time_tokens, tokens_at, tokens_in};
ghost use Rattle.xb_live.specs.Events.{event_with};
ghost use Rattle.xb_live.specs.Faults.{IsOfSignals};
ghost use Rattle.xb_live.specs.Texts.{event_text, signals_text};

use crate::entry_text::EntryForm;
use crate::fault::EntriesFault;
use crate::line_hearing::Hearing;
use jiff_core::Timestamp;
use json::Writer;
use std::alloc::{AllocError, Global};
use xb_clock::{TimeText, time_of};
use xb_json::text_of_digits;
use xb_model::{LineNo, MOST_PULSES, Signal};

// The digit of a train of so many breaks, if it is one.
fn digit_of(breaks: u8, bad: bool) -> Option<u8>
    ensures { result ≡ digit_of_count breaks bad }
{
    if !bad && (1 <= breaks && breaks <= MOST_PULSES) {
        Some(breaks % MOST_PULSES)
    } else {
        None
    }
}

// Writes when an event is: the time of day, where it is told, and the ms.
fn write_time(out: &mut Writer, time: &Option<TimeText>, at: u64) -> Result<(), AllocError>
    ensures before { out.new.before ≡ out.old.before }
    ensures tokens { OnOk result (out.new.tokens ≡ out.old.tokens ++ time_tokens (text_in time.now) at) }
{
    if let Some(time) = time {
        out.key("at")?;
        out.string(time.as_str())?;
    }
    out.key("at_ms")?;
    out.u64(at)
}

// Writes what an event is, and on which line: the last of its members.
fn write_name(out: &mut Writer, name: &str, line: LineNo) -> Result<(), AllocError>
    ensures before { out.new.before ≡ out.old.before }
    ensures tokens { OnOk result (out.new.tokens ≡ out.old.tokens ++ name_tokens name.now line) }
{
    out.key("event")?;
    out.string(name)?;
    out.key("line")?;
    out.u64(u64::from(line.get()))?;
    out.end_object()
}

// Writes an event that is no digit.
fn write_bare(
    out: &mut Writer,
    time: &Option<TimeText>,
    line: LineNo,
    at: u64,
    name: &str,
) -> Result<(), AllocError>
    ensures before { out.new.before ≡ out.old.before }
    ensures tokens { OnOk result (out.new.tokens
        ≡ out.old.tokens ++ tokens_at (text_in time.now) (bare_object line at name.now)) }
{
    out.begin_object()?;
    write_time(out, time, at)?;
    write_name(out, name, line)
}

// Writes what is dialled so far, and the digit, or null where it is mutilated.
fn write_dialled(out: &mut Writer, dialled: &str, digit: Option<u8>) -> Result<(), AllocError>
    ensures before { out.new.before ≡ out.old.before }
    ensures tokens { OnOk result (out.new.tokens ≡ out.old.tokens ++ dialled_tokens dialled.now digit) }
{
    out.key("dialled")?;
    out.string(dialled)?;
    out.key("digit")?;
    match digit {
        Some(digit) => out.u64(u64::from(digit)),
        None => out.null(),
    }
}

// Writes the event of a digit, with what is dialled so far.
fn write_digit(
    alloc: Global,
    out: &mut Writer,
    time: &Option<TimeText>,
    line: LineNo,
    heard: &Hearing,
    digit: Option<u8>,
) -> Result<(), AllocError>
    ensures before { out.new.before ≡ out.old.before }
    ensures tokens { OnOk result (out.new.tokens ≡ out.old.tokens
        ++ tokens_at (text_in time.now) (digit_object line heard.now.at heard.now.dialled digit)) }
{
    let dialled = text_of_digits(alloc, heard.dialled.digits())?;
    out.begin_object()?;
    write_time(out, time, heard.at)?;
    write_dialled(out, &dialled, digit)?;
    write_name(out, "DIGIT", line)
}

// Writes a signal that is an event.
fn write_event(
    alloc: Global,
    out: &mut Writer,
    time: &Option<TimeText>,
    line: LineNo,
    signal: Signal,
    heard: &Hearing,
) -> Result<(), AllocError>
    ensures before { out.new.before ≡ out.old.before }
    ensures tokens { OnOk result (out.new.tokens ≡ out.old.tokens
        ++ tokens_in (text_in time.now) (object_by line heard.now.at heard.now.dialled signal)) }
{
    match signal {
        Signal::Seize => write_bare(out, time, line, heard.at, "SEIZED"),
        Signal::Digit(breaks, bad) => {
            write_digit(alloc, out, time, line, heard, digit_of(breaks, bad))
        }
        Signal::TimeOut => write_bare(out, time, line, heard.at, "TIMEDOUT"),
        Signal::Release => write_bare(out, time, line, heard.at, "RELEASED"),
        Signal::Close => Ok(()),
    }
}

// Text lines with that of a signal after them, if it is an event.
fn with_event(
    alloc: Global,
    lines: Vec<u8>,
    time: &Option<TimeText>,
    line: LineNo,
    signal: Signal,
    heard: &Hearing,
) -> Result<Vec<u8>, AllocError>
    ensures { IfOk result (λ text. text.items ≡ lines.items
        ++ line_at (text_in time.now) (object_by line heard.now.at heard.now.dialled signal)) }
{
    if !is_event(signal) {
        return Ok(lines);
    }
    let mut out = Writer::new(lines);
    write_event(alloc, &mut out, time, line, signal, heard)?;
    let mut lines = out.into_inner();
    lines.push(b'\n')?;
    Ok(lines)
}

// The events among signals, each a text line.
fn event_lines(
    alloc: Global,
    line: LineNo,
    signals: &[Signal],
    heard: &Hearing,
    time: &Option<TimeText>,
) -> Result<Vec<u8>, AllocError>
    ensures { IfOk result (λ text. text.items
        ≡ flat_map (λ signal. line_at (text_in time.now)
        (object_by line heard.now.at heard.now.dialled signal)) signals.now) }
{
    let mut lines = Vec::new(alloc);
    for signal in signals {
        lines = with_event(alloc, lines, time, line, *signal, heard)?;
    }
    Ok(lines)
}

// Whether a signal is told as an event.
fn is_event(signal: Signal) -> bool
    ensures { result ≡ is_event signal }
{
    signal != Signal::Close
}

// Whether one of some signals is.
fn has_events(signals: &[Signal]) -> bool
    ensures { result ≡ list_any is_event signals.now }
{
    signals.iter().any(|signal| is_event(*signal))
}

// What is printed of the signals of a row, where events are.
fn text_of_events(
    alloc: Global,
    since: Option<Timestamp>,
    line: LineNo,
    signals: &[Signal],
    heard: &Hearing,
) -> Result<Vec<u8>, EntriesFault>
    ensures text { (clock : Clock) → IsClockSince since clock → IfOk result (λ text. text.items
        ≡ signals_text (EntryForm.Events since) clock line heard.now signals.now) }
    ensures fault { IfErr result (IsOfSignals (EntryForm.Events since) line heard.now.at signals.now) }
{
    if !has_events(signals) {
        return Ok(Vec::new(alloc));
    }
    let Some(time) = time_of(since, heard.at) else {
        return Err(EntriesFault::LateEvent(line.get()));
    };
    Ok(event_lines(alloc, line, signals, heard, &time)?)
}

/// What is printed of the signals of a row.
pub(crate) fn text_of_signals(
    alloc: Global,
    form: EntryForm,
    line: LineNo,
    signals: &[Signal],
    heard: &Hearing,
) -> Result<Vec<u8>, EntriesFault>
    ensures text { (clock : Clock) → IsClockOf form clock → IfOk result (λ text. text.items
        ≡ signals_text form clock line heard.now signals.now) }
    ensures fault { IfErr result (IsOfSignals form line heard.now.at signals.now) }
{
    match form {
        EntryForm::Events(since) => text_of_events(alloc, since, line, signals, heard),
        EntryForm::Entries | EntryForm::Marks | EntryForm::Objects(_) | EntryForm::MarkObjects(_) =>
            Ok(Vec::new(alloc)),
    }
}
