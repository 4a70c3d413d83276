// The JSON objects that are printed of an entry, of a mark, and of the totals.
ghost use Rattle.std.specs.Prelude.{◌≡◌, [], IfOk};
ghost use Rattle.serde_json.specs.View.{view};
ghost use Rattle.xb_model.specs.declared.order.Order.TheVariants as orders;
ghost use Rattle.xb_clock.specs.Objects.{with_text};
ghost use Rattle.xb_live.specs.Objects.{digits_in, mark_object, object_by, object_of, totals_object, trunk_in};
ghost use Rattle.xb_live.specs.TimedEntries.{told_with};

use crate::line_hearing::Hearing;
use serde_json::Value;
use std::alloc::{AllocError, Global};
use xb_json::{Member, object_of as object_with};
use xb_model::{Digit, Key, LineNo, Mark, Reason};

// The digits that marks key.
fn digits_in(alloc: Global, marks: &[Mark]) -> Result<Vec<Digit>, AllocError>
    ensures { IfOk result (λ digits. digits.items ≡ digits_in marks.now) }
{
    let mut digits = Vec::new(alloc);
    for mark in marks {
        if let Mark::Tone(Key::Digit(digit), _) = mark {
            digits.push(*digit)?;
        }
    }
    Ok(digits)
}

// The trunk group that marks begin with.
fn trunk_in(marks: &[Mark]) -> u16
    ensures { result ≡ trunk_in marks.now }
{
    match marks.first() {
        Some(Mark::Trunk(trunk)) => trunk.get(),
        _ => 0,
    }
}

// The object of an entry that is keyed on a trunk group.
fn keyed_object<'a>(
    alloc: Global,
    line: LineNo,
    number: usize,
    trunk: u16,
    sent: &'a [Digit],
    heard: &'a Hearing,
) -> Result<Value, AllocError>
    ensures { IfOk result (λ value. view value
        ≡ object_by (told_with line number [] heard.now) (orders.Key trunk sent.now)) }
{
    let members = [
        ("at_ms", Member::Number(heard.at)),
        ("dialled", Member::Digits(heard.dialled.digits())),
        ("entry", Member::Number(number as u64)),
        ("from_ms", Member::Number(heard.began)),
        ("keys", Member::Keys(sent)),
        ("line", Member::Number(u64::from(line.get()))),
        ("outcome", Member::Word("KEYED")),
        ("sent", Member::Digits(sent)),
        ("trunk", Member::Number(u64::from(trunk))),
    ];
    object_with(alloc, &members)
}

// The object of an entry that is refused.
fn refused_object(
    alloc: Global,
    line: LineNo,
    number: usize,
    reason: Reason,
    count: u8,
    heard: &Hearing,
) -> Result<Value, AllocError>
    ensures { IfOk result (λ value. view value
        ≡ object_by (told_with line number [] heard.now) (orders.Refused reason count)) }
{
    let members = [
        ("at_ms", Member::Number(heard.at)),
        ("dialled", Member::Digits(heard.dialled.digits())),
        ("entry", Member::Number(number as u64)),
        ("from_ms", Member::Number(heard.began)),
        ("heard", Member::Number(u64::from(count))),
        ("line", Member::Number(u64::from(line.get()))),
        ("outcome", Member::Word("REFUSED")),
        ("reason", Member::Word(reason.word())),
    ];
    object_with(alloc, &members)
}

/// The object of entry `number` of a line. `Err` says that memory ran out.
pub(crate) fn object_of(
    alloc: Global,
    line: LineNo,
    number: usize,
    marks: &[Mark],
    heard: &Hearing,
) -> Result<Value, AllocError>
    ensures { IfOk result (λ value. view value ≡ object_of (told_with line number marks.now heard.now)) }
{
    match marks.last() {
        Some(Mark::Refused(reason, count)) => {
            refused_object(alloc, line, number, *reason, *count, heard)
        }
        _ => {
            let sent = digits_in(alloc, marks)?;
            keyed_object(alloc, line, number, trunk_in(marks), &sent, heard)
        }
    }
}

/// The object of a mark of entry `number` of a line. `Err` says that memory ran out.
pub(crate) fn mark_object(
    alloc: Global,
    line: LineNo,
    number: usize,
    mark: &Mark,
    at: u64,
) -> Result<Value, AllocError>
    ensures { IfOk result (λ value. view value ≡ mark_object line number at mark.now) }
{
    let at = ("at_ms", Member::Number(at));
    let entry = ("entry", Member::Number(number as u64));
    let line = ("line", Member::Number(u64::from(line.get())));
    match mark {
        Mark::Trunk(trunk) => {
            let trunk = ("trunk", Member::Number(u64::from(trunk.get())));
            object_with(alloc, &[at, entry, line, trunk])
        }
        Mark::Tone(key, tone) => {
            let high = ("high_hz", Member::Number(u64::from(tone.high)));
            let key = ("key", Member::Word(key.name()));
            let low = ("low_hz", Member::Number(u64::from(tone.low)));
            object_with(alloc, &[at, entry, high, key, line, low])
        }
        Mark::Refused(reason, count) => {
            let heard = ("heard", Member::Number(u64::from(*count)));
            let reason = ("reason", Member::Word(reason.word()));
            object_with(alloc, &[at, entry, heard, line, reason])
        }
    }
}

/// The object of the totals. `Err` says that memory ran out.
pub(crate) fn totals_object(
    alloc: Global,
    keyed: usize,
    refused: usize,
) -> Result<Value, AllocError>
    ensures { IfOk result (λ value. view value ≡ totals_object keyed refused) }
{
    let keyed = ("keyed", Member::Number(keyed as u64));
    let refused = ("refused", Member::Number(refused as u64));
    object_with(alloc, &[keyed, refused])
}
