// The line of an entry as mfbank prints it, where no memory is to be had.
ghost use Rattle.std.specs.Prelude.{◌≡◌, ◌+◌, ◌-◌, ◌≤◌, ◌<◌, ◌↔◌, ◌++◌, IsTrue, IfOk, IfErr, OnErr};
ghost use Rattle.std.specs.Prelude.{codes, decimal, length, map, replicate, take};
ghost use Rattle.std.specs.List.{AllByRecursion};
ghost use Rattle.arrayvec.specs.ArrayString.{array_string_len};
ghost use Rattle.xb_model.specs.declared.mark.TheConstants.{KEYING_MARKS};
ghost use Rattle.xb_model.specs.Page.{four_digits, last_refusal, mark_text, marks_text, pair_text};
ghost use Rattle.xb_model.specs.Page.{reason_text, zero_byte};
ghost use Rattle.xb_structs.specs.EntryLines.{IsKind, IsNotPrinted, MayBeEntry};
ghost use Rattle.xb_structs.specs.EntryLines.{line_in, mark_in, pair_in, reason_in};

use crate::mark::PlainMark;
use arrayvec::ArrayString;
use itoa::Buffer;
use xb_model::{KEYING_MARKS, Key, Reason};

/// Why an entry is not printed.
#[derive(Clone, Copy)]
pub enum PrintFault {
    /// These are not the marks of an entry: they are more than 21, or one is of a kind over 7.
    Marks,
    /// The line is longer than the room.
    Room,
}

// The most bytes of a line: 31 of its head and its end, and `MARK_BYTES` of each mark.
const LINE_BYTES: usize = 1_024;

// The most bytes of a mark: three numbers, and three bytes between them.
const MARK_BYTES: usize = 33;

// The kind of the first refusal: the others have greater ones.
const FIRST_REFUSAL: u32 = 4;

// The greatest kind of a mark.
const LAST_KIND: u32 = 7;

// A line that is being printed.
type Line = ArrayString<LINE_BYTES>;

// The zeros before a number that has so many of four digits.
fn zeros(digits: usize) -> &'static str
    ensures { result.now ≡ replicate (4 - digits) zero_byte }
{
    match digits {
        0 => "0000",
        1 => "000",
        2 => "00",
        3 => "0",
        _ => "",
    }
}

// Puts a number after the text.
fn push_number(line: &mut Line, number: u32)
    requires { array_string_len line.old + 10 ≤ 1024 }
    ensures text { line.new.bytes ≡ line.old.bytes ++ decimal number }
    ensures few { array_string_len line.new ≤ array_string_len line.old + 10 }
{
    let mut digits = Buffer::new();
    line.push_str(digits.format(number));
}

// Puts a number of four digits or more after the text.
fn push_four(line: &mut Line, number: u32)
    requires { array_string_len line.old + 10 ≤ 1024 }
    ensures text { line.new.bytes ≡ line.old.bytes ++ four_digits number }
    ensures few { array_string_len line.new ≤ array_string_len line.old + 10 }
{
    let mut digits = Buffer::new();
    let digits = digits.format(number);
    line.push_str(zeros(digits.len()));
    line.push_str(digits);
}

// Puts the two tones of a key after the text.
fn push_pair(line: &mut Line, mark: &PlainMark)
    requires { array_string_len line.old + 22 ≤ 1024 }
    ensures text { line.new.bytes ≡ line.old.bytes ++ (codes ":" ++ pair_text (pair_in mark.now)) }
    ensures few { array_string_len line.new ≤ array_string_len line.old + 22 }
{
    line.push_str(":");
    push_number(line, mark.low);
    line.push_str("+");
    push_number(line, mark.high);
}

// The reason of a refusal's kind.
fn reason_of(kind: u32) -> Reason
    ensures { result ≡ reason_in kind }
{
    match kind {
        4 => Reason::Mutilated,
        5 => Reason::Unknown,
        6 => Reason::Abandoned,
        _ => Reason::TimedOut,
    }
}

// Puts a reason and its count after the text.
fn push_refusal(line: &mut Line, reason: Reason, heard: u32)
    requires { array_string_len line.old + 20 ≤ 1024 }
    ensures text { line.new.bytes ≡ line.old.bytes ++ (reason_text reason ++ codes " " ++ decimal heard) }
    ensures few { array_string_len line.new ≤ array_string_len line.old + 20 }
{
    line.push_str(reason.word());
    line.push_str(" ");
    push_number(line, heard);
}

// Puts a mark after the text, after a blank.
fn push_mark(line: &mut Line, mark: &PlainMark)
    requires { array_string_len line.old + 33 ≤ 1024 }
    ensures text { line.new.bytes ≡ line.old.bytes ++ mark_text (mark_in mark.now) }
    ensures few { array_string_len line.new ≤ array_string_len line.old + 33 }
{
    line.push_str(" ");
    match mark.kind {
        0 => push_four(line, mark.value),
        1 => {
            push_number(line, mark.value);
            push_pair(line, mark);
        }
        2 => {
            line.push_str(Key::Kp.name());
            push_pair(line, mark);
        }
        3 => {
            line.push_str(Key::St.name());
            push_pair(line, mark);
        }
        kind => push_refusal(line, reason_of(kind), mark.value),
    }
}

// Puts marks after the text, one after the other.
fn push_marks(line: &mut Line, marks: &[PlainMark])
    requires { (array_string_len line.old ≤ 100) × (length marks.now ≤ KEYING_MARKS) }
    ensures text { line.new.bytes ≡ line.old.bytes ++ marks_text (map mark_in marks.now) }
    ensures few { array_string_len line.new ≤ 1000 }
{
    for mark in marks {
        push_mark(line, mark);
    }
}

// What the last mark refuses.
fn last_refusal(marks: &[PlainMark]) -> Option<(Reason, u32)>
    ensures { result ≡ last_refusal (map mark_in marks.now) }
{
    match marks.last() {
        Some(mark) if mark.kind >= FIRST_REFUSAL => Some((reason_of(mark.kind), mark.value)),
        _ => None,
    }
}

// The line of an entry, without its LF.
fn line_of(line: u32, number: u32, marks: &[PlainMark]) -> Line
    requires { length marks.now ≤ KEYING_MARKS }
    ensures { result.bytes ++ codes "\n" ≡ line_in line number marks.now }
{
    let mut text = Line::new();
    push_four(&mut text, line);
    text.push_str(" ");
    push_number(&mut text, number);
    match last_refusal(marks) {
        Some((reason, heard)) => {
            text.push_str(" REFUSED ");
            push_refusal(&mut text, reason, heard);
        }
        None => {
            text.push_str(" KEYED");
            push_marks(&mut text, marks);
        }
    }
    text
}

// Whether each mark is of a kind that a mark has.
fn have_kinds(marks: &[PlainMark]) -> bool
    ensures { IsTrue result ↔ AllByRecursion IsKind marks.now }
{
    marks.iter().all(|mark| mark.kind <= LAST_KIND)
}

/// Writes entry `number` of a line to the front of the room, as `mfbank` prints it but without the LF: so many
/// bytes. It takes no memory. A room of 1,024 bytes is enough. On an `Err` the room is as it was.
pub fn print_entry(
    line: u32,
    number: u32,
    marks: &[PlainMark],
    room: &mut [u8],
) -> Result<usize, PrintFault>
    ensures marks { IfOk result (λ _. MayBeEntry marks.now) }
    ensures printed { IfOk result (λ count.
        take count room.new ++ codes "\n" ≡ line_in line number marks.now) }
    ensures few { IfOk result (λ count. count ≤ length room.new) }
    ensures refused { IfErr result (λ fault. IsNotPrinted fault line number marks.now (length room.old)) }
    ensures enough { IfErr result (λ fault. fault ≡ PrintFault.Room → length room.old < 1024) }
    ensures kept { OnErr result (room.new ≡ room.old) }
{
    if marks.len() > KEYING_MARKS || !have_kinds(marks) {
        return Err(PrintFault::Marks);
    }
    let text = line_of(line, number, marks);
    let bytes = text.as_str().as_bytes();
    if bytes.len() > room.len() {
        return Err(PrintFault::Room);
    }
    room[..bytes.len()].copy_from_slice(bytes);
    Ok(bytes.len())
}
