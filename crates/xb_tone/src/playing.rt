// From a page on a reader to the sound of its calls on a writer.
ghost use Rattle.std.specs.Prelude.{◌≡◌, ◌<◌, ◌≤◌, ◌^◌, IfErr, IfOk, OnOk, Err, length};
ghost use Rattle.std.specs.Io.KnownBytes.{Appends, Keeps};
ghost use Rattle.std.specs.List.{list_any};
ghost use Rattle.xb_page.specs.declared.reading.TheConstants.{MOST_PAGE_BYTES};
ghost use Rattle.xb_text.specs.Writing.{AppendsBeginning};
ghost use Rattle.xb_sound.specs.Sounds.{sound_of};
ghost use Rattle.xb_sound.specs.Wavs.{wav_length};
ghost use Rattle.xb_tone.specs.Sounding.{Delivers, IsFaultOfPage, JudgesCadence, Names, bytes_of, is_chosen, marks_chosen, sounds};

use crate::fault::ToneFault;
use crate::request::{Choice, Request};
use std::alloc::{AllocError, Global};
use std::io::{Read, Write};
use xb_model::Mark;
use xb_page::{MOST_PAGE_BYTES, PageEntry, end_lines_at_lf, page_entries};
use xb_sound::{SoundFault, write_samples, write_wav};
use xb_text::read_whole;

// Whether an entry is asked for.
fn is_chosen(choice: Choice, entry: &PageEntry) -> bool
    ensures { result ≡ is_chosen choice entry.now }
{
    match choice {
        Choice::All => true,
        Choice::Line(line) => u32::from(entry.line().get()) == line,
        Choice::Entry(line, number) => {
            u32::from(entry.line().get()) == line && entry.number() == number as usize
        }
    }
}

// Whether any entry is asked for.
fn has_chosen(choice: Choice, entries: &[PageEntry]) -> bool
    ensures { result ≡ list_any (λ entry. is_chosen choice entry) entries.now }
{
    for entry in entries {
        if is_chosen(choice, entry) {
            return true;
        }
    }
    false
}

// Whether an entry is asked for and keyed.
fn sounds(choice: Choice, entry: &PageEntry) -> bool
    ensures { result ≡ sounds choice entry.now }
{
    is_chosen(choice, entry) && !entry.is_refused()
}

// The marks of the keyed entries that are asked for, one entry after the other.
fn marks_chosen(
    alloc: Global,
    choice: Choice,
    entries: &[PageEntry],
) -> Result<Vec<Mark>, AllocError>
    ensures { IfOk result (λ marks. marks.items ≡ marks_chosen choice entries.now) }
{
    let mut marks = Vec::new(alloc);
    for entry in entries {
        if sounds(choice, entry) {
            marks.extend_from_slice(entry.marks())?;
        }
    }
    Ok(marks)
}

// The marks that a page has of what is asked for. The text is let go as soon as its entries are read.
fn marks_of_page(alloc: Global, choice: Choice, mut page: Vec<u8>) -> Result<Vec<Mark>, ToneFault>
    requires { length page.items ≤ MOST_PAGE_BYTES }
    ensures marks { IfOk result (λ marks. Names choice page.items marks.items) }
    ensures some { IfOk result (λ marks. 0 < length marks.items) }
    ensures fault { IfErr result (λ f. IsFaultOfPage choice page.items f) }
{
    end_lines_at_lf(&mut page);
    let entries = page_entries(alloc, &page)?;
    drop(page);
    if !has_chosen(choice, &entries) {
        return Err(ToneFault::NoEntry);
    }
    let marks = marks_chosen(alloc, choice, &entries)?;
    if marks.is_empty() {
        return Err(ToneFault::Refused);
    }
    Ok(marks)
}

// Writes the sound of marks.
fn write_sound<W: Write>(
    alloc: Global,
    request: Request,
    marks: &[Mark],
    out: &mut W,
) -> Result<(), SoundFault>
    ensures whole { OnOk result
        (Appends (W.contents out.old) (W.contents out.new) (bytes_of request marks.now)) }
    ensures beginning { AppendsBeginning (W.contents out.old) (W.contents out.new)
        (bytes_of request marks.now) }
    ensures too_long { result ≡ Err SoundFault.TooLong
        → 2 ^ 32 ≤ wav_length (sound_of request.cadence marks.now) }
    ensures untouched { result ≡ Err SoundFault.TooLong → Keeps (W.contents out.old) (W.contents out.new) }
{
    if request.raw {
        write_samples(alloc, out, marks, request.cadence)
    } else {
        write_wav(alloc, out, marks, request.cadence)
    }
}

/// Reads a page, and writes the sound of the keyed entries that are asked for, one after the other, as it is
/// made. The cadence is judged before anything is read, so any other fault comes only of a lawful one; and
/// nothing is written before the whole page is read.
///
/// On an `Err` nothing was written, except on `CutShort` and `Write`, where the beginning of the sound was.
///
/// What the contract says of bytes it says of readers whose bytes and writers whose contents are known to
/// contracts (byte slices, lists), which those of a process are not.
pub fn play<R: Read, W: Write>(
    alloc: Global,
    request: Request,
    page: &mut R,
    out: &mut W,
) -> Result<(), ToneFault>
    ensures judged { JudgesCadence request.cadence result }
    ensures sound { Delivers request (R.remaining page.old) result (W.contents out.old) (W.contents out.new) }
{
    request.cadence.check()?;
    let text = read_whole(alloc, page, MOST_PAGE_BYTES)?;
    let marks = marks_of_page(alloc, request.choice, text)?;
    write_sound(alloc, request, &marks, out)?;
    Ok(())
}
