// Entries that are judged, and not kept.
ghost use Rattle.std.specs.Prelude.{◌≡◌, ◌≤◌, ◌<◌, ◌+◌, ◌^◌, IfOk, Ok, option_copied};
ghost use Rattle.xb_model.specs.declared.line.TheConstants.{LINES};
ghost use Rattle.xb_page.specs.Places.{place_after, space, text_line, written};
ghost use Rattle.xb_page.specs.ReadPages.{after_entry, check_rest, entry_and, entry_of_head, if_there, marks_of, refusal_of_fields};
ghost use Rattle.xb_page.specs.declared.fault.PageFault.TheVariants as fault;
ghost use Rattle.xb_text.specs.Pieces.{pieces, pieces_left};

use crate::fault::PageFault;
use crate::fields::{mark_of, refusal_of};
use crate::page_place::{Head, PagePlace};
use xb_text::first_piece;

// Whether each of the fields of text line `n` writes a mark.
fn check_marks(n: usize, fields: Option<&[u8]>) -> Result<(), PageFault>
    ensures { result ≡ if_there (fault.Key n) (marks_of (pieces_left space (option_copied fields.entry))) }
{
    let mut left = fields;
    while let Some(text) = left {
        let (field, later) = first_piece(b' ', text);
        if mark_of(field).is_none() {
            return Err(PageFault::Key(n));
        }
        left = later;
    }
    Ok(())
}

// Whether what is left of text line `n` writes a refusal.
fn check_refusal(n: usize, left: Option<&[u8]>) -> Result<(), PageFault>
    ensures { let fields = pieces_left space (option_copied left.entry) in
        result ≡ if_there (fault.Refusal n) (refusal_of_fields fields) }
{
    match refusal_of(left) {
        Some(_) => Ok(()),
        None => Err(PageFault::Refusal(n)),
    }
}

// Whether what is left after the head of an entry is a refusal, or marks.
fn check_rest(n: usize, refused: bool, rest: Option<&[u8]>) -> Result<(), PageFault>
    ensures { result ≡ check_rest n refused (pieces_left space (option_copied rest.entry)) }
{
    if refused {
        check_refusal(n, rest)
    } else {
        check_marks(n, rest)
    }
}

// The place after the entry of a head, or the fault of what follows the head.
fn after_rest(place: &PagePlace, head: Head<'_>) -> Result<PagePlace, PageFault>
    requires { text_line place.now < 2 ^ 64 }
    ensures place { let entry = entry_of_head (text_line place.now) (written head.entry) in
        result ≡ entry_and entry (λ entry. Ok (place_after place.now entry)) }
    ensures line { IfOk result (λ next. next.line < LINES) }
    ensures lines { IfOk result (λ next. text_line next ≡ text_line place.now + 1) }
    ensures entries { IfOk result (λ next. next.entries ≡ head.entry.number) }
{
    check_rest(place.text_line(), head.refused, head.rest)?;
    Ok(place.after(head.line, head.number, head.refused))
}

// The place after the entry that the text line at a place writes, or its first fault.
pub(crate) fn after_entry(place: &PagePlace, text: &[u8]) -> Result<PagePlace, PageFault>
    requires lines { text_line place.now < 2 ^ 64 }
    requires entries { place.now.entries + 1 < 2 ^ 64 }
    ensures place { result ≡ after_entry place.now (pieces space text.now) }
    ensures line { IfOk result (λ next. next.line < LINES) }
    ensures lines { IfOk result (λ next. text_line next ≡ text_line place.now + 1) }
    ensures entries { IfOk result (λ next. next.entries ≤ place.now.entries + 1) }
{
    // `?` has no rule for a borrow beside a line
    match place.head_of(text) {
        Ok(head) => after_rest(place, head),
        Err(fault) => Err(fault),
    }
}
