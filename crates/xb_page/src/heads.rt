// A page whose entries are judged, and not kept.
ghost use Rattle.std.specs.Prelude.{◌≡◌, ◌≤◌, ◌<◌, ◌^◌, Ok, Err, MatchResult, IfOk};
ghost use Rattle.std.specs.List.{position};
ghost use Rattle.xb_model.specs.declared.line.TheConstants.{LINES};
ghost use Rattle.xb_page.specs.PageLines.{ends_line, read_of, read_page};

use crate::checking::after_entry;
use crate::fault::PageFault;
use crate::page_place::PagePlace;
use crate::totals::{is_totals, says_totals};

/// What a page gives whose entries are not kept.
#[derive(Clone, Copy)]
pub struct ReadPage<'a> {
    /// The text of the entries.
    pub entries: &'a [u8],
    /// How many of them are keyed calls.
    pub keyed: usize,
    /// How many are refused ones.
    pub refused: usize,
    /// The first line that the page of the next part may have.
    pub next_line: u16,
}

// How many bytes stand before the first LF; `None` where there is no LF.
fn line_length(text: &[u8]) -> Option<usize>
    ensures { result ≡ position ends_line text.now }
{
    text.iter().position(|byte| *byte == b'\n')
}

/// Reads a page whose lines are `from` and later ones, or its first fault. Each entry is judged as
/// `page_entries` does it, and takes no memory. A text line that no LF ends is none, so a page that is cut has
/// no totals.
pub fn read_page(page: &[u8], from: u16) -> Result<ReadPage<'_>, PageFault>
    requires { from ≤ LINES }
    ensures says { MatchResult result (λ read. read_page from page.now ≡ Ok (read_of read))
        (λ f. read_page from page.now ≡ Err f) }
    ensures next { IfOk result (λ read. read.next_line ≤ LINES) }
    ensures keyed_fits { IfOk result (λ read. read.keyed < 2 ^ 64) }
    ensures refused_fits { IfOk result (λ read. read.refused < 2 ^ 64) }
{
    let mut place = PagePlace::start(from);
    let mut start = 0;
    while let Some(length) = line_length(&page[start..]) {
        let end = start + length;
        let text = &page[start..end];
        if is_totals(text) {
            if !says_totals(&place, text) {
                return Err(PageFault::Totals(place.text_line()));
            }
            if end + 1 < page.len() {
                return Err(PageFault::GoesOn(place.text_line()));
            }
            let next_line = place.line_after();
            return Ok(ReadPage {
                entries: &page[..start],
                keyed: place.keyed,
                refused: place.refused,
                next_line,
            });
        }
        place = after_entry(&place, text)?;
        start = end + 1;
    }
    Err(PageFault::NoTotals(place.text_line()))
}
