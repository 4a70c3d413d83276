// Text lines of a text without a line that cuts it, which are nearly that line.
ghost use Rattle.std.specs.Prelude.{◌≡◌, ◌≤◌, OnOk, count_by, length};
ghost use Rattle.std.specs.List.{list_all};
ghost use Rattle.xb_findings.specs.NearCuts.{is_dash, is_nearly_cut, is_of_cut, is_padding, near_cut, near_cuts};
ghost use Rattle.xb_findings.specs.Tallies.{tallied, with_all};
ghost use Rattle.xb_findings.specs.TextLines.{text_lines};
ghost use Rattle.xb_deck.specs.declared.deck.TheConstants.{MOST_DECK_BYTES};

use crate::finding::What;
use crate::records::push_found;
use crate::tally::Tally;
use crate::text_lines::first_line;
use std::alloc::AllocError;
use xb_keys::{Key, is_blank, without_mark};

// Whether a byte is that of a hyphen, or of a dash in UTF-8.
fn is_dash(byte: u8) -> bool
    ensures { result ≡ is_dash byte }
{
    byte == b'-' || byte == 0xE2 || byte == 0x80 || byte == 0x93 || byte == 0x94
}

// Whether a spreadsheet or a hand puts a byte beside them.
fn is_padding(byte: u8) -> bool
    ensures { result ≡ is_padding byte }
{
    is_blank(byte) || byte == b',' || byte == b';' || byte == b'"'
}

// Whether it is one of either kind.
fn is_of_cut(byte: u8) -> bool
    ensures { result ≡ is_of_cut byte }
{
    is_dash(byte) || is_padding(byte)
}

// Whether all bytes are.
fn are_of_cut(line: &[u8]) -> bool
    ensures { result ≡ list_all is_of_cut line.now }
{
    for byte in line {
        if !is_of_cut(*byte) {
            return false;
        }
    }
    true
}

// How many bytes are those of hyphens and dashes.
fn count_dashes(line: &[u8]) -> usize
    ensures { result ≡ count_by is_dash line.now }
{
    let mut count = 0;
    for byte in line {
        if is_dash(*byte) {
            count += 1;
        }
    }
    count
}

// Whether a text line is nearly the one that cuts.
fn is_nearly_cut(line: &[u8]) -> bool
    ensures { result ≡ is_nearly_cut line.now }
{
    let text = without_mark(line);
    are_of_cut(text) && 1 < count_dashes(text)
}

// What is said of a text line that is.
fn near_cut(line: &[u8]) -> Option<(What, Option<Key>)>
    ensures { result ≡ near_cut line.now }
{
    if is_nearly_cut(line) {
        Some((What::NearCut, None))
    } else {
        None
    }
}

/// Puts the text lines of a text that are nearly the one that cuts after what was found.
#[tactic(auto, using(crate::proofs::NearCuts::near_step))]
pub(crate) fn push_near_cuts<'a>(tally: &mut Tally<'a>, text: &'a [u8]) -> Result<(), AllocError>
    requires { length text.now ≤ MOST_DECK_BYTES }
    ensures { OnOk result (tallied tally.new
        ≡ with_all (tallied tally.old) (near_cuts 1 (text_lines text.now))) }
{
    let mut n = 0;
    let mut left = Some(text);
    while let Some(lines) = left {
        let (line, later) = first_line(lines);
        n += 1;
        push_found(tally, n, line, near_cut(line))?;
        left = later;
    }
    Ok(())
}
