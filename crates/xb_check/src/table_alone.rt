// Whether a text that no line cuts is a route table.
ghost use Rattle.std.specs.Prelude.{◌≡◌, IfOk};
ghost use Rattle.std.specs.List.{list_any};
ghost use Rattle.xb_check.specs.Alone.{is_bare_key, is_of_deck, is_of_table, is_table};
ghost use Rattle.xb_keys.specs.Table.{squeezed};
ghost use Rattle.xb_findings.specs.TextLines.{text_lines};
ghost use Rattle.xb_text.specs.Pieces.{cut_at};

use std::alloc::{AllocError, Global};
use xb_findings::first_line;
use xb_keys::{is_bare, is_heading, squeezed};
use xb_text::cut_at;

// Whether a text line is one that no table has.
fn is_of_deck(line: &[u8]) -> bool
    ensures { result ≡ is_of_deck line.now }
{
    line.starts_with(b"---") || line.starts_with(b"line,state,ms")
}

// Whether a bare key stands before the first `=`.
fn is_bare_key(line: &[u8]) -> bool
    ensures { result ≡ is_bare_key (cut_at 61 line.now) }
{
    match cut_at(b'=', line) {
        Some((key, _)) => is_bare(key),
        None => false,
    }
}

// Whether a text line is one of a table, given without its blanks.
fn is_of_table(line: &[u8]) -> bool
    ensures { result ≡ is_of_table line.now }
{
    is_heading(line) || is_bare_key(line)
}

// Whether a text has a text line that no table has.
fn has_line_of_deck(text: &[u8]) -> bool
    ensures { result ≡ list_any is_of_deck (text_lines text.now) }
{
    let mut left = Some(text);
    while let Some(lines) = left {
        let (line, later) = first_line(lines);
        if is_of_deck(line) {
            return true;
        }
        left = later;
    }
    false
}

// Whether a text has a text line of a table.
fn has_line_of_table(alloc: Global, text: &[u8]) -> Result<bool, AllocError>
    ensures { IfOk result (λ has. has
        ≡ list_any (λ line. is_of_table (squeezed line)) (text_lines text.now)) }
{
    let mut left = Some(text);
    while let Some(lines) = left {
        let (line, later) = first_line(lines);
        if is_of_table(&squeezed(alloc, line)?) {
            return Ok(true);
        }
        left = later;
    }
    Ok(false)
}

/// Whether a text that no line cuts is a route table: it has a text line of one, and none of a deck.
pub(crate) fn is_table(alloc: Global, text: &[u8]) -> Result<bool, AllocError>
    ensures { IfOk result (λ is. is ≡ is_table text.now) }
{
    if has_line_of_deck(text) {
        return Ok(false);
    }
    has_line_of_table(alloc, text)
}
