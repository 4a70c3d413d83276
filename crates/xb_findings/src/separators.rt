// What stands between the fields of a text line: a comma, or what a spreadsheet writes in its place.
ghost use Rattle.std.specs.Prelude.{◌≡◌, ◌||◌, IfOk};
ghost use Rattle.xb_findings.specs.Records.{record_of_line};
ghost use Rattle.xb_findings.specs.Separators.{comma_for, first_of, is_header_line, is_other, is_whole, lacks_fields, or_what, record_in, separator_of, separator_of_header, what_of_line, what_of_separator, with_commas};

use crate::finding::What;
use crate::records::{Record, record_of_line, wrong_header};
use std::alloc::{AllocError, Global};

/// What stands between the fields of a text line.
#[derive(Clone, Copy)]
pub(crate) enum Separator {
    Comma,
    Semicolon,
    Tab,
}

/// A text line after the header, read by what stands between its fields.
#[derive(Clone, Copy)]
pub(crate) struct SeparatedRecord {
    pub(crate) separator: Separator,
    /// What it is, read so.
    pub(crate) said: Record,
}

// What is said of fields that are separated so.
fn what_of_separator(separator: Separator) -> Option<What>
    ensures { result ≡ what_of_separator separator }
{
    match separator {
        Separator::Comma => None,
        Separator::Semicolon => Some(What::Semicolons),
        Separator::Tab => Some(What::Tabs),
    }
}

/// Whether they are separated by something else than commas.
pub(crate) fn is_other(separator: Separator) -> bool
    ensures { result ≡ is_other separator }
{
    match separator {
        Separator::Comma => false,
        Separator::Semicolon | Separator::Tab => true,
    }
}

// The first that is wrong of two.
fn or_what(first: Option<What>, other: Option<What>) -> Option<What>
    ensures { result ≡ or_what first other }
{
    match first {
        Some(what) => Some(what),
        None => other,
    }
}

/// What is said of a text line of which this is wrong: what stands between its fields comes first, unless it was told
/// of an earlier one.
pub(crate) fn what_of_line(told: bool, separator: Separator, wrong: Option<What>) -> Option<What>
    ensures { result ≡ what_of_line told separator wrong }
{
    if told {
        wrong
    } else {
        or_what(what_of_separator(separator), wrong)
    }
}

/// Whether it was told by what the fields are separated, after a text line that has this between them.
pub(crate) fn is_told(told: bool, separator: Separator) -> bool
    ensures { result ≡ (told || is_other separator) }
{
    told || is_other(separator)
}

// A byte, or the comma in whose place it stands.
fn comma_for(separator: u8, byte: u8) -> u8
    ensures { result ≡ comma_for separator byte }
{
    if byte == separator { b',' } else { byte }
}

// A text line with a comma in place of each such byte.
fn with_commas(alloc: Global, separator: u8, line: &[u8]) -> Result<Vec<u8>, AllocError>
    ensures { IfOk result (λ text. text.items ≡ with_commas separator line.now) }
{
    let mut text = Vec::new(alloc);
    for byte in line {
        text.push(comma_for(separator, *byte))?;
    }
    Ok(text)
}

// The first of commas, semicolons and tabs by which a text line can be read, and else commas.
fn first_of(commas: bool, semicolons: bool, tabs: bool) -> Separator
    ensures { result ≡ first_of commas semicolons tabs }
{
    if commas {
        Separator::Comma
    } else if semicolons {
        Separator::Semicolon
    } else if tabs {
        Separator::Tab
    } else {
        Separator::Comma
    }
}

// Whether it is by its fields that a record is none.
fn lacks_fields(what: What) -> bool
    ensures { result ≡ lacks_fields what }
{
    matches!(what, What::Fields)
}

// Whether a record has three fields, or nothing is written.
fn is_whole(read: &Record) -> bool
    ensures { result ≡ is_whole read.now }
{
    match read {
        Record::Wrong(what) => !lacks_fields(*what),
        Record::Row(_) | Record::Empty => true,
    }
}

// A text line after the header, read by another byte than the comma.
fn record_by(alloc: Global, separator: u8, line: &[u8]) -> Result<Record, AllocError>
    ensures { IfOk result (λ read. read ≡ record_of_line (with_commas separator line.now)) }
{
    let text = with_commas(alloc, separator, line)?;
    Ok(record_of_line(&text))
}

/// A text line after the header, read as a record by what stands between its fields.
pub(crate) fn separated_record(alloc: Global, line: &[u8]) -> Result<SeparatedRecord, AllocError>
    ensures separator { IfOk result (λ read. read.separator ≡ separator_of line.now) }
    ensures said { IfOk result (λ read. read.said ≡ record_in line.now) }
{
    let commas = record_of_line(line);
    if is_whole(&commas) {
        return Ok(SeparatedRecord {
            separator: Separator::Comma,
            said: commas,
        });
    }
    let semicolons = record_by(alloc, b';', line)?;
    if is_whole(&semicolons) {
        return Ok(SeparatedRecord {
            separator: Separator::Semicolon,
            said: semicolons,
        });
    }
    let tabs = record_by(alloc, b'\t', line)?;
    if is_whole(&tabs) {
        return Ok(SeparatedRecord {
            separator: Separator::Tab,
            said: tabs,
        });
    }
    Ok(SeparatedRecord {
        separator: Separator::Comma,
        said: commas,
    })
}

// Whether a text line is the header.
fn is_header_line(alloc: Global, line: &[u8]) -> Result<bool, AllocError>
    ensures { IfOk result (λ is. is ≡ is_header_line line.now) }
{
    match wrong_header(alloc, line)? {
        Some(_) => Ok(false),
        None => Ok(true),
    }
}

// Whether it is with commas in place of a byte.
fn is_header_by(alloc: Global, separator: u8, line: &[u8]) -> Result<bool, AllocError>
    ensures { IfOk result (λ is. is ≡ is_header_line (with_commas separator line.now)) }
{
    let text = with_commas(alloc, separator, line)?;
    is_header_line(alloc, &text)
}

/// What stands between the fields of the header.
#[tactic(auto, unfolding(crate::specs::Separators::separator_of_header))]
pub(crate) fn separator_of_header(alloc: Global, line: &[u8]) -> Result<Separator, AllocError>
    ensures { IfOk result (λ separator. separator ≡ separator_of_header line.now) }
{
    let commas = is_header_line(alloc, line)?;
    let semicolons = is_header_by(alloc, b';', line)?;
    let tabs = is_header_by(alloc, b'\t', line)?;
    Ok(first_of(commas, semicolons, tabs))
}
