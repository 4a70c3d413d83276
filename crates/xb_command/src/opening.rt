// A file that is opened by its name, and why it is not.
ghost use Rattle.std.specs.Prelude.{◌≡◌, None, Some, IfErr, IfOk, IfSome, take};
ghost use Rattle.std.specs.Fmt.{WritesOnOk};
ghost use Rattle.xb_command.specs.FaultTexts.{one_line, sign_text};
ghost use Rattle.xb_command.specs.Files.{IsNoText, IsUnreadable, OpensText, ReadsBytes, is_utf16, is_wav, no_text};

use crate::system::Files;
use std::alloc::Global;
use std::{fmt, io};
use thiserror::Error;

/// What a file is that is no text.
#[derive(Clone, Copy, Debug, PartialEq, Eq, Error)]
pub enum NoText {
    /// Text in UTF-16, by its byte order mark.
    Utf16,
    /// Sound, by the beginning of a WAV file.
    Sound,
}

impl fmt::Display for NoText {
    ghost use Rattle.xb_command.specs.FaultTexts.{no_text_text};

    ghost output = { λ what. Some (no_text_text what) };

    fn fmt<W: fmt::Write>(&self, f: &mut fmt::Formatter<W>) -> fmt::Result {
        match self {
            NoText::Utf16 => f.write_str(
                "it is UTF-16, and UTF-8 is taken: iconv -f UTF-16 -t UTF-8 makes that of it",
            ),
            NoText::Sound => f.write_str("it is a sound, which mfrx and mfloop take"),
        }
    }
}

/// Why a file is not read: its name, in one line, and the reason.
#[derive(Debug, Drop, Error)]
pub enum OpenFault<'a> {
    /// The reason of the system.
    System(&'a str, io::Error),
    /// It is no text.
    NoText(&'a str, NoText),
}

impl<'a> fmt::Display for OpenFault<'a> {
    ghost use Rattle.xb_command.specs.FaultTexts.{open_text};

    ghost output = { open_text };

    fn fmt<W: fmt::Write>(&self, f: &mut fmt::Formatter<W>) -> fmt::Result {
        match self {
            OpenFault::System(name, error) => write!(f, "{}: {error}", InOneLine(name)),
            OpenFault::NoText(name, what) => write!(f, "{}: {what}", InOneLine(name)),
        }
    }
}

/// The name of a file in one line: a control character of it is told as `?`.
#[derive(Clone, Copy)]
pub struct InOneLine<'a>(pub &'a str);

// Writes a character: a control character, as an LF or an escape, as `?`.
fn write_sign<W: fmt::Write>(f: &mut fmt::Formatter<W>, sign: char) -> fmt::Result
    ensures { WritesOnOk W.write_str_gives f.old result (sign_text sign) f.new }
{
    f.write_char(if sign.is_control() { '?' } else { sign })
}

// Writes a name in one line.
fn write_one_line<W: fmt::Write>(f: &mut fmt::Formatter<W>, name: &str) -> fmt::Result
    ensures { WritesOnOk W.write_str_gives f.old result (one_line name.now) f.new }
{
    for sign in name.chars() {
        write_sign(f, sign)?;
    }
    Ok(())
}

impl<'a> fmt::Display for InOneLine<'a> {
    ghost output = { λ name. Some (one_line name.0.now) };

    fn fmt<W: fmt::Write>(&self, f: &mut fmt::Formatter<W>) -> fmt::Result {
        write_one_line(f, self.0)
    }
}

// Whether a text is in UTF-16, by its byte order mark.
fn is_utf16(first: &[u8]) -> bool
    ensures { result ≡ is_utf16 first.now }
{
    first.starts_with(&[0xff, 0xfe]) || first.starts_with(&[0xfe, 0xff])
}

// Whether a text is sound, by the beginning of a WAV file.
fn is_wav(first: &[u8]) -> bool
    ensures { result ≡ is_wav first.now }
{
    first.len() >= 8 && first.starts_with(b"RIFF") && first[8..].starts_with(b"WAVE")
}

/// What a text with these first bytes is, if it is no text in UTF-8.
pub fn no_text(first: &[u8]) -> Option<NoText>
    ensures { result ≡ no_text first.now }
{
    if is_utf16(first) {
        Some(NoText::Utf16)
    } else if is_wav(first) {
        Some(NoText::Sound)
    } else {
        None
    }
}

/// A reader of a file that is any bytes, from its beginning.
pub fn open_file<'a, F: Files>(
    alloc: Global,
    files: &F,
    name: &'a str,
) -> Result<F::Reader, OpenFault<'a>>
    ensures opened { IfOk result (λ r. ReadsBytes (F.bytes files.now) name.entry.now (F.Reader.remaining r)) }
    ensures refused { IfErr result (IsUnreadable name.entry.now) }
{
    match files.open(alloc, name) {
        Ok(reader) => Ok(reader),
        Err(error) => Err(OpenFault::System(name, error)),
    }
}

/// A reader of a file that is text, from its beginning. What its first bytes show to be none is refused.
pub fn open_text<'a, F: Files>(
    alloc: Global,
    files: &F,
    name: &'a str,
) -> Result<F::Reader, OpenFault<'a>>
    ensures text { IfOk result (λ r. OpensText (F.bytes files.now) name.entry.now (F.Reader.remaining r)) }
    ensures refused { IfErr result (IsNoText (F.bytes files.now) name.entry.now) }
{
    match files.beginning(alloc, name) {
        Ok(first) => match no_text(&first) {
            Some(what) => Err(OpenFault::NoText(name, what)),
            None => open_file(alloc, files, name),
        },
        Err(error) => Err(OpenFault::System(name, error)),
    }
}
