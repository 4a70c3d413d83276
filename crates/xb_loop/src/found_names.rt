// The names of the wires in the beginning of a recording.
ghost use Rattle.std.specs.Prelude.{◌≡◌, ◌+◌, ◌∷◌, ◌≤◌, [], IfOk, OnOk, Some, is_some, option_copied, option_map, ◌||◌};
ghost use Rattle.xb_riff.specs.Heads.{head_of};
ghost use Rattle.xb_text.specs.Pieces.{pieces, pieces_left};
ghost use Rattle.xb_vcd.specs.VcdTexts.{words_of};
ghost use Rattle.xb_loop.specs.Names.{all_added, named_by, named_in};
ghost use Rattle.xb_loop.specs.Wires.{cell_names, channel_cells, channels_of, column_names, declared_name, declared_names, format_in, header_cells, line_names, names_if, names_told, numbers_from, text_names};

use crate::names::WireNames;
use std::alloc::{AllocError, Global};
use xb_csv::{is_seconds, trimmed, wire_of_edge};
use xb_recording::{Format, without_mark};
use xb_riff::{HeadFault, WavFormat, WavHead};
use xb_text::{cut_at, first_piece};
use xb_vcd::next_word;

// Of how many columns of a table the numbers are taken.
const MOST_COLUMNS: usize = 33;

// The name of the wire that the words after `$var` declare, if that has one bit.
fn declared_name(words: &[u8]) -> Option<&[u8]>
    ensures { option_copied result ≡ declared_name (words_of words.now) }
{
    let (_, rest) = next_word(words)?;
    let (size, rest) = next_word(rest)?;
    let (_, rest) = next_word(rest)?;
    let (name, _) = next_word(rest)?;
    if size == b"1".as_slice() {
        Some(name)
    } else {
        None
    }
}

// The cells of the names in a comment of sigrok.
fn channel_cells(line: &[u8]) -> Option<&[u8]>
    ensures { option_copied result ≡ channel_cells line.now }
{
    if !line.starts_with(b"; Channels (") {
        return None;
    }
    let (_, names) = cut_at(b':', line)?;
    Some(names)
}

// The cells of the names in a header of Saleae, which begins with the label of its time.
fn header_cells(line: &[u8]) -> Option<&[u8]>
    ensures { pieces_left 44 (option_copied result) ≡ header_cells (pieces 44 line.now) }
{
    let (label, names) = first_piece(b',', line);
    if is_seconds(trimmed(label)) {
        names
    } else {
        None
    }
}

// How a WAV file is, or why it has no samples.
fn format_in(beginning: &[u8]) -> Result<WavFormat, HeadFault>
    ensures { result ≡ format_in (head_of beginning.now) }
{
    let mut head = WavHead::new();
    match head.take(beginning)? {
        Some((format, _)) => Ok(format),
        None => Err(head.fault_at_end()),
    }
}

// How many channels a WAV file has.
fn channels_of(beginning: &[u8]) -> u8
    ensures { result ≡ channels_of beginning.now }
{
    match format_in(beginning) {
        Ok(format) => format.channels,
        Err(_) => 0,
    }
}

// Whether a line has ended that stands before this: the last one has where the recording does.
fn has_ended(later: Option<&[u8]>, is_end: bool) -> bool
    ensures { result ≡ (is_some (option_copied later.entry) || is_end) }
{
    later.is_some() || is_end
}

// What is found, and where the names are kept.
#[derive(Drop)]
struct Finder {
    alloc: Global,
    found: WireNames,
}

impl Finder {
    // The name, if there is one.
    fn add_if(&mut self, name: Option<&[u8]>) -> Result<(), AllocError>
        ensures { OnOk result (named_in self.new.found
            ≡ all_added (named_in self.old.found) (names_if (option_copied name.entry))) }
    {
        match name {
            Some(name) => self.found.add_bytes(self.alloc, name),
            None => Ok(()),
        }
    }

    // The names that the words of a line of a VCD declare.
    fn add_declared(&mut self, line: &[u8]) -> Result<(), AllocError>
        ensures { OnOk result (named_in self.new.found
            ≡ all_added (named_in self.old.found) (declared_names (words_of line.now))) }
    {
        let mut left = line;
        while let Some((word, rest)) = next_word(left) {
            if word == b"$var".as_slice() {
                self.add_if(declared_name(rest))?;
            }
            left = rest;
        }
        Ok(())
    }

    // The cells of a text, without the blanks around them.
    fn add_cells(&mut self, cells: Option<&[u8]>) -> Result<(), AllocError>
        ensures { OnOk result (named_in self.new.found
            ≡ all_added (named_in self.old.found)
            (cell_names (pieces_left 44 (option_copied cells.entry)))) }
    {
        let mut left = cells;
        while let Some(text) = left {
            let (cell, later) = first_piece(b',', text);
            self.found.add_bytes(self.alloc, trimmed(cell))?;
            left = later;
        }
        Ok(())
    }

    // So many numbers, from this one on.
    fn add_numbers(&mut self, first: u16, count: u16) -> Result<(), AllocError>
        requires { first + count ≤ 65535 }
        ensures { OnOk result (named_in self.new.found
            ≡ all_added (named_in self.old.found) (numbers_from first count)) }
    {
        for number in first..first + count {
            self.found.add(format!(in self.alloc; "{number}")?)?;
        }
        Ok(())
    }

    // The numbers of the columns after the first one of a row.
    fn add_columns(&mut self, line: &[u8]) -> Result<(), AllocError>
        ensures { OnOk result (named_in self.new.found
            ≡ all_added (named_in self.old.found) (column_names line.now)) }
    {
        let commas = line.iter().filter(|byte| **byte == b',').count();
        self.add_numbers(1, commas.min(MOST_COLUMNS) as u16)
    }

    // The names in a line of a text of this form.
    fn add_line(&mut self, format: Format, line: &[u8]) -> Result<(), AllocError>
        ensures { OnOk result (named_in self.new.found
            ≡ all_added (named_in self.old.found) (line_names format line.now)) }
    {
        match format {
            Format::Vcd => self.add_declared(line),
            Format::Gpiomon => self.add_if(wire_of_edge(line)),
            Format::Sigrok => self.add_cells(channel_cells(line)),
            Format::Saleae => self.add_cells(header_cells(line)),
            Format::Edges => self.add_columns(line),
            Format::Bits | Format::WideBits | Format::Sixteen | Format::Wav => Ok(()),
        }
    }

    // Those in its lines; the last one has ended where the recording does.
    fn add_lines(&mut self, format: Format, text: &[u8], is_end: bool) -> Result<(), AllocError>
        ensures { OnOk result (named_in self.new.found
            ≡ all_added (named_in self.old.found) (text_names format is_end text.now)) }
    {
        let mut left = Some(text);
        while let Some(text) = left {
            let (line, later) = first_piece(b'\n', text);
            if has_ended(later, is_end) {
                self.add_line(format, line)?;
            }
            left = later;
        }
        Ok(())
    }

    // Those in a beginning.
    fn add_all(&mut self, format: Format, beginning: &[u8], is_end: bool) -> Result<(), AllocError>
        ensures { OnOk result (named_in self.new.found
            ≡ all_added (named_in self.old.found) (names_told format is_end beginning.now)) }
    {
        match format {
            Format::Bits => self.add_numbers(0, 8),
            Format::WideBits => self.add_numbers(0, 16),
            Format::Sixteen => self.add_numbers(1, 1),
            Format::Wav => self.add_numbers(1, u16::from(channels_of(beginning))),
            Format::Vcd | Format::Gpiomon | Format::Sigrok | Format::Saleae | Format::Edges => {
                self.add_lines(format, without_mark(beginning, true), is_end)
            }
        }
    }
}

/// The names of the wires of a recording of this form, as its beginning tells them: of a text its lines, but for
/// one that has not ended, where the recording does not end there; of a WAV its head. Raw samples have the numbers
/// of their form, and a table without a header those of its columns, up to 33.
pub fn wires_named(
    alloc: Global,
    format: Format,
    beginning: &[u8],
    is_end: bool,
) -> Result<WireNames, AllocError>
    ensures { IfOk result (λ found.
        named_in found ≡ named_by (names_told format is_end beginning.now)) }
{
    let mut finder = Finder {
        alloc,
        found: WireNames::new(alloc),
    };
    finder.add_all(format, beginning, is_end)?;
    Ok(finder.found)
}
