// The two parts of a deck, and what stands in them.
ghost use Rattle.std.specs.Prelude.{◌≡◌, ◌≤◌, ◌+◌, Err, IfErr, IfOk, IfSome, OnOk, Some, length, option_map};
ghost use Rattle.std.specs.Io.KnownBytes.{IsAtEnd};
ghost use Rattle.std.specs.List.{position};
ghost use Rattle.xb_deck.specs.Contents.{IsDeckFault, IsReadFault, IsRowsFault, contents_of, contents_of_parts, with_rows};
ghost use Rattle.xb_deck.specs.Deck.{deck_parts, ends_line, is_cut, parts_of_deck};
ghost use Rattle.xb_rows.specs.RowResults.{AreRowsOf};
ghost use Rattle.xb_rows.specs.RowTexts.{fault_of_text, rows_of_text};
ghost use Rattle.xb_text.specs.Reading.{TakesUpTo};

use crate::fault::DeckFault;
use std::alloc::Global;
use std::io::Read;
use xb_model::Row;
use xb_routes::RouteTable;
use xb_rows::rows_of_text;
use xb_text::read_whole;

/// The most bytes that a deck has.
pub const MOST_DECK_BYTES: usize = 16_777_216;

/// The parts of a deck, as bytes.
#[derive(Clone, Copy)]
pub struct Deck<'a> {
    /// The route table, TOML.
    pub table: &'a [u8],
    /// The loop rows, CSV.
    pub rows: &'a [u8],
}

/// Whether a line, without its LF, is the cut: `---`, and one CR may follow.
pub fn is_cut(line: &[u8]) -> bool
    ensures { result ≡ is_cut line.now }
{
    line == b"---".as_slice() || line == b"---\r".as_slice()
}

// How many bytes stand before the first LF; `None` where there is no LF.
fn line_length(text: &[u8]) -> Option<usize>
    ensures { result ≡ position ends_line text.now }
{
    text.iter().position(|byte| *byte == b'\n')
}

impl<'a> Deck<'a> {
    /// Cuts a deck at its first line that is exactly `---`: the route table stands before that
    /// line, the rows after its LF. A line ends at LF or at the end of the deck, and one CR
    /// before that end is dropped. `None` where there is no such line.
    pub fn cut(bytes: &'a [u8]) -> Option<Deck<'a>>
        ensures { option_map parts_of_deck result ≡ deck_parts bytes.now }
    {
        let mut start = 0;
        while let Some(length) = line_length(&bytes[start..]) {
            let end = start + length;
            if is_cut(&bytes[start..end]) {
                return Some(Deck {
                    table: &bytes[..start],
                    rows: &bytes[end + 1..],
                });
            }
            start = end + 1;
        }
        if is_cut(&bytes[start..]) {
            Some(Deck {
                table: &bytes[..start],
                rows: &bytes[bytes.len()..],
            })
        } else {
            None
        }
    }

    /// The parts of a deck of at most 16,777,216 bytes: `NoCut` where it is not cut.
    pub fn open(bytes: &'a [u8]) -> Result<Deck<'a>, DeckFault>
        requires { length bytes.now ≤ MOST_DECK_BYTES }
        ensures parts { IfOk result (λ deck.
            contents_of bytes.now ≡ contents_of_parts (Some (parts_of_deck deck))) }
        ensures fault { IfErr result (λ fault. contents_of bytes.now ≡ Err fault) }
    {
        Deck::cut(bytes).ok_or(DeckFault::NoCut)
    }

    /// The route table: `Routes` where it is refused, and `NoMemory` where memory ran out.
    pub fn route_table(&self, alloc: Global) -> Result<RouteTable, DeckFault>
        ensures table { let deck = self.now in IfOk result (λ table.
            contents_of_parts (Some (parts_of_deck deck))
            ≡ with_rows table (rows_of_text deck.rows.now) (fault_of_text deck.rows.now)) }
        ensures fault { IfErr result (IsDeckFault (contents_of_parts (Some (parts_of_deck self.now)))) }
    {
        Ok(RouteTable::read(alloc, self.table)?)
    }

    /// The loop rows, all at once: `Rows` with their first fault, and `NoMemory` where memory ran out.
    pub fn loop_rows(&self, alloc: Global) -> Result<Vec<Row>, DeckFault>
        ensures rows { IfOk result (λ rows. AreRowsOf self.now.rows.now rows.items) }
        ensures fault { IfErr result (λ f. IsRowsFault self.now.rows.now f) }
    {
        Ok(rows_of_text(alloc, self.rows)?)
    }
}

/// The bytes of a deck, read of a stream to its end: `TooLong` where there are more than 16,777,216, of
/// which one more at most is taken; `Read` where a read failed, and `NoMemory` where memory ran out.
///
/// What the contract says of bytes holds for readers whose bytes contracts know (byte slices); those of a
/// process's standard input are not known.
pub fn read_deck<R: Read>(alloc: Global, reader: &mut R) -> Result<Vec<u8>, DeckFault>
    ensures whole { IfSome (R.remaining reader.old) (λ bytes. IfOk result (λ v. v.items ≡ bytes)) }
    ensures end { OnOk result (IsAtEnd (R.remaining reader.new)) }
    ensures taken { TakesUpTo (MOST_DECK_BYTES + 1) (R.remaining reader.old) (R.remaining reader.new) }
    ensures within { IfOk result (λ v. length v.items ≤ MOST_DECK_BYTES) }
    ensures fault { IfErr result (IsReadFault (R.remaining reader.old)) }
{
    Ok(read_whole(alloc, reader, MOST_DECK_BYTES)?)
}
