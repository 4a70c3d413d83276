// The pieces of a text between bytes.
ghost use Rattle.std.specs.Prelude.{◌≡◌, drop, option_copied, option_map};
ghost use Rattle.xb_page.specs.Places.{field_at, space};
ghost use Rattle.xb_page.specs.ReadPages.{four_of, two_of};
ghost use Rattle.xb_text.specs.Pieces.{pieces, pieces_left};

use xb_text::first_piece;

// The next field of a text line, empty where there is none, and what is left after it.
pub(crate) fn next_field(left: Option<&[u8]>) -> (&[u8], Option<&[u8]>)
    ensures field { result.0.now ≡ field_at (pieces_left space (option_copied left.entry)) 0 }
    ensures rest { pieces_left space (option_copied result.1)
        ≡ drop 1 (pieces_left space (option_copied left.entry)) }
{
    match left {
        Some(text) => first_piece(b' ', text),
        None => (&[], None),
    }
}

// The pieces of a text that has two.
pub(crate) fn two_pieces(byte: u8, text: &[u8]) -> Option<(&[u8], &[u8])>
    ensures { option_map (λ parts. (parts.0.now, parts.1.now)) result ≡ two_of (pieces byte text.now) }
{
    let (first, later) = first_piece(byte, text);
    let (second, more) = first_piece(byte, later?);
    match more {
        None => Some((first, second)),
        Some(_) => None,
    }
}

// The four fields of a text line that has four.
pub(crate) fn four_pieces(text: &[u8]) -> Option<(&[u8], &[u8], &[u8], &[u8])>
    ensures { option_map (λ f. (f.0.now, f.1.now, f.2.now, f.3.now)) result
        ≡ four_of (pieces space text.now) }
{
    let (first, later) = first_piece(b' ', text);
    let (second, later) = first_piece(b' ', later?);
    let (third, fourth) = two_pieces(b' ', later?)?;
    Some((first, second, third, fourth))
}
