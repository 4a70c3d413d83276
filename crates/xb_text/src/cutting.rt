// A text that is cut at a byte.
ghost use Rattle.std.specs.Prelude.{◌≡◌, ◌∷◌, ◌==◌, position, option_map, option_copied};
ghost use Rattle.xb_text.specs.Pieces.{cut_at, pieces, pieces_left};

// The place of the first such byte.
fn place_of(byte: u8, text: &[u8]) -> Option<usize>
    ensures { result ≡ position (λ b. b == byte) text.now }
{
    text.iter().position(|b| *b == byte)
}

/// What stands before the first such byte, and after it; `None` where there is none.
pub fn cut_at(byte: u8, text: &[u8]) -> Option<(&[u8], &[u8])>
    ensures { option_map (λ parts. (parts.0.now, parts.1.now)) result ≡ cut_at byte text.now }
{
    let n = place_of(byte, text)?;
    Some((&text[..n], &text[n + 1..]))
}

/// The first piece of a text between such bytes, and the text of the later ones, if there are any.
pub fn first_piece(byte: u8, text: &[u8]) -> (&[u8], Option<&[u8]>)
    ensures { pieces byte text.now ≡ result.0.now ∷ pieces_left byte (option_copied result.1) }
{
    match cut_at(byte, text) {
        Some((piece, later)) => (piece, Some(later)),
        None => (text, None),
    }
}
