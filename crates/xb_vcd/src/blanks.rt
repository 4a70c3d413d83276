// The words of a text, which blanks part.
ghost use Rattle.std.specs.Prelude.{◌≡◌, ◌∷◌, [], None, IfSome};
ghost use Rattle.xb_vcd.specs.VcdTexts.{is_blank, words_of};

/// Whether words are parted by a byte.
pub(crate) fn is_blank(byte: u8) -> bool
    ensures { result ≡ is_blank byte }
{
    byte == b' ' || (byte >= b'\t' && byte <= b'\r')
}

/// The first word of a text, and what follows it; `None` where it has none.
pub fn next_word(text: &[u8]) -> Option<(&[u8], &[u8])>
    ensures some { IfSome result (λ cut. words_of text.now ≡ cut.0.now ∷ words_of cut.1.now) }
    ensures none { result ≡ None → words_of text.now ≡ [] }
{
    let mut start = 0;
    for end in 0..text.len() {
        if is_blank(text[end]) {
            if start < end {
                return Some((&text[start..end], &text[end + 1..]));
            }
            start = end + 1;
        }
    }
    if start < text.len() {
        Some((&text[start..], b"".as_slice()))
    } else {
        None
    }
}
