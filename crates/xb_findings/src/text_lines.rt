// The text lines of a text, as editors show them.
ghost use Rattle.std.specs.Prelude.{◌≡◌, ◌∷◌, option_copied, position};
ghost use Rattle.xb_findings.specs.TextLines.{after_end, ends_line, lines_left, text_lines, without_lf};

/// Whether a byte ends a text line.
pub(crate) fn ends_line(byte: u8) -> bool
    ensures { result ≡ ends_line byte }
{
    byte == b'\n' || byte == b'\r'
}

// How many bytes stand before the first that ends a text line.
fn line_length(text: &[u8]) -> Option<usize>
    ensures { result ≡ position ends_line text.now }
{
    text.iter().position(|byte| ends_line(*byte))
}

// A text without the LF that it may begin with.
fn without_lf(text: &[u8]) -> &[u8]
    ensures { result.now ≡ without_lf text.now }
{
    match text {
        [b'\n', rest @ ..] => rest,
        _ => text,
    }
}

// What follows the end of a text line, of which this is the first byte.
fn after_end(byte: u8, text: &[u8]) -> &[u8]
    ensures { result.now ≡ after_end byte text.now }
{
    if byte == b'\r' {
        without_lf(text)
    } else {
        text
    }
}

/// The first text line of a text, and the text of the later ones, if there are any.
pub fn first_line(text: &[u8]) -> (&[u8], Option<&[u8]>)
    ensures { text_lines text.now ≡ result.0.now ∷ lines_left (option_copied result.1) }
{
    match line_length(text) {
        Some(n) => (&text[..n], Some(after_end(text[n], &text[n + 1..]))),
        None => (text, None),
    }
}
