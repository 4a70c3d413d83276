// Words as XML and HTML want them.
ghost use Rattle.std.specs.Prelude.{◌≡◌, ◌++◌, OnOk, string_bytes};
ghost use Rattle.xb_svg.specs.Escaped.{escaped, sign_text};

use std::alloc::AllocError;

// Puts a character after the text.
fn push_sign(out: &mut String, sign: char) -> Result<(), AllocError>
    ensures { OnOk result (string_bytes out.new ≡ string_bytes out.old ++ sign_text sign) }
{
    match sign {
        '&' => out.push_str("&amp;"),
        '<' => out.push_str("&lt;"),
        '>' => out.push_str("&gt;"),
        '"' => out.push_str("&quot;"),
        '×' => out.push_str("&#215;"),
        '…' => out.push_str("&#8230;"),
        _ => out.push(sign),
    }
}

/// Puts words after the text, escaped: for an element's content, and for an attribute in double quotes.
pub fn push_escaped(out: &mut String, words: &str) -> Result<(), AllocError>
    ensures { OnOk result (string_bytes out.new ≡ string_bytes out.old ++ escaped words.now) }
{
    for sign in words.chars() {
        push_sign(out, sign)?;
    }
    Ok(())
}
