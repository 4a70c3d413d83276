// Text lines that end at CR LF.
ghost use Rattle.std.specs.Prelude.{◌≡◌, ◌≤◌, length};
ghost use Rattle.xb_page.specs.LineEnds.{begins_with_crlf, lf_ended};

// Whether a text begins with CR LF.
fn begins_with_crlf(text: &[u8]) -> bool
    ensures { result ≡ begins_with_crlf text.now }
{
    matches!(text, [b'\r', b'\n', ..])
}

/// Makes each text line of a page that ends at CR LF end at LF alone. A page whose lines end at LF stays as it
/// is.
pub fn end_lines_at_lf(page: &mut Vec<u8>)
    ensures lines { page.new.items ≡ lf_ended page.old.items }
    ensures length { length page.new.items ≤ length page.old.items }
{
    let mut kept = 0;
    for at in 0..page.len() {
        if !begins_with_crlf(&page[at..]) {
            page[kept] = page[at];
            kept += 1;
        }
    }
    page.truncate(kept);
}
