// The text line of totals.
ghost use Rattle.std.specs.Prelude.{◌≡◌};
ghost use Rattle.xb_page.specs.Places.{space};
ghost use Rattle.xb_page.specs.ReadPages.{is_totals, says_totals};
ghost use Rattle.xb_text.specs.Pieces.{pieces};

use crate::fields::is_decimal;
use crate::page_place::PagePlace;
use crate::pieces::{four_pieces, next_field};

// Whether a text line is one of totals.
pub(crate) fn is_totals(text: &[u8]) -> bool
    ensures { result ≡ is_totals (pieces space text.now) }
{
    let (first, _) = next_field(Some(text));
    first == b"KEYED".as_slice()
}

// Whether a text line is the totals at a place.
pub(crate) fn says_totals(place: &PagePlace, text: &[u8]) -> bool
    ensures { result ≡ says_totals place.now (pieces space text.now) }
{
    match four_pieces(text) {
        Some((keyed, k, refused, r)) => {
            keyed == b"KEYED".as_slice()
                && is_decimal(k, place.keyed)
                && refused == b"REFUSED".as_slice()
                && is_decimal(r, place.refused)
        }
        None => false,
    }
}
