// What the fields of a text line write.
ghost use Rattle.std.specs.Prelude.{◌≡◌, ◌<◌, ◌^◌, IfSome, option_copied, bytes_eq, decimal};
ghost use Rattle.xb_page.specs.Places.{four_digits_of, is_refusal, space};
ghost use Rattle.xb_page.specs.ReadPages.{heard_of, hz_of, mark_of, named_tone, pair_of, reason_of, refusal_of_fields, tone_of, trunk_of};
ghost use Rattle.xb_text.specs.Pieces.{pieces_left};

use crate::pieces::two_pieces;
use itoa::Buffer;
use xb_model::{Key, Mark, Reason, Tone, Trunk, field_number, key_of};

// How many digits a line has, and a trunk group.
const DIGITS_OF_FOUR: usize = 4;

// The number that four digits write.
pub(crate) fn four_digits(field: &[u8]) -> Option<u16>
    ensures value { result ≡ four_digits_of field.now }
    ensures below { IfSome result (λ n. n < 10 ^ 4) }
{
    if field.len() != DIGITS_OF_FOUR {
        return None;
    }
    Some(field_number(DIGITS_OF_FOUR, field)? as u16)
}

// Whether a text is this number in decimal.
pub(crate) fn is_decimal(text: &[u8], number: usize) -> bool
    ensures { result ≡ bytes_eq text.now (decimal number) }
{
    let mut buffer = Buffer::new();
    text == buffer.format(number).as_bytes()
}

// Whether a field says that an entry is refused, or that it is keyed.
pub(crate) fn is_refusal(field: &[u8]) -> Option<bool>
    ensures { result ≡ is_refusal field.now }
{
    if field == b"KEYED".as_slice() {
        Some(false)
    } else if field == b"REFUSED".as_slice() {
        Some(true)
    } else {
        None
    }
}

// The frequency that a text writes.
fn hz_of(text: &[u8]) -> Option<u16>
    ensures { result ≡ hz_of text.now }
{
    Some(field_number(4, text)? as u16)
}

// The pair that a text writes, as `1100+1700`.
fn pair_of(text: &[u8]) -> Option<Tone>
    ensures { result ≡ pair_of text.now }
{
    let (low, high) = two_pieces(b'+', text)?;
    let low = hz_of(low)?;
    let high = hz_of(high)?;
    Some(Tone { low, high })
}

// The mark of a key, if this is its name.
fn named_tone(name: &[u8], tones: Tone, key: &Key) -> Option<Mark>
    ensures { result ≡ named_tone name.now tones key.now }
{
    if name == key.name().as_bytes() {
        Some(Mark::Tone(*key, tones))
    } else {
        None
    }
}

// The mark of the key that sounds by these tones.
fn tone_of(name: &[u8], tones: Tone) -> Option<Mark>
    ensures { result ≡ tone_of name.now tones }
{
    named_tone(name, tones, &key_of(tones)?)
}

// The mark of the trunk group that four digits write.
fn trunk_of(field: &[u8]) -> Option<Mark>
    ensures { result ≡ trunk_of field.now }
{
    Some(Mark::Trunk(Trunk::new(four_digits(field)?)?))
}

// The mark that a field writes, as `0017` or `KP:1100+1700`.
pub(crate) fn mark_of(field: &[u8]) -> Option<Mark>
    ensures { result ≡ mark_of field.now }
{
    match two_pieces(b':', field) {
        Some((name, pair)) => tone_of(name, pair_of(pair)?),
        None => trunk_of(field),
    }
}

// The reason that a text names.
fn reason_of(text: &[u8]) -> Option<Reason>
    ensures { result ≡ reason_of text.now }
{
    if text == b"MUTILATED".as_slice() {
        Some(Reason::Mutilated)
    } else if text == b"UNKNOWN".as_slice() {
        Some(Reason::Unknown)
    } else if text == b"ABANDONED".as_slice() {
        Some(Reason::Abandoned)
    } else if text == b"TIMEDOUT".as_slice() {
        Some(Reason::TimedOut)
    } else {
        None
    }
}

// The count of a refusal that a text writes.
fn heard_of(text: &[u8]) -> Option<u8>
    ensures { result ≡ heard_of text.now }
{
    let heard = field_number(3, text)?;
    if heard < 256 { Some(heard as u8) } else { None }
}

// The refusal that is left of a text line: a reason and a count.
pub(crate) fn refusal_of(left: Option<&[u8]>) -> Option<Mark>
    ensures { result ≡ refusal_of_fields (pieces_left space (option_copied left.entry)) }
{
    let (reason, heard) = two_pieces(b' ', left?)?;
    Some(Mark::Refused(reason_of(reason)?, heard_of(heard)?))
}
