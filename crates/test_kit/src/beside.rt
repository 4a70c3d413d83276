// What came beside what was wanted, for the text of a failure.
use std::fmt;

// The most bytes that are shown of a text: a failure has room for 512.
const SHOWN: usize = 80;

// How many bytes are shown before the first one that differs.
const BEFORE: usize = 30;

/// What came beside what was wanted: that both are the same, or both from a little before the first byte that
/// differs.
#[derive(Clone, Copy)]
pub struct Beside<'a> {
    /// What came.
    pub came: &'a [u8],
    /// What was wanted.
    pub wanted: &'a [u8],
}

/// At most 80 bytes of a text, from this place on.
pub fn shown(text: &[u8], from: usize) -> &[u8] {
    let rest = text.get(from..).unwrap_or(&[]);
    rest.get(..SHOWN).unwrap_or(rest)
}

// How many bytes both begin with.
fn in_common(came: &[u8], wanted: &[u8]) -> usize {
    for (place, (one, other)) in came.iter().zip(wanted).enumerate() {
        if one != other {
            return place;
        }
    }
    came.len().min(wanted.len())
}

impl<'a> fmt::Display for Beside<'a> {
    fn fmt<W: fmt::Write>(&self, f: &mut fmt::Formatter<W>) -> fmt::Result {
        let Beside { came, wanted } = *self;
        if came == wanted {
            return f.write_str("as wanted");
        }
        let from = in_common(came, wanted).saturating_sub(BEFORE);
        let came = shown(came, from).escape_ascii();
        let wanted = shown(wanted, from).escape_ascii();
        write!(f, "\"{came}\" from byte {from} on, wanted \"{wanted}\"")
    }
}
