// Whether entries come in the order of their times.
ghost use Rattle.std.specs.Prelude.{◌≡◌};
ghost use Rattle.xb_tone.specs.Times.{early_line, first_at};

use crate::entry::PlacedEntry;

/// The text line of the first entry whose time is before that of the one before it; `None` where there is none.
pub fn early_line(entries: &[PlacedEntry]) -> Option<u64>
    ensures { result ≡ early_line entries.now }
{
    let mut at_ms = 0u64;
    for entry in entries {
        if entry.at_ms < at_ms {
            return Some(entry.text_line);
        }
        at_ms = entry.at_ms;
    }
    None
}

// The time of the first entry; 0 where there is none.
pub(crate) fn first_at(entries: &[PlacedEntry]) -> u64
    ensures { result ≡ first_at entries.now }
{
    match entries.first() {
        Some(entry) => entry.at_ms,
        None => 0,
    }
}
