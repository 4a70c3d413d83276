// The lines of doubts.
ghost use Rattle.std.specs.Prelude.{◌≡◌, IfOk, string_bytes};
ghost use Rattle.xb_measured.specs.DoubtLines.{began_ms, count_text, doubt_lines, doubts_text, gap_reason, length_reason};

use crate::doubts::{Doubt, DoubtKind, Effect, doubts_of};
use crate::figures::start_ms;
use crate::keys::NamedKey;
use crate::seconds::seconds_text;
use std::alloc::{AllocError, Global};

impl Effect {
    ghost use Rattle.std.specs.Prelude.{◌≡◌};
    ghost use Rattle.xb_measured.specs.DoubtLines.{effect_text};

    // What may be wrong, in words.
    fn text(self) -> &'static str
        ensures { result.now ≡ effect_text self }
    {
        match self {
            Effect::Missing => "one may be missing",
            Effect::Extra => "one may be too many",
            Effect::Cut => "it may be cut",
        }
    }
}

// That so much time lies before a key, and not as much as is usual.
fn gap_reason(alloc: Global, key: usize, ms: u64, usual: u64) -> Result<String, AllocError>
    ensures { IfOk result (λ text. string_bytes text ≡ gap_reason key ms usual) }
{
    let before = key.saturating_sub(1);
    format!(in alloc; "{ms} ms between its keys {before} and {key}, where {usual} are usual")
}

// That a key lasts so long, and not as long as is usual.
fn length_reason(alloc: Global, key: usize, ms: u64, usual: u64) -> Result<String, AllocError>
    ensures { IfOk result (λ text. string_bytes text ≡ length_reason key ms usual) }
{
    format!(in alloc; "its key {key} lasts {ms} ms, where {usual} are usual")
}

// Of how many doubts it is the first.
fn count_text(alloc: Global, count: usize) -> Result<String, AllocError>
    ensures { IfOk result (λ text. string_bytes text ≡ count_text count) }
{
    if count <= 1 {
        return Ok(String::new(alloc));
    }
    format!(in alloc; "; the first of {count} doubts")
}

impl Doubt {
    ghost use Rattle.std.specs.Prelude.{◌≡◌, IfOk, string_bytes};
    ghost use Rattle.xb_measured.specs.DoubtLines.{doubt_line, reason_text};

    // What is doubtful, in words.
    fn reason(self, alloc: Global) -> Result<String, AllocError>
        ensures { IfOk result (λ text. string_bytes text ≡ reason_text self) }
    {
        match self.kind {
            DoubtKind::LongGap => gap_reason(alloc, self.key, self.ms, self.usual),
            DoubtKind::ShortGap => gap_reason(alloc, self.key, self.ms, self.usual),
            DoubtKind::LongKey => length_reason(alloc, self.key, self.ms, self.usual),
            DoubtKind::ShortKey => length_reason(alloc, self.key, self.ms, self.usual),
        }
    }

    // The line of it, the first of so many, of the entry of this number, which begins at so many ms.
    fn line(self, alloc: Global, entry: usize, at: u64, count: usize) -> Result<String, AllocError>
        ensures { IfOk result (λ text. string_bytes text ≡ doubt_line entry at count self) }
    {
        let place = seconds_text(alloc, at)?;
        let reason = self.reason(alloc)?;
        let effect = self.effect.text();
        let of = count_text(alloc, count)?;
        format!(in alloc; "mfrx: entry {entry} at {place} s: {reason}: {effect}{of}\n")
    }
}

// The line of doubts, where there are any.
fn doubt_lines(alloc: Global, entry: usize, at: u64, doubts: &[Doubt]) -> Result<String, AllocError>
    ensures { IfOk result (λ text. string_bytes text ≡ doubt_lines entry at doubts.now) }
{
    match doubts.first() {
        None => Ok(String::new(alloc)),
        Some(first) => first.line(alloc, entry, at, doubts.len()),
    }
}

/// When a keying begins, in ms; 0 where there is no key.
pub fn began_ms(keys: &[NamedKey]) -> u64
    ensures { result ≡ began_ms keys.now }
{
    match keys.first() {
        Some(key) => start_ms(key.heard()),
        None => 0,
    }
}

/// What is told of the doubts of a keying, the entry of this number: a line with the first one, and of how many it is
/// the first. `Err` says that memory ran out.
pub fn doubts_text(alloc: Global, entry: usize, keys: &[NamedKey]) -> Result<String, AllocError>
    ensures { IfOk result (λ text. string_bytes text ≡ doubts_text entry keys.now) }
{
    let doubts = doubts_of(alloc, keys)?;
    doubt_lines(alloc, entry, began_ms(keys), &doubts)
}
