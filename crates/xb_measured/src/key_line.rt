// The line of a key.
ghost use Rattle.std.specs.Prelude.{◌≡◌, IfOk, string_bytes};
ghost use Rattle.xb_measured.specs.Lines.{gap_text, shape_text, skew_text, text_line};

use crate::figures::Figures;
use crate::heard::Onsets;
use crate::levels::{ZERO_DBM0, tenths_text};
use crate::verdicts::verdict_text;
use std::alloc::{AllocError, Global};

// When the key began, by the last one.
fn gap_text(alloc: Global, gap: Option<u64>) -> Result<String, AllocError>
    ensures { IfOk result (λ text. string_bytes text ≡ gap_text gap) }
{
    match gap {
        None => String::from_str(alloc, "first"),
        Some(ms) => format!(in alloc; "after {ms} ms"),
    }
}

// How much later the higher tone began.
fn skew_text(alloc: Global, onsets: Option<Onsets>) -> Result<String, AllocError>
    ensures { IfOk result (λ text. string_bytes text ≡ skew_text onsets) }
{
    match onsets {
        None => String::from_str(alloc, "unknown"),
        Some(onsets) => {
            let tenths = tenths_text(alloc, onsets.low, onsets.high)?;
            format!(in alloc; "{tenths} ms")
        }
    }
}

// That, and how long its holes are.
fn shape_text(alloc: Global, figures: &Figures) -> Result<String, AllocError>
    ensures { IfOk result (λ text. string_bytes text ≡ shape_text figures.now) }
{
    let skew = skew_text(alloc, figures.onsets)?;
    let hole = figures.hole_ms;
    format!(in alloc; "skew {skew}, hole {hole} ms")
}

/// The line of a key. `Err` says that memory ran out.
pub fn text_line(alloc: Global, figures: &Figures) -> Result<String, AllocError>
    ensures { IfOk result (λ line. string_bytes line ≡ text_line figures.now) }
{
    let name = figures.meaning.name();
    let low = tenths_text(alloc, figures.low, ZERO_DBM0)?;
    let high = tenths_text(alloc, figures.high, ZERO_DBM0)?;
    let twist = tenths_text(alloc, figures.high, figures.low)?;
    let shape = shape_text(alloc, figures)?;
    let gap = gap_text(alloc, figures.gap_ms)?;
    let verdict = verdict_text(alloc, figures)?;
    let low_hz = figures.low_hz;
    let high_hz = figures.high_hz;
    let start = figures.start_ms;
    let length = figures.length_ms;
    format!(in alloc;
        "{name} at {start} ms for {length} ms, {low_hz} Hz {low} dBm0, {high_hz} Hz {high} dBm0, twist {twist} dB, {shape}, {gap}: {verdict}\n"
    )
}
