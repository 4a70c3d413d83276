// The JSON object of a key.
ghost use Rattle.std.specs.Prelude.{◌≡◌, ◌-ℤ◌, IfOk, pos};
ghost use Rattle.serde_json.specs.View.{view};
ghost use Rattle.xb_json.specs.Objects.{data_of};
ghost use Rattle.xb_measured.specs.Objects.{gap_data, object_of, object_with, skew_data};

use crate::figures::Figures;
use crate::heard::Onsets;
use crate::levels::ZERO_DBM0;
use crate::verdicts::verdict_text;
use serde_json::Value;
use std::alloc::{AllocError, Global};
use xb_json::{Member, object_of as object_of_members};

// The time before a key, null where no key came before.
fn gap_of<'a>(gap: Option<u64>) -> Member<'a>
    ensures { data_of result ≡ gap_data gap }
{
    match gap {
        None => Member::Null,
        Some(ms) => Member::Number(ms),
    }
}

// How much later the higher tone began, null where that is not known.
fn skew_of<'a>(onsets: Option<Onsets>) -> Member<'a>
    ensures { data_of result ≡ skew_data onsets }
{
    match onsets {
        None => Member::Null,
        Some(onsets) => Member::Signed(difference(onsets.low, onsets.high)),
    }
}

// What tenths are over others.
fn difference(over: u32, under: u32) -> i64
    ensures { result ≡ pos over -ℤ pos under }
{
    i64::from(over) - i64::from(under)
}

// The object of a key of which this is said.
fn object_with(alloc: Global, figures: &Figures, verdict: &str) -> Result<Value, AllocError>
    ensures { IfOk result (λ value. view value ≡ object_with figures.now verdict.now) }
{
    let low = difference(figures.low, ZERO_DBM0);
    let high = difference(figures.high, ZERO_DBM0);
    let twist = difference(figures.high, figures.low);
    let members = [
        ("at_ms", Member::Number(figures.start_ms)),
        ("gap_ms", gap_of(figures.gap_ms)),
        ("high_dbm0_tenths", Member::Signed(high)),
        ("high_hz", Member::Number(u64::from(figures.high_hz))),
        ("hole_ms", Member::Number(figures.hole_ms)),
        ("key", Member::Word(figures.meaning.name())),
        ("length_ms", Member::Number(figures.length_ms)),
        ("low_dbm0_tenths", Member::Signed(low)),
        ("low_hz", Member::Number(u64::from(figures.low_hz))),
        ("skew_ms_tenths", skew_of(figures.onsets)),
        ("twist_db_tenths", Member::Signed(twist)),
        ("verdict", Member::Text(verdict)),
    ];
    object_of_members(alloc, &members)
}

/// The object of a key. `Err` says that memory ran out.
pub fn object_of(alloc: Global, figures: &Figures) -> Result<Value, AllocError>
    ensures { IfOk result (λ value. view value ≡ object_of figures.now) }
{
    let verdict = verdict_text(alloc, figures)?;
    object_with(alloc, figures, &verdict)
}
