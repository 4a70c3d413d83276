// What the words before the rows say: the unit of a time column, and the rate of the samples.
ghost use Rattle.std.specs.Prelude.{◌≡◌};
ghost use Rattle.xb_contact.specs.Times.{scale_by};
ghost use Rattle.xb_csv.specs.Tables.{hertz_in_part, hertz_in_parts, hertz_of, is_comment, is_remark, is_seconds, label_refused, rate_by, rate_in, rate_of, scale_of_units, units_of_label};

use crate::cells::{after, trimmed};
use crate::seconds::{fraction_of, point_parts};
use xb_contact::{Refusal, Scale, level_of, number_of};
use xb_text::cut_at;

// So many ms are so many ticks.
fn scale_by(ms: u64, ticks: u64) -> Scale
    ensures { result ≡ scale_by ms ticks }
{
    Scale { ms, ticks }
}

// The unit of a time column by its label: how many are a second.
pub(crate) fn units_of_label(label: &[u8]) -> Option<u64>
    ensures { result ≡ units_of_label label.now }
{
    if label == b"seconds".as_slice() {
        Some(1)
    } else if label == b"milliseconds".as_slice() {
        Some(1_000)
    } else if label == b"microseconds".as_slice() {
        Some(1_000_000)
    } else if label == b"nanoseconds".as_slice() {
        Some(1_000_000_000)
    } else if label == b"picoseconds".as_slice() {
        Some(1_000_000_000_000)
    } else {
        None
    }
}

// How long a unit is, of which so many are a second.
pub(crate) fn scale_of_units(units: u64) -> Scale
    ensures { result ≡ scale_of_units units }
{
    if units < 1_000 {
        scale_by(1_000, units)
    } else {
        scale_by(1, units / 1_000)
    }
}

// Why a header is refused whose first cell is this, which is no unit; `None` where it may be the name of a wire.
pub(crate) fn refusal_of_label(label: &[u8]) -> Option<Refusal>
    ensures { result ≡ label_refused label.now }
{
    if label == b"samples".as_slice() || label == b"Time".as_slice() {
        Some(Refusal::NoUnit)
    } else if level_of(label).is_some() {
        Some(Refusal::Header)
    } else {
        None
    }
}

// How many Hz a unit has.
fn hertz_of(unit: &[u8]) -> Option<u64>
    ensures { result ≡ hertz_of unit.now }
{
    match unit {
        b"Hz" => Some(1),
        b"kHz" => Some(1_000),
        b"MHz" => Some(1_000_000),
        b"GHz" => Some(1_000_000_000),
        _ => None,
    }
}

// So many billionths of a unit of so many Hz, if they are whole Hz.
fn hertz_in_part(hertz: u64, billionths: u64) -> Option<u64>
    ensures { result ≡ hertz_in_part hertz billionths }
{
    let product = billionths.checked_mul(hertz)?;
    if product % 1_000_000_000 == 0 {
        Some(product / 1_000_000_000)
    } else {
        None
    }
}

// What stands before the point of a number, and after it, in units of so many Hz.
fn hertz_in_parts(hertz: u64, whole: &[u8], fraction: &[u8]) -> Option<u64>
    ensures { result ≡ hertz_in_parts hertz (whole.now, fraction.now) }
{
    let whole = number_of(whole)?.checked_mul(hertz)?;
    let part = hertz_in_part(hertz, fraction_of(fraction)?)?;
    whole.checked_add(part)
}

// A rate of so many units.
fn rate_by(number: &[u8], unit: &[u8]) -> Option<u64>
    ensures { result ≡ rate_by number.now unit.now }
{
    let hertz = hertz_of(unit)?;
    let (whole, fraction) = point_parts(number);
    hertz_in_parts(hertz, whole, fraction)
}

// A rate as `12.5 kHz` or `12500`.
#[tactic(auto, unfolding(crate::specs::Tables::rate_of))]
fn rate_of(text: &[u8]) -> Option<u64>
    ensures { result ≡ rate_of text.now }
{
    let text = trimmed(text);
    match cut_at(b' ', text) {
        Some((number, unit)) => rate_by(number, trimmed(unit)),
        None => rate_by(text, b"Hz"),
    }
}

// The rate that a comment says.
pub(crate) fn rate_in(line: &[u8]) -> Option<u64>
    ensures { result ≡ rate_in line.now }
{
    if let Some(text) = after(line, b"; Samplerate:") {
        return rate_of(text);
    }
    match after(line, b"META samplerate:") {
        Some(text) => rate_of(text),
        None => None,
    }
}

// A line of sigrok beside the header and the rows.
pub(crate) fn is_comment(line: &[u8]) -> bool
    ensures { result ≡ is_comment line.now }
{
    line.starts_with(b";") || line.starts_with(b"META ")
}

/// Whether a time column has this label and is in seconds: that of Saleae Logic 2 or 1, of DSView or of WaveForms, with
/// which their header begins.
pub fn is_seconds(label: &[u8]) -> bool
    ensures { result ≡ is_seconds label.now }
{
    label == b"Time [s]".as_slice()
        || label == b"Time[s]".as_slice()
        || label == b"Time(s)".as_slice()
        || label == b"Time (s)".as_slice()
}

// A remark before a header, as of DSView and WaveForms.
pub(crate) fn is_remark(line: &[u8]) -> bool
    ensures { result ≡ is_remark line.now }
{
    line.starts_with(b";") || line.starts_with(b"#")
}
