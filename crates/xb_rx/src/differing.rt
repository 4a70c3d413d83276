// The differences of what was keyed and what was heard.
ghost use Rattle.std.specs.Prelude.{◌≡◌, ◌≤◌, ◌∷◌, ◌++◌, IfOk, List, OnOk, drop, length, string_bytes};
ghost use Rattle.xb_rx.specs.Entries.{KeyedEntry};
ghost use Rattle.xb_rx.specs.Differences.{differences, extra_line, missed_line, missed_lines, place_of, place_text};

use crate::keyed::Keyed;
use std::alloc::{AllocError, Global};
use xb_measured::seconds_text;

// The first place where these keys were keyed.
fn place_of(keyed: &[Keyed], keys: &str) -> Option<usize>
    ensures { result ≡ place_of keyed.now keys.now }
{
    keyed.iter().position(|entry| entry.keys() == keys)
}

// Appends the line of an entry that was keyed and not heard.
fn write_missed(out: &mut String, entry: &Keyed) -> Result<(), AllocError>
    ensures { OnOk result (string_bytes out.new ≡ string_bytes out.old ++ missed_line entry.now) }
{
    let line = entry.line().get();
    let number = entry.number();
    let keys = entry.keys();
    write!(
        out,
        "keyed and not heard: line {line} entry {number}:{keys}\n"
    )
}

// Appends the lines of such entries.
pub(crate) fn write_all_missed(out: &mut String, keyed: &[Keyed]) -> Result<(), AllocError>
    ensures { OnOk result (string_bytes out.new ≡ string_bytes out.old ++ missed_lines keyed.now) }
{
    for entry in keyed {
        write_missed(out, entry)?;
    }
    Ok(())
}

// When an entry was heard, in seconds.
fn place_text(alloc: Global, at: Option<u64>) -> Result<String, AllocError>
    ensures { IfOk result (λ text. string_bytes text ≡ place_text at) }
{
    match at {
        None => Ok(String::new(alloc)),
        Some(ms) => {
            let seconds = seconds_text(alloc, ms)?;
            format!(in alloc; " at {seconds} s")
        }
    }
}

// Appends the line of an entry that was heard and not keyed.
fn write_extra(alloc: Global, out: &mut String, entry: &Keyed) -> Result<(), AllocError>
    ensures { OnOk result (string_bytes out.new ≡ string_bytes out.old ++ extra_line entry.now) }
{
    let number = entry.number();
    let place = place_text(alloc, entry.at())?;
    let keys = entry.keys();
    write!(out, "heard and not keyed: entry {number}{place}:{keys}\n")
}

// Appends the lines of what was keyed before an entry that was heard, or its own where it was not keyed, and returns
// how many keyed entries are then passed.
pub(crate) fn write_up_to(
    alloc: Global,
    out: &mut String,
    keyed: &[Keyed],
    entry: &Keyed,
) -> Result<usize, AllocError>
    ensures most { IfOk result (λ n. n ≤ length keyed.now) }
    ensures text { IfOk result (λ n. (heard : List KeyedEntry) →
        string_bytes out.new ++ differences (drop n keyed.now) heard
        ≡ string_bytes out.old ++ differences keyed.now (entry.now ∷ heard)) }
{
    match place_of(keyed, entry.keys()) {
        Some(place) => {
            write_all_missed(out, &keyed[..place])?;
            Ok(place + 1)
        }
        None => {
            write_extra(alloc, out, entry)?;
            Ok(0)
        }
    }
}

/// A line for each entry that was keyed and not heard, or heard and not keyed, in order: of these also when it was
/// heard, where it says so. `Err` says that memory ran out.
pub fn differences(alloc: Global, keyed: &[Keyed], heard: &[Keyed]) -> Result<String, AllocError>
    ensures { IfOk result (λ text. string_bytes text ≡ differences keyed.now heard.now) }
{
    let mut text = String::new(alloc);
    let mut left = keyed;
    for entry in heard {
        let passed = write_up_to(alloc, &mut text, left, entry)?;
        left = left.split_at(passed).1;
    }
    write_all_missed(&mut text, left)?;
    Ok(text)
}
