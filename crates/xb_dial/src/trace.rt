// A trace that is written as it is drawn.
ghost use Rattle.std.specs.Prelude.{◌≡◌, ◌≢◌, ◌≤◌, ◌<◌, ◌-◌, ◌*◌, ◌^◌, Err, IfErr, OnOk, map};
ghost use Rattle.std.specs.Io.KnownBytes.{Appends, Keeps};
ghost use Rattle.xb_text.specs.Writing.{AppendsBeginning};
ghost use Rattle.xb_contact.specs.Holds.{total_of};
ghost use Rattle.xb_dial.specs.declared.contact_runs.TheConstants.{US_OF_MS};
ghost use Rattle.xb_dial.specs.Runs.{in_us, us_in};
ghost use Rattle.xb_dial.specs.Traces.{end_text, runs_text, trace_text};

use crate::bounced_run::write_run;
use crate::bouncing::{Bouncing, DRAWS};
use crate::contact_runs::{US_OF_MS, runs_in, us_in};
use crate::trace_fault::TraceFault;
use arrayvec::ArrayString;
use itoa::Buffer;
use std::alloc::Global;
use std::io::Write;
use xb_chance::state_after;
use xb_contact::Hold;
use xb_model::Row;
use xb_text::{WriteFault, write_whole};

// What stands before the changes.
const HEAD: &str = "$timescale 1 us $end\n$var wire 1 ! loop $end\n$enddefinitions $end\n";

// The most bytes of the last line: `#`, 20 digits and LF.
const MOST_END_BYTES: usize = 22;

// A run in us.
fn in_us(run: Hold) -> Hold
    requires { run.ticks * US_OF_MS < 2 ^ 64 }
    ensures { result ≡ in_us run }
{
    Hold {
        level: run.level,
        ticks: run.ticks * u64::from(US_OF_MS),
    }
}

// The last line: when the recording ends.
fn end_text(tick: u64) -> ArrayString<MOST_END_BYTES>
    ensures { result.bytes ≡ end_text tick }
{
    let mut digits = Buffer::new();
    let mut text = ArrayString::new();
    text.push_str("#");
    text.push_str(digits.format(tick));
    text.push_str("\n");
    text
}

// Writes runs in ms with their bounces, and the end.
fn write_runs<W: Write>(out: &mut W, bouncing: Bouncing, runs: &[Hold]) -> Result<(), WriteFault>
    requires { total_of (map in_us runs.now) < 2 ^ 64 }
    ensures whole { OnOk result (Appends (W.contents out.old) (W.contents out.new)
        (runs_text bouncing runs.now)) }
    ensures beginning { AppendsBeginning (W.contents out.old) (W.contents out.new)
        (runs_text bouncing runs.now) }
{
    let (mut tick, mut us, mut state) = (0u64, 0u32, bouncing.seed);
    for next in runs {
        let run = in_us(*next);
        write_run(out, tick, us, state, run)?;
        tick += run.ticks;
        us = bouncing.us;
        state = state_after(state, DRAWS);
    }
    write_whole(out, end_text(tick).as_bytes())
}

/// Writes the contact of a line that dials these rows as a value change dump, in ticks of 1 us: the wire `loop`, which
/// is open for a second, does what the rows say, and is open for a second more. It bounces at the beginning of each run
/// but the first. Whose line the rows are does not matter, and a row that ends a record has no ms, so it counts for
/// nothing. `TooLong` comes only where the recording would end at 2^64 - 1 us or later. All memory is taken before
/// anything is written: on `TooLong` and `NoMemory` nothing was, and on `Write` the beginning.
pub(crate) fn write_trace<W: Write>(
    alloc: Global,
    rows: &[Row],
    bouncing: Bouncing,
    out: &mut W,
) -> Result<(), TraceFault>
    ensures whole { OnOk result (Appends (W.contents out.old) (W.contents out.new)
        (trace_text bouncing rows.now)) }
    ensures beginning { AppendsBeginning (W.contents out.old) (W.contents out.new)
        (trace_text bouncing rows.now) }
    ensures too_long { result ≡ Err TraceFault.TooLong → 2 ^ 64 - 1 ≤ us_in rows.now }
    ensures untouched { IfErr result (λ f. f ≢ TraceFault.Write
        → Keeps (W.contents out.old) (W.contents out.new)) }
{
    if us_in(rows) == u64::MAX {
        return Err(TraceFault::TooLong);
    }
    let runs = runs_in(alloc, rows)?;
    write_whole(out, HEAD.as_bytes())?;
    write_runs(out, bouncing, &runs)?;
    Ok(())
}
