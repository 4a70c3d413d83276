// A run that is written with its bounces.
ghost use Rattle.std.specs.Prelude.{◌≡◌, ◌+◌, ◌<◌, ◌^◌, ◌++◌, OnOk};
ghost use Rattle.std.specs.Io.KnownBytes.{Appends};
ghost use Rattle.xb_text.specs.Writing.{AppendsBeginning};
ghost use Rattle.xb_contact.specs.Holds.{other_level};
ghost use Rattle.xb_dial.specs.Traces.{change_text, run_text};

use crate::bouncing::{MOST_BOUNCES, count_of, part_at};
use crate::level_change::write_change;
use std::io::Write;
use xb_contact::{Hold, Level};
use xb_text::WriteFault;

// The other level.
fn other_level(level: Level) -> Level
    ensures { result ≡ other_level level }
{
    match level {
        Level::Open => Level::Closed,
        Level::Closed => Level::Open,
    }
}

// Writes a bounce: the level, and that it is left so many us later.
fn write_bounce<W: Write>(
    out: &mut W,
    tick: u64,
    level: Level,
    holds: u32,
) -> Result<(), WriteFault>
    requires { tick + holds < 2 ^ 64 }
    ensures whole { OnOk result (Appends (W.contents out.old) (W.contents out.new)
        (change_text tick level ++ change_text (tick + holds) (other_level level))) }
    ensures beginning { AppendsBeginning (W.contents out.old) (W.contents out.new)
        (change_text tick level ++ change_text (tick + holds) (other_level level)) }
{
    write_change(out, tick, level)?;
    write_change(out, tick + u64::from(holds), other_level(level))
}

// Writes the changes of a run that begins at this tick.
pub(crate) fn write_run<W: Write>(
    out: &mut W,
    tick: u64,
    us: u32,
    state: u64,
    run: Hold,
) -> Result<(), WriteFault>
    requires { tick + run.ticks < 2 ^ 64 }
    ensures whole { OnOk result (Appends (W.contents out.old) (W.contents out.new)
        (run_text tick us state run)) }
    ensures beginning { AppendsBeginning (W.contents out.old) (W.contents out.new)
        (run_text tick us state run) }
{
    let most = us / (2 * MOST_BOUNCES);
    let mut now = tick;
    for j in 0..count_of(us, state, run.ticks) {
        let holds = part_at(most, state, 2 * j + 2);
        let leaves = part_at(most, state, 2 * j + 3);
        write_bounce(out, now, run.level, holds)?;
        now += u64::from(holds) + u64::from(leaves);
    }
    write_change(out, now, run.level)
}
