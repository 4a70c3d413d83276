// The text of a change.
ghost use Rattle.std.specs.Prelude.{◌≡◌, ◌++◌, OnOk, codes};
ghost use Rattle.std.specs.Io.KnownBytes.{Appends};
ghost use Rattle.xb_text.specs.Writing.{AppendsBeginning};
ghost use Rattle.xb_vcd.specs.WrittenVcd.{level_text, wire_code};
ghost use Rattle.xb_dial.specs.Traces.{change_text};

use arrayvec::ArrayString;
use itoa::Buffer;
use std::io::Write;
use xb_contact::Level;
use xb_text::{WriteFault, write_whole};

// The most bytes of a change: a tick of 20 digits, a level and the code of the wire, `#`, and two LF.
const MOST_CHANGE_BYTES: usize = 25;

// The end of the line of a tick, and the line of a level.
fn level_after(level: Level) -> &'static str
    ensures { result.now ≡ codes "\n" ++ (level_text level ++ wire_code 0) ++ codes "\n" }
{
    match level {
        Level::Open => "\n0!\n",
        Level::Closed => "\n1!\n",
    }
}

// The lines of a change.
fn change_text(tick: u64, level: Level) -> ArrayString<MOST_CHANGE_BYTES>
    ensures { result.bytes ≡ change_text tick level }
{
    let mut digits = Buffer::new();
    let mut text = ArrayString::new();
    text.push_str("#");
    text.push_str(digits.format(tick));
    text.push_str(level_after(level));
    text
}

// Writes a change.
pub(crate) fn write_change<W: Write>(out: &mut W, tick: u64, level: Level) -> Result<(), WriteFault>
    ensures whole { OnOk result (Appends (W.contents out.old) (W.contents out.new) (change_text tick level)) }
    ensures beginning { AppendsBeginning (W.contents out.old) (W.contents out.new) (change_text tick level) }
{
    write_whole(out, change_text(tick, level).as_bytes())
}
