// Numbers on lines, which small stages send.
ghost use Rattle.std.specs.Prelude.{◌==◌};

use std::process::Abort;
use xb_model::{LineNo, OnLine};
use xb_ring::Ending;

// A number on a line; 0 ends a piece.
#[derive(Clone, Copy, Debug, PartialEq, Eq, Default)]
pub(crate) struct Numbered {
    pub(crate) line: LineNo,
    pub(crate) what: u8,
}

impl OnLine for Numbered {
    ghost line_of = { λ item. item.line };

    fn line(&self) -> LineNo {
        self.line
    }
}

impl Ending for Numbered {
    ghost ending = { λ item. item.what == 0 };

    fn ends(&self) -> bool {
        self.what == 0
    }
}

// A number on a line.
pub(crate) fn on(rt: &impl Abort, line: u16, what: u8) -> Numbered {
    let line = LineNo::new(line).expect(rt, "a line");
    Numbered { line, what }
}
