// Text lines of a deck of which more may be said once the whole deck is known.
use std::alloc::{AllocError, Global};
use std::marker::Model;
use xb_model::{LineNo, PerLine};

/// What a text line is.
#[derive(Clone, Copy)]
pub enum LineKind {
    /// The header of the rows, or what stands in its place.
    Header,
    /// The first record of the line of the office that has this number.
    First(u16),
}

/// A text line, with its number from 1.
#[derive(Clone, Copy)]
pub struct KeptLine<'a> {
    /// The number.
    pub n: usize,
    /// The bytes.
    pub text: &'a [u8],
    /// What it is.
    pub kind: LineKind,
}

/// Which lines of the office have a record.
#[derive(Drop)]
pub(crate) struct Seen {
    lines: PerLine<bool>,
}

impl Model for Seen {
    ghost use Rattle.std.specs.Prelude.{Bool, List};

    ghost Value = { List Bool };

    ghost view = { λ seen. seen.lines };
}

impl Seen {
    ghost use Rattle.std.specs.Prelude.{◌≡◌, IfOk};
    ghost use Rattle.xb_findings.specs.Kept.{none_seen, seen_of, seen_with};

    /// None has. `Err` where memory ran out.
    pub(crate) fn new(alloc: Global) -> Result<Seen, AllocError>
        ensures { IfOk result (λ seen. seen_of seen ≡ none_seen) }
    {
        let lines = PerLine::from_fn(alloc, || false)?;
        Ok(Seen { lines })
    }

    /// Whether a line has.
    pub(crate) fn has(&self, line: LineNo) -> bool
        ensures { result ≡ seen_of self.now line }
    {
        *self.lines.get(line)
    }

    /// A line has a record.
    pub(crate) fn put(&mut self, line: LineNo)
        ensures { seen_of self.new ≡ seen_with line (seen_of self.old) }
    {
        *self.lines.get_mut(line) = true;
    }
}
