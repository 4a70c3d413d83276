// Joining pages one after the other.
ghost use Rattle.std.specs.Prelude.{◌≡◌, ◌≤◌, ◌<◌, ◌+◌, ◌*◌, ◌^◌, IfOk, IfErr, OnErr, OnOk, string_bytes};
ghost use Rattle.xb_model.specs.declared.line.TheConstants.{LINES};
ghost use Rattle.xb_model.specs.Page.{totals_text};
ghost use Rattle.xb_parts.specs.Joining.{goes_on_from};

use crate::parts_fault::{PartsFault, fault_of_page};
use crate::range::LineRange;
use std::alloc::Global;
use xb_model::LINES;
use xb_page::read_page;
use xb_tape::write_totals;

/// The pages of parts, joined one after the other: what is known of those before the next. It takes no
/// memory but for the totals, so a caller that writes the entries of each page at once needs no more than
/// one page at a time.
#[derive(Clone, Copy)]
pub struct Joiner {
    /// How many parts there were.
    pub parts: usize,
    /// The first line that no part has had.
    pub line: u16,
    /// How many entries were keyed calls.
    pub keyed: u128,
    /// How many were refused ones.
    pub refused: u128,
    ghost in_office: { line ≤ LINES },
    ghost keyed_fits: { keyed ≤ parts * 2 ^ 64 },
    ghost refused_fits: { refused ≤ parts * 2 ^ 64 },
}

// Whether the lines of a part begin with this one, and are lines of the office.
fn goes_on_from(line: u16, lines: LineRange) -> bool
    ensures { result ≡ goes_on_from line lines }
{
    lines.first == line && line <= lines.end && lines.end <= LINES
}

impl Joiner {
    ghost use Rattle.xb_parts.specs.Joiners.{BlamesPage, IsMissing, TakesPage};

    /// Before the first part.
    pub fn new() -> Joiner
        ensures parts { result.parts ≡ 0 }
        ensures line { result.line ≡ 0 }
        ensures keyed { result.keyed ≡ 0 }
        ensures refused { result.refused ≡ 0 }
    {
        Joiner {
            parts: 0,
            line: 0,
            keyed: 0,
            refused: 0,
        }
    }

    /// The entries of the page of the next part, which has these lines; they follow those before. On an
    /// `Err`, which names the part and what is wrong with it, nothing has changed.
    pub fn take<'a>(&mut self, lines: LineRange, page: &'a [u8]) -> Result<&'a [u8], PartsFault>
        requires { self.old.parts + 1 < 2 ^ 64 }
        ensures goes_on { IfOk result (λ entries. TakesPage self.old lines page.now entries.now self.new) }
        ensures parts { IfOk result (λ entries. self.new.parts ≡ self.old.parts + 1) }
        ensures line { OnOk result (self.new.line ≡ lines.end) }
        ensures fault { IfErr result (BlamesPage self.old lines page.now) }
        ensures unchanged { OnErr result (self.new ≡ self.old) }
    {
        let parts = self.parts + 1;
        if !goes_on_from(self.line, lines) {
            return Err(PartsFault::Lines(parts));
        }
        let read = match read_page(page, self.line) {
            Ok(read) => read,
            Err(fault) => return Err(fault_of_page(parts, fault)),
        };
        if lines.end < read.next_line {
            return Err(PartsFault::PastEnd(parts));
        }
        *self = Joiner {
            parts,
            line: lines.end,
            keyed: self.keyed + read.keyed as u128,
            refused: self.refused + read.refused as u128,
        };
        Ok(read.entries)
    }

    /// The line of the totals, which follows the entries of all parts. `Err` names the first line that no
    /// part has had, or says that memory ran out.
    pub fn totals(&self, alloc: Global) -> Result<String, PartsFault>
        ensures text { IfOk result (λ text. string_bytes text ≡ totals_text self.now.keyed self.now.refused) }
        ensures all { OnOk result (self.now.line ≡ LINES) }
        ensures missing { IfErr result (IsMissing self.now) }
    {
        if self.line != LINES {
            return Err(PartsFault::Missing(self.line));
        }
        let mut text = String::new(alloc);
        write_totals(&mut text, self.keyed, self.refused)?;
        Ok(text)
    }
}
