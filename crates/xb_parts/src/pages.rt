// The page that the pages of parts make together.
ghost use Rattle.std.specs.Prelude.{◌≡◌, ◌≤◌, Ok, IfOk, IfErr, map};
ghost use Rattle.xb_model.specs.declared.line.TheConstants.{LINES};
ghost use Rattle.xb_parts.specs.Joining.{BlamesNoPart, IsFaultOf, MakesTheWhole, given_of, join_of, lines_taken};

use crate::joiner::Joiner;
use crate::parts_fault::PartsFault;
use crate::range::LineRange;
use std::alloc::Global;
use xb_model::LINES;
use xb_page::read_page;

/// The page of a part.
#[derive(Clone, Copy)]
pub struct PartPage<'a> {
    /// The lines of the part.
    pub lines: LineRange,
    /// Its page.
    pub page: &'a [u8],
}

/// The lines that a page takes where no list says it: from this one up to that of its last entry, or all that
/// are left where it is damaged.
pub fn lines_taken(first: u16, page: &[u8]) -> LineRange
    requires { first ≤ LINES }
    ensures lines { result ≡ lines_taken first page.now }
    ensures within { result.end ≤ LINES }
{
    let end = match read_page(page, first) {
        Ok(read) => read.next_line,
        Err(_) => LINES,
    };
    LineRange { first, end }
}

// The entries of pages, part by part, and a line with the sums of their totals.
fn join(alloc: Global, parts: &[PartPage<'_>]) -> Result<Vec<u8>, PartsFault>
    ensures page { IfOk result (λ page. join_of (map given_of parts.now) ≡ Ok page.items) }
    ensures fault { IfErr result (IsFaultOf (join_of (map given_of parts.now))) }
{
    let mut joiner = Joiner::new();
    let mut joined = Vec::new(alloc);
    for part in parts {
        joined.extend_from_slice(joiner.take(part.lines, part.page)?)?;
    }
    joined.extend_from_slice(joiner.totals(alloc)?.as_bytes())?;
    Ok(joined)
}

/// The page of all parts: the entries of their pages, part by part, and a line with the sums of their
/// totals. `Err` names the first part that is damaged or out of its place, or the first line that no part
/// has, or says that memory ran out.
///
/// Where the pages are those of parts of a deck, whose rows were split by ranges of lines, it is the page
/// of the whole deck.
pub fn join_pages(alloc: Global, parts: &[PartPage<'_>]) -> Result<Vec<u8>, PartsFault>
    ensures page { IfOk result (λ page. join_of (map given_of parts.now) ≡ Ok page.items) }
    ensures fault { IfErr result (IsFaultOf (join_of (map given_of parts.now))) }
    ensures whole { IfOk result (λ page. MakesTheWhole (map given_of parts.now) page.items) }
    ensures unharmed { IfErr result (BlamesNoPart (map given_of parts.now)) }
{
    join(alloc, parts)
}
