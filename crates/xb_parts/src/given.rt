// Which lines each page is given.
ghost use Rattle.std.specs.Prelude.{◌≡◌, IfOk, map, option_copied};
ghost use Rattle.xb_parts.specs.Joining.{given_of};
ghost use Rattle.xb_parts.specs.Given.{given_by, given_by_list, given_from};

use crate::pages::{PartPage, lines_taken};
use crate::range::LineRange;
use std::alloc::{AllocError, Global};
use xb_model::LINES;

// The ranges of a list, and a page for each, as far as there are pages.
fn given_by_list<'a>(
    alloc: Global,
    ranges: &[LineRange],
    pages: &'a [Vec<u8>],
) -> Result<Vec<PartPage<'a>>, AllocError>
    ensures { IfOk result (λ parts. map given_of parts.items
        ≡ given_by_list ranges.now (map (λ page. page.items) pages.entry.now)) }
{
    let mut parts = Vec::new(alloc);
    let mut left = ranges;
    for page in pages {
        match left.split_first() {
            Some((lines, later)) => {
                parts.push(PartPage {
                    lines: *lines,
                    page,
                })?;
                left = later;
            }
            None => return Ok(parts),
        }
    }
    Ok(parts)
}

// Each page with the lines from those before it up to that of its last entry, and the last page with all that
// are left.
fn given_from_first<'a>(
    alloc: Global,
    pages: &'a [Vec<u8>],
) -> Result<Vec<PartPage<'a>>, AllocError>
    ensures { IfOk result (λ parts. map given_of parts.items
        ≡ given_from 0 (map (λ page. page.items) pages.entry.now)) }
{
    let mut parts = Vec::new(alloc);
    let mut first = 0;
    let mut left = pages;
    while let Some((page, later)) = left.split_first() {
        let lines = if later.is_empty() {
            LineRange { first, end: LINES }
        } else {
            lines_taken(first, page)
        };
        parts.push(PartPage { lines, page })?;
        first = lines.end;
        left = later;
    }
    Ok(parts)
}

/// What pages are given: the ranges of a list, if there is one.
pub(crate) fn given_by<'a>(
    alloc: Global,
    ranges: Option<&[LineRange]>,
    pages: &'a [Vec<u8>],
) -> Result<Vec<PartPage<'a>>, AllocError>
    ensures { IfOk result (λ parts. map given_of parts.items
        ≡ given_by (option_copied ranges.entry) (map (λ page. page.items) pages.entry.now)) }
{
    match ranges {
        Some(ranges) => given_by_list(alloc, ranges, pages),
        None => given_from_first(alloc, pages),
    }
}
