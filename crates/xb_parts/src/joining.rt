// From the files of pages to the page of the whole.
ghost use Rattle.std.specs.Prelude.{◌≡◌, ◌≤◌, IfErr, IfOk, IfSome, Ok, OnOk, length, map, option_copied, option_map};
ghost use Rattle.xb_parts.specs.Files.{HasPage, HavePages};
ghost use Rattle.xb_parts.specs.Given.{given_by};
ghost use Rattle.xb_parts.specs.JoinedFiles.{Delivers, HasPartForEach, IsFaultOfFiles, IsFaultOfList, IsFaultOfPages, IsListed, IsNamedFault, page_at};
ghost use Rattle.xb_parts.specs.Joining.{MakesTheWhole, join_of};

use crate::given::given_by;
use crate::join_fault::JoinFault;
use crate::join_words::JoinRequest;
use crate::list::ranges_of_list;
use crate::pages::join_pages;
use crate::parts_fault::PartsFault;
use crate::range::LineRange;
use std::alloc::Global;
use std::io;
use std::io::Write;
use xb_command::Files;
use xb_page::end_lines_at_lf;
use xb_text::write_whole;

// The ranges of a list, if one is named.
fn read_list<'a, F: Files>(
    alloc: Global,
    files: &F,
    name: Option<&'a str>,
) -> Result<Option<Vec<LineRange>>, JoinFault<'a>>
    ensures listed { IfOk result (λ ranges. IsListed (F.bytes files.now) (option_copied name.entry)
        (option_map (λ r. r.items) ranges)) }
    ensures fault { IfErr result (IsFaultOfList (F.bytes files.now) (option_copied name.entry)) }
{
    let name = match name {
        Some(name) => name,
        None => return Ok(None),
    };
    let text = match files.read(alloc, name) {
        Ok(text) => text,
        Err(error) => return Err(JoinFault::File(name, error)),
    };
    match ranges_of_list(alloc, &text) {
        Ok(ranges) => Ok(Some(ranges)),
        Err(fault) => Err(JoinFault::List(name, fault)),
    }
}

// The page of a file, each line ended by LF.
fn page_of_file<F: Files>(alloc: Global, files: &F, name: &str) -> io::Result<Vec<u8>>
    ensures { IfOk result (λ page. HasPage (F.bytes files.now) name.now page.items) }
{
    let mut page = files.read(alloc, name)?;
    end_lines_at_lf(&mut page);
    Ok(page)
}

// The pages of files.
fn read_pages<'a, F: Files>(
    alloc: Global,
    files: &F,
    names: &[&'a str],
) -> Result<Vec<Vec<u8>>, JoinFault<'a>>
    ensures texts { IfOk result (λ pages. HavePages (F.bytes files.now) (map (λ name. name.now) names.now)
        (map (λ page. page.items) pages.items)) }
    ensures fault { IfErr result (IsFaultOfFiles (map (λ name. name.now) names.now)) }
{
    let mut pages = Vec::new(alloc);
    for name in names {
        let page = match page_of_file(alloc, files, name) {
            Ok(page) => page,
            Err(error) => return Err(JoinFault::File(name, error)),
        };
        if pages.push(page).is_err() {
            return Err(JoinFault::NoMemory);
        }
    }
    Ok(pages)
}

// The name of the page of a part, from 1.
fn name_of<'a>(names: &[&'a str], part: usize) -> Option<&'a str>
    ensures { option_map (λ name. name.now) result ≡ page_at (map (λ name. name.now) names.now) part }
{
    names.get(part.checked_sub(1)?).copied()
}

// Why the pages of these files can't be joined, with the file where there is one.
fn fault_of<'a>(names: &[&'a str], fault: PartsFault) -> JoinFault<'a>
    ensures { IsNamedFault (map (λ name. name.now) names.now) fault result }
{
    let part = match fault {
        PartsFault::Lines(part) | PartsFault::Part(part, _) | PartsFault::PastEnd(part) => part,
        PartsFault::Missing(_) | PartsFault::NoMemory => return JoinFault::Parts(fault),
    };
    match name_of(names, part) {
        Some(name) => JoinFault::Page(name, fault),
        None => JoinFault::Parts(fault),
    }
}

// The page that pages make, by a list if there is one.
fn page_of<'a>(
    alloc: Global,
    names: &[&'a str],
    ranges: Option<&[LineRange]>,
    pages: &[Vec<u8>],
) -> Result<Vec<u8>, JoinFault<'a>>
    ensures page { let given = given_by (option_copied ranges.entry) (map (λ p. p.items) pages.now) in
        IfOk result (λ page. (join_of given ≡ Ok page.items) × MakesTheWhole given page.items) }
    ensures few { OnOk result (HasPartForEach (option_copied ranges.entry) (map (λ p. p.items) pages.now)) }
    ensures fault { let r = option_copied ranges.entry in
        let all = map (λ name. name.now) names.now in
        IfErr result (IsFaultOfPages all r (map (λ p. p.items) pages.now)) }
{
    if let Some(ranges) = ranges {
        if ranges.len() < pages.len() {
            return Err(JoinFault::TooMany(ranges.len()));
        }
    }
    let parts = match given_by(alloc, ranges, pages) {
        Ok(parts) => parts,
        Err(_) => return Err(JoinFault::NoMemory),
    };
    match join_pages(alloc, &parts) {
        Ok(page) => Ok(page),
        Err(fault) => Err(fault_of(names, fault)),
    }
}

/// Reads the list and the pages that a request names, and writes the page of the whole. All files are read
/// and all pages are checked before anything is written.
///
/// On an `Err` nothing was written, except on `Write`, where the beginning of the page was.
///
/// What the contract says of bytes it says of files and of writers whose bytes are known to contracts, which
/// those of a system are not.
pub fn join<'a, F: Files, W: Write>(
    alloc: Global,
    files: &F,
    request: &JoinRequest<'a>,
    out: &mut W,
) -> Result<(), JoinFault<'a>>
    ensures { Delivers (F.bytes files.now) request.now result (W.contents out.old) (W.contents out.new) }
{
    let ranges = read_list(alloc, files, request.list)?;
    let pages = read_pages(alloc, files, &request.pages)?;
    let page = page_of(alloc, &request.pages, ranges.as_deref(), &pages)?;
    match write_whole(out, &page) {
        Ok(()) => Ok(()),
        Err(_) => Err(JoinFault::Write),
    }
}
