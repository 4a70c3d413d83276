// The page of keys, as they end, or its differences from what was keyed.
ghost use Rattle.std.specs.Prelude.{◌≡◌, [], ◌∷◌, ◌++◌, IfOk, OnOk, drop, map, string_bytes};
ghost use Rattle.xb_model.specs.declared.key.Key.TheVariants.{Digit};
ghost use Rattle.xb_model.specs.Keyings.{tone};
ghost use Rattle.xb_model.specs.Page.{entry_text, totals_text};
ghost use Rattle.xb_measured.specs.Keyings.{digits_in};
ghost use Rattle.xb_rx.specs.Pages.{IsTextOf, loose_lines};

use crate::begun::{Step, step_of};
use crate::comparison::Comparison;
use crate::keyed::Keyed;
use std::alloc::{AllocError, Global};
use std::io::Write;
use xb_measured::{Heard, NamedKey, began_ms, doubts_text};
use xb_model::{Key, LineNo, Mark, Trunk, mf};
use xb_tape::{write_entry, write_totals};
use xb_text::write_whole;

// Why a page is not written.
#[derive(Clone, Copy, Debug, PartialEq, Eq)]
pub(crate) enum PageFault {
    // Memory ran out.
    NoMemory,
    // The page could not be written.
    Write,
    // What is doubtful of a keying, or a key that is in none, could not be told of.
    Tell,
}

impl From<AllocError> for PageFault {
    ghost use Rattle.std.specs.Prelude.{◌≡◌};
    ghost use Rattle.xb_rx.specs.declared.page.PageFault.TheVariants.{NoMemory};

    ghost from_gives = { λ _ e. e ≡ NoMemory };

    fn from(_error: AllocError) -> PageFault {
        PageFault::NoMemory
    }
}

/// A page that is written as keys end: of each keying its entry, or what its entry differs by from what was keyed, and
/// lines of errors for what is doubtful of it, and for each key that is in none. It holds the keys of one keying, up to
/// `MOST_DIGITS` digits.
#[derive(Drop)]
pub(crate) struct Page {
    pub(crate) line: LineNo,
    pub(crate) trunk: Trunk,
    // how many entries there were
    pub(crate) count: usize,
    // the keys of a keying that goes on
    pub(crate) begun: Vec<NamedKey>,
    // what it is compared with, in place of being written down
    pub(crate) against: Option<Comparison>,
}

// Puts the mark of a key after the marks.
fn push_key(marks: &mut Vec<Mark>, key: &Key) -> Result<(), AllocError>
    ensures { OnOk result (marks.new.items ≡ marks.old.items ++ tone key.now ∷ []) }
{
    let pair = mf(*key);
    marks.push(Mark::Tone(*key, pair))?;
    Ok(())
}

// The keys after the first.
fn after_first(keys: &[NamedKey]) -> &[NamedKey]
    ensures { result.now ≡ drop 1 keys.now }
{
    match keys.split_first() {
        Some((_, later)) => later,
        None => keys,
    }
}

// Puts the marks of the digits among keys after the marks.
fn push_digits(marks: &mut Vec<Mark>, keys: &[NamedKey]) -> Result<(), AllocError>
    ensures { OnOk result (marks.new.items ≡ marks.old.items
        ++ map (λ d. tone (Digit d)) (digits_in keys.now)) }
{
    for key in keys {
        if let Some(digit) = key.digit() {
            push_key(marks, &Key::Digit(digit))?;
        }
    }
    Ok(())
}

// The lines of keys that stand in no keying.
fn loose_lines(alloc: Global, keys: &[NamedKey]) -> Result<String, AllocError>
    ensures { IfOk result (λ text. string_bytes text ≡ loose_lines keys.now) }
{
    let mut text = String::new(alloc);
    for key in keys {
        key.write_loose(&mut text)?;
    }
    Ok(text)
}

// The totals of so many entries.
fn totals(alloc: Global, count: usize) -> Result<String, AllocError>
    ensures { IfOk result (λ text. string_bytes text ≡ totals_text count 0) }
{
    let mut text = String::new(alloc);
    write_totals(&mut text, count as u128, 0)?;
    Ok(text)
}

// The text of an entry of a line.
fn entry_of(
    alloc: Global,
    line: LineNo,
    number: usize,
    marks: &[Mark],
) -> Result<String, AllocError>
    ensures { IfOk result (λ text. string_bytes text ≡ entry_text line number marks.now) }
{
    let mut text = String::new(alloc);
    write_entry(&mut text, line, number, marks)?;
    Ok(text)
}

// What is written of an entry that was heard so many ms from the first sample: its text, or what differs before it from
// what was keyed.
fn text_of(
    alloc: Global,
    against: &mut Option<Comparison>,
    line: LineNo,
    number: usize,
    marks: &[Mark],
    at: u64,
) -> Result<String, AllocError>
    ensures { IfOk result (λ text.
        IsTextOf against.old against.new line number marks.now at (string_bytes text)) }
{
    match against {
        None => entry_of(alloc, line, number, marks),
        Some(comparison) => {
            let entry = Keyed::of_marks(alloc, line, number, marks)?;
            comparison.take(alloc, &entry.heard_at(at))
        }
    }
}

impl Page {
    ghost use Rattle.std.specs.Prelude.{◌≡◌, ◌≤◌, ◌<◌, ◌+◌, ◌^◌, ◌∷◌, [], ◌++◌, IfErr, IfOk, OnErr, OnOk, List, drop, string_bytes};
    ghost use Rattle.std.specs.Io.KnownBytes.{Appends};
    ghost use Rattle.xb_measured.specs.Receivers.{listed};
    ghost use Rattle.xb_model.specs.Keyings.{keying};
    ghost use Rattle.xb_text.specs.Writing.{AppendsBeginning};
    ghost use Rattle.xb_measured.specs.Keyings.{Part, digits_in, is_keying};
    ghost use Rattle.xb_rx.specs.Begun.{IsBegun, broken, kept_after};
    ghost use Rattle.xb_rx.specs.Placed.{Placed, placed_of};
    ghost use Rattle.xb_rx.specs.Pages.{Ends, Writes, WritesOf, fresh_against, fresh_page, loose_lines, page_rest, page_told, paged, text_rest, told_parts};

    /// An empty page.
    pub(crate) fn new(alloc: Global, line: LineNo, trunk: Trunk) -> Page
        ensures { paged result ≡ fresh_page line trunk }
    {
        Page {
            line,
            trunk,
            count: 0,
            begun: Vec::new(alloc),
            against: None,
        }
    }

    /// An empty page that is compared with what was keyed.
    pub(crate) fn against(alloc: Global, keyed: Vec<Keyed>) -> Page
        ensures { paged result ≡ fresh_against keyed.items }
    {
        Page {
            line: LineNo::default(),
            trunk: Trunk::default(),
            count: 0,
            begun: Vec::new(alloc),
            against: Some(Comparison::new(keyed)),
        }
    }

    // Keeps a key of the keying.
    fn keep(&mut self, key: NamedKey) -> Result<(), PageFault>
        ensures kept { OnOk result (paged self.new
            ≡ record (paged self.old) { begun = self.old.begun.items ++ key ∷ [] }) }
        ensures same { OnErr result (paged self.new ≡ paged self.old) }
        ensures count { self.new.count ≡ self.old.count }
    {
        match self.begun.push(key) {
            Ok(()) => Ok(()),
            Err(_) => Err(PageFault::NoMemory),
        }
    }

    // The marks of the keying that goes on.
    fn marks(&self, alloc: Global) -> Result<Vec<Mark>, AllocError>
        ensures { IfOk result (λ marks. marks.items
            ≡ keying self.now.trunk (digits_in (drop 1 self.now.begun.items))) }
    {
        let mut marks = Vec::new(alloc);
        marks.push(Mark::Trunk(self.trunk))?;
        push_key(&mut marks, &Key::Kp)?;
        push_digits(&mut marks, after_first(&self.begun))?;
        push_key(&mut marks, &Key::St)?;
        Ok(marks)
    }

    // Writes what there is of the keying that this key completes, and tells what is doubtful of it.
    fn complete<W: Write, E: Write>(
        &mut self,
        alloc: Global,
        key: NamedKey,
        out: &mut W,
        err: &mut E,
    ) -> Result<(), PageFault>
        requires { self.old.count + 1 < 2 ^ 64 }
        ensures page { WritesOf (λ (later : List Placed).
            text_rest (paged self.old) (placed_of self.old.begun.items ∷ later))
            (text_rest (paged self.new)) result (W.contents out.old) (W.contents out.new) }
        ensures told { WritesOf (λ (parts : List Part).
            told_parts (self.old.count + 1) (is_keying (self.old.begun.items ++ key ∷ []) ∷ parts))
            (told_parts (self.new.count + 1)) result (E.contents err.old) (E.contents err.new) }
        ensures after { OnOk result (self.new.begun.items ≡ []) }
        ensures count { self.new.count ≤ self.old.count + 1 }
    {
        let marks = self.marks(alloc)?;
        let at = began_ms(&self.begun);
        self.keep(key)?;
        let number = self.count + 1;
        let told = doubts_text(alloc, number, &self.begun)?;
        let text = text_of(alloc, &mut self.against, self.line, number, &marks, at)?;
        if write_whole(out, text.as_bytes()).is_err() {
            return Err(PageFault::Write);
        }
        if write_whole(err, told.as_bytes()).is_err() {
            return Err(PageFault::Tell);
        }
        self.count = number;
        self.begun.clear();
        Ok(())
    }

    // The lines of the keys that stand in no keying, since this key comes after them.
    fn broken(&self, alloc: Global, key: &NamedKey) -> Result<String, AllocError>
        ensures { IfOk result (λ text.
            string_bytes text ≡ loose_lines (broken self.now.begun.items key.now)) }
    {
        let mut text = loose_lines(alloc, &self.begun)?;
        if !key.is_kp() {
            key.write_loose(&mut text)?;
        }
        Ok(text)
    }

    // Tells of the keys that stand in no keying, since this key comes after them, and keeps it if it is a KP.
    fn break_off<E: Write>(
        &mut self,
        alloc: Global,
        key: NamedKey,
        err: &mut E,
    ) -> Result<(), PageFault>
        ensures whole { OnOk result (Appends (E.contents err.old) (E.contents err.new)
            (loose_lines (broken self.old.begun.items key))) }
        ensures beginning { IfErr result (λ _. AppendsBeginning (E.contents err.old) (E.contents err.new)
            (loose_lines (broken self.old.begun.items key))) }
        ensures after { OnOk result (paged self.new ≡ record (paged self.old) { begun = kept_after key }) }
        ensures count { self.new.count ≡ self.old.count }
    {
        let text = self.broken(alloc, &key)?;
        if write_whole(err, text.as_bytes()).is_err() {
            return Err(PageFault::Tell);
        }
        self.begun.clear();
        if key.is_kp() {
            return self.keep(key);
        }
        Ok(())
    }

    // Takes a key.
    fn take_key<W: Write, E: Write>(
        &mut self,
        alloc: Global,
        key: NamedKey,
        out: &mut W,
        err: &mut E,
    ) -> Result<(), PageFault>
        requires begun { IsBegun self.old.begun.items }
        requires count { self.old.count + 1 < 2 ^ 64 }
        ensures page { Writes (λ later. page_rest (paged self.old) (key ∷ later))
            (page_rest (paged self.new)) result
            (W.contents out.old) (W.contents out.new) }
        ensures told { Writes (λ later. page_told (paged self.old) (key ∷ later))
            (page_told (paged self.new)) result
            (E.contents err.old) (E.contents err.new) }
        ensures count { self.new.count ≤ self.old.count + 1 }
        ensures begun { OnOk result (IsBegun self.new.begun.items) }
    {
        match step_of(&self.begun, &key) {
            Step::Keeps => self.keep(key),
            Step::Completes => self.complete(alloc, key, out, err),
            Step::BreaksOff => self.break_off(alloc, key, err),
        }
    }

    // What is left to be written where no keying comes any more: the totals, or what was keyed and not heard.
    fn last(&self, alloc: Global) -> Result<String, AllocError>
        ensures { IfOk result (λ text. string_bytes text ≡ text_rest (paged self.now) []) }
    {
        match &self.against {
            None => totals(alloc, self.count),
            Some(comparison) => comparison.end(alloc),
        }
    }

    /// Takes the key that ended, if one did: writes what there is of the entry that it completes, and tells what is
    /// doubtful of that, or of the keys that stand in no keying because of it. On an `Err` the beginning of this was
    /// written.
    pub(crate) fn take<W: Write, E: Write>(
        &mut self,
        alloc: Global,
        key: Option<Heard>,
        out: &mut W,
        err: &mut E,
    ) -> Result<(), PageFault>
        requires begun { IsBegun self.old.begun.items }
        requires count { self.old.count + 1 < 2 ^ 64 }
        ensures page { Writes (λ later. page_rest (paged self.old) (listed key ++ later))
            (page_rest (paged self.new)) result
            (W.contents out.old) (W.contents out.new) }
        ensures told { Writes (λ later. page_told (paged self.old) (listed key ++ later))
            (page_told (paged self.new)) result
            (E.contents err.old) (E.contents err.new) }
        ensures count { self.new.count ≤ self.old.count + 1 }
        ensures begun { OnOk result (IsBegun self.new.begun.items) }
    {
        match key {
            Some(key) => self.take_key(alloc, NamedKey::of(key), out, err),
            None => Ok(()),
        }
    }

    /// Tells of the keys of a keying that goes on, since no key comes after them, and writes what is left. On an `Err`
    /// the beginning of this was written.
    pub(crate) fn close<W: Write, E: Write>(
        &self,
        alloc: Global,
        out: &mut W,
        err: &mut E,
    ) -> Result<(), PageFault>
        requires { IsBegun self.now.begun.items }
        ensures page { Ends (page_rest (paged self.now) []) result (W.contents out.old) (W.contents out.new) }
        ensures told { Ends (page_told (paged self.now) []) result
            (E.contents err.old) (E.contents err.new) }
    {
        let text = loose_lines(alloc, &self.begun)?;
        let last = self.last(alloc)?;
        if write_whole(err, text.as_bytes()).is_err() {
            return Err(PageFault::Tell);
        }
        if write_whole(out, last.as_bytes()).is_err() {
            return Err(PageFault::Write);
        }
        Ok(())
    }

    /// Takes the key that sounds at the end, if one does, and closes the page.
    pub(crate) fn end<W: Write, E: Write>(
        &mut self,
        alloc: Global,
        key: Option<Heard>,
        out: &mut W,
        err: &mut E,
    ) -> Result<(), PageFault>
        requires begun { IsBegun self.old.begun.items }
        requires count { self.old.count + 1 < 2 ^ 64 }
        ensures page { Ends (page_rest (paged self.old) (listed key)) result
            (W.contents out.old) (W.contents out.new) }
        ensures told { Ends (page_told (paged self.old) (listed key)) result
            (E.contents err.old) (E.contents err.new) }
    {
        self.take(alloc, key, out, err)?;
        self.close(alloc, out, err)
    }
}
