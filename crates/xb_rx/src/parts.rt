// The keyings and the keys in none, as they end, on a page in HTML or in a picture.
ghost use Rattle.std.specs.Prelude.{◌≡◌, [], IfOk, OnOk, string_bytes};
ghost use Rattle.xb_rx.specs.Shown.{Shows, last_of, loose_parts};

use crate::begun::{Step, step_of};
use crate::page::PageFault;
use std::alloc::{AllocError, Global};
use std::io::Write;
use std::slice;
use xb_measured::{Heard, NamedKey};
use xb_shown::{Part, Picture, Sections, Title};
use xb_text::write_whole;

/// What parts of keys are shown on.
#[derive(Drop)]
pub(crate) enum Sheet {
    // A page in HTML, whose sections are written one by one.
    Page(Sections),
    // A picture, which is written at the end.
    Picture(Picture),
}

impl Sheet {
    ghost use Rattle.std.specs.Prelude.{◌∷◌, [], OnOk, string_bytes};
    ghost use Rattle.xb_shown.specs.Pictures.{part_in};
    ghost use Rattle.xb_rx.specs.Shown.{Shows, ShowsAll};

    // Takes keys and what they are, by the last key before them, and puts what is then plain after the text.
    fn take(&mut self, alloc: Global, out: &mut String, part: &Part<'_>) -> Result<(), AllocError>
        ensures { OnOk result (Shows self.old (part_in part.now ∷ []) self.new []
            (string_bytes out.old) (string_bytes out.new)) }
    {
        match self {
            Sheet::Page(page) => page.take(alloc, out, part),
            Sheet::Picture(picture) => picture.take(alloc, part),
        }
    }

    // Puts what is left where nothing more comes after the text.
    fn end(&mut self, alloc: Global, out: &mut String) -> Result<(), AllocError>
        ensures { OnOk result (ShowsAll self.old (string_bytes out.old) (string_bytes out.new)) }
    {
        match self {
            Sheet::Page(page) => page.end(out),
            Sheet::Picture(picture) => picture.end(alloc, out),
        }
    }
}

/// Keys that are shown part by part: each keying, and each key that is in none. It holds the keys of one keying, up to
/// `MOST_DIGITS` digits, and what its sheet holds.
#[derive(Drop)]
pub(crate) struct Parts {
    pub(crate) sheet: Sheet,
    // the last key before the keying that goes on
    pub(crate) last: Option<Heard>,
    // how many entries there were
    pub(crate) count: usize,
    // the keys of a keying that goes on
    pub(crate) begun: Vec<NamedKey>,
}

// Shows keys that stand in no keying on a sheet, by the last key before them, and gives the last one after them.
fn show_loose(
    alloc: Global,
    sheet: &mut Sheet,
    out: &mut String,
    before: Option<Heard>,
    keys: &[NamedKey],
) -> Result<Option<Heard>, AllocError>
    ensures text { OnOk result (Shows sheet.old (loose_parts before keys.now) sheet.new []
        (string_bytes out.old) (string_bytes out.new)) }
    ensures last { IfOk result (λ last. last ≡ last_of before keys.now) }
{
    let mut last = before;
    for key in keys {
        let heard = key.heard();
        let part = Part {
            title: Title::Loose,
            before: last,
            keys: slice::from_ref(key),
        };
        sheet.take(alloc, out, &part)?;
        last = Some(heard);
    }
    Ok(last)
}

impl Parts {
    ghost use Rattle.std.specs.Prelude.{◌≡◌, ◌≤◌, ◌<◌, ◌+◌, ◌^◌, ◌∷◌, [], ◌++◌, IfOk, OnOk, Some, string_bytes, ℕ};
    ghost use Rattle.xb_measured.specs.Receivers.{listed};
    ghost use Rattle.xb_shown.specs.declared.heading.Title.TheVariants.{Entry};
    ghost use Rattle.xb_shown.specs.Pictures.{part_of};
    ghost use Rattle.xb_svg.specs.Drawings.{Looks};
    ghost use Rattle.xb_rx.specs.Begun.{IsBegun, broken, kept_after};
    ghost use Rattle.xb_rx.specs.Shown.{Shows, ShowsKey, fresh_parts, last_of, loose_parts, parts_rest, shown};
    ghost use Rattle.xb_rx.specs.Styled.{EndsBy, WritesBy};

    /// Before the first key, on a sheet.
    pub(crate) fn new(alloc: Global, sheet: Sheet) -> Parts
        ensures { shown result ≡ fresh_parts sheet }
    {
        Parts {
            sheet,
            last: None,
            count: 0,
            begun: Vec::new(alloc),
        }
    }

    // Keeps a key of the keying.
    fn keep(&mut self, key: NamedKey) -> Result<(), AllocError>
        ensures kept { OnOk result (shown self.new
            ≡ record (shown self.old) { begun = self.old.begun.items ++ key ∷ [] }) }
        ensures count { self.new.count ≡ self.old.count }
    {
        self.begun.push(key)?;
        Ok(())
    }

    // Shows the keying that this key completes.
    fn complete(&mut self, alloc: Global, key: NamedKey, out: &mut String) -> Result<(), AllocError>
        requires { self.old.count + 1 < 2 ^ 64 }
        ensures text { OnOk result (Shows self.old.sheet
            (part_of (Entry (self.old.count + 1)) self.old.last (self.old.begun.items ++ key ∷ []) ∷ [])
            self.new.sheet [] (string_bytes out.old) (string_bytes out.new)) }
        ensures last { OnOk result (self.new.last ≡ Some key) }
        ensures none { OnOk result (self.new.begun.items ≡ []) }
        ensures one { OnOk result (self.new.count ≡ self.old.count + 1) }
        ensures count { self.new.count ≤ self.old.count + 1 }
    {
        let heard = key.heard();
        self.keep(key)?;
        let number = self.count + 1;
        let part = Part {
            title: Title::Entry(number),
            before: self.last,
            keys: &self.begun,
        };
        self.sheet.take(alloc, out, &part)?;
        self.count = number;
        self.last = Some(heard);
        self.begun.clear();
        Ok(())
    }

    // Shows the keys of the keying that goes on as keys that stand in none.
    fn loosen(&mut self, alloc: Global, out: &mut String) -> Result<(), AllocError>
        ensures text { OnOk result (Shows self.old.sheet (loose_parts self.old.last self.old.begun.items)
            self.new.sheet [] (string_bytes out.old) (string_bytes out.new)) }
        ensures last { OnOk result (self.new.last ≡ last_of self.old.last self.old.begun.items) }
        ensures none { OnOk result (self.new.begun.items ≡ []) }
        ensures count { self.new.count ≡ self.old.count }
    {
        self.last = show_loose(alloc, &mut self.sheet, out, self.last, &self.begun)?;
        self.begun.clear();
        Ok(())
    }

    // Shows the keys that stand in no keying, since this key comes after them, and keeps it if it is a KP.
    fn break_off(
        &mut self,
        alloc: Global,
        key: NamedKey,
        out: &mut String,
    ) -> Result<(), AllocError>
        ensures text { OnOk result (Shows self.old.sheet
            (loose_parts self.old.last (broken self.old.begun.items key))
            self.new.sheet [] (string_bytes out.old) (string_bytes out.new)) }
        ensures last { OnOk result (self.new.last ≡ last_of self.old.last (broken self.old.begun.items key)) }
        ensures after { OnOk result (self.new.begun.items ≡ kept_after key) }
        ensures count { self.new.count ≡ self.old.count }
    {
        if key.is_kp() {
            self.loosen(alloc, out)?;
            self.keep(key)
        } else {
            self.keep(key)?;
            self.loosen(alloc, out)
        }
    }

    // Takes a key, and puts what it makes plain after the text.
    fn show_key(&mut self, alloc: Global, key: NamedKey, out: &mut String) -> Result<(), AllocError>
        requires begun { IsBegun self.old.begun.items }
        requires count { self.old.count + 1 < 2 ^ 64 }
        ensures text { OnOk result (ShowsKey (shown self.old) key (shown self.new)
            (string_bytes out.old) (string_bytes out.new)) }
        ensures count { self.new.count ≤ self.old.count + 1 }
        ensures begun { OnOk result (IsBegun self.new.begun.items) }
    {
        match step_of(&self.begun, &key) {
            Step::Keeps => self.keep(key),
            Step::Completes => self.complete(alloc, key, out),
            Step::BreaksOff => self.break_off(alloc, key, out),
        }
    }

    // Takes a key, and writes what it makes plain.
    fn take_key<W: Write>(
        &mut self,
        alloc: Global,
        key: Heard,
        out: &mut W,
    ) -> Result<(), PageFault>
        requires begun { IsBegun self.old.begun.items }
        requires count { self.old.count + 1 < 2 ^ 64 }
        ensures text { WritesBy (parts_rest (shown self.old)) (key ∷ []) (parts_rest (shown self.new))
            result (W.contents out.old) (W.contents out.new) }
        ensures count { self.new.count ≤ self.old.count + 1 }
        ensures begun { OnOk result (IsBegun self.new.begun.items) }
    {
        let mut text = String::new(alloc);
        self.show_key(alloc, NamedKey::of(key), &mut text)?;
        if write_whole(out, text.as_bytes()).is_err() {
            return Err(PageFault::Write);
        }
        Ok(())
    }

    /// Takes the key that ended, if one did, and writes the section of the keying that it completes, or of each key
    /// that is in none because of it; of a picture nothing. On an `Err` the beginning of this was written.
    pub(crate) fn take<W: Write>(
        &mut self,
        alloc: Global,
        key: Option<Heard>,
        out: &mut W,
    ) -> Result<(), PageFault>
        requires begun { IsBegun self.old.begun.items }
        requires count { self.old.count + 1 < 2 ^ 64 }
        ensures text { WritesBy (parts_rest (shown self.old)) (listed key) (parts_rest (shown self.new))
            result (W.contents out.old) (W.contents out.new) }
        ensures count { self.new.count ≤ self.old.count + 1 }
        ensures begun { OnOk result (IsBegun self.new.begun.items) }
    {
        match key {
            Some(key) => self.take_key(alloc, key, out),
            None => Ok(()),
        }
    }

    // What is left where no key comes any more.
    fn left(&mut self, alloc: Global) -> Result<String, AllocError>
        requires { IsBegun self.old.begun.items }
        ensures { IfOk result (λ text. (styles : ℕ → Looks)
            × (string_bytes text ≡ parts_rest (shown self.old) [] styles)) }
    {
        let mut text = String::new(alloc);
        self.loosen(alloc, &mut text)?;
        self.sheet.end(alloc, &mut text)?;
        Ok(text)
    }

    // Writes what is left where no key comes any more.
    fn close<W: Write>(&mut self, alloc: Global, out: &mut W) -> Result<(), PageFault>
        requires { IsBegun self.old.begun.items }
        ensures { EndsBy (parts_rest (shown self.old) []) result
            (W.contents out.old) (W.contents out.new) }
    {
        let text = self.left(alloc)?;
        if write_whole(out, text.as_bytes()).is_err() {
            return Err(PageFault::Write);
        }
        Ok(())
    }

    /// Takes the key that sounds at the end, if one does, and writes what is left: the end of a page, or all of a
    /// picture. On an `Err` the beginning of this was written.
    pub(crate) fn end<W: Write>(
        &mut self,
        alloc: Global,
        key: Option<Heard>,
        out: &mut W,
    ) -> Result<(), PageFault>
        requires begun { IsBegun self.old.begun.items }
        requires count { self.old.count + 1 < 2 ^ 64 }
        ensures { EndsBy (parts_rest (shown self.old) (listed key)) result
            (W.contents out.old) (W.contents out.new) }
    {
        self.take(alloc, key, out)?;
        self.close(alloc, out)
    }
}
