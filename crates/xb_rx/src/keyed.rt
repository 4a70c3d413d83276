// The keyed entries of a page.
ghost use Rattle.std.specs.Prelude.{◌≡◌, ◌++◌, IfOk, OnOk, codes, string_bytes};
ghost use Rattle.xb_model.specs.Page.{key_text};
ghost use Rattle.xb_rx.specs.Keyed.{keyed_of, keys_text};

use std::alloc::{AllocError, Global};
use std::marker::Model;
use xb_model::{Key, LineNo, Mark};
use xb_page::PageEntry;

/// A keyed entry of a page, or one that was heard.
#[derive(Drop)]
pub struct Keyed {
    line: LineNo,
    number: usize,
    keys: String,
    // when it was heard, in ms; a page does not say it
    at: Option<u64>,
}

// Clauses see the names of the keys.
impl Model for Keyed {
    ghost use Rattle.std.specs.Prelude.{string_bytes};
    ghost use Rattle.xb_rx.specs.Entries.{KeyedEntry};

    ghost Value = { KeyedEntry };

    ghost view = { λ k. record { line = k.line; number = k.number; keys = string_bytes k.keys; at = k.at } };
}

impl Keyed {
    ghost use Rattle.std.specs.Prelude.{◌≡◌, IfOk, Some};
    ghost use Rattle.xb_page.specs.Entries.{entry_with};
    ghost use Rattle.xb_rx.specs.Keyed.{keyed_with};

    /// The entry of a line that has these marks. `Err` says that memory ran out.
    pub fn of_marks(
        alloc: Global,
        line: LineNo,
        number: usize,
        marks: &[Mark],
    ) -> Result<Keyed, AllocError>
        ensures { IfOk result (λ keyed. keyed ≡ keyed_with (entry_with line number marks.now)) }
    {
        let keys = keys_of(alloc, marks)?;
        Ok(Keyed {
            line,
            number,
            keys,
            at: None,
        })
    }

    /// The same entry, as it was heard so many ms from the first sample of a sound.
    pub fn heard_at(self, ms: u64) -> Keyed
        ensures { result ≡ record self { at = Some ms } }
    {
        Keyed {
            line: self.line,
            number: self.number,
            keys: self.keys,
            at: Some(ms),
        }
    }

    /// The line of the office.
    pub fn line(&self) -> LineNo
        ensures { result ≡ self.now.line }
    {
        self.line
    }

    /// The number of the entry on its line.
    pub fn number(&self) -> usize
        ensures { result ≡ self.now.number }
    {
        self.number
    }

    /// The names of its keys, each after a blank.
    pub fn keys(&self) -> &str
        ensures { result.now ≡ self.now.keys }
    {
        self.keys.as_str()
    }

    /// When it was heard, in ms from the first sample; `None` of an entry of a page.
    pub fn at(&self) -> Option<u64>
        ensures { result ≡ self.now.at }
    {
        self.at
    }
}

// Appends the name of a key after a blank.
fn write_key(out: &mut String, key: Key) -> Result<(), AllocError>
    ensures { OnOk result (string_bytes out.new ≡ string_bytes out.old ++ (codes " " ++ key_text key)) }
{
    out.push_str(" ")?;
    out.push_str(key.name())
}

// The names of the keys of marks.
fn keys_of(alloc: Global, marks: &[Mark]) -> Result<String, AllocError>
    ensures { IfOk result (λ text. string_bytes text ≡ keys_text marks.now) }
{
    let mut text = String::new(alloc);
    for mark in marks {
        if let Mark::Tone(key, _) = mark {
            write_key(&mut text, *key)?;
        }
    }
    Ok(text)
}

/// The keyed entries among those of a page, in their order. `Err` says that memory ran out.
pub fn keyed_entries(alloc: Global, entries: &[PageEntry]) -> Result<Vec<Keyed>, AllocError>
    ensures { IfOk result (λ keyed. keyed.items ≡ keyed_of entries.now) }
{
    let mut keyed = Vec::new(alloc);
    for entry in entries {
        if !entry.is_refused() {
            let line = entry.line();
            let number = entry.number();
            keyed.push(Keyed::of_marks(alloc, line, number, entry.marks())?)?;
        }
    }
    Ok(keyed)
}
