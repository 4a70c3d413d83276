// Keys that were heard, by what they stand for.
ghost use Rattle.std.specs.Prelude.{◌≡◌};
ghost use Rattle.xb_measured.specs.Keyings.{begins_keying, digit_by, ends_keying};

use crate::figures::start_ms;
use crate::heard::Heard;
use crate::meaning::Meaning;
use std::alloc::AllocError;
use std::marker::Model;
use xb_model::{Digit, Key};

/// The most digits of a keying: a limit of our own, some times what a sender keys.
pub const MOST_DIGITS: usize = 64;

/// A key that was heard, and what its pair stands for.
#[derive(Drop)]
pub struct NamedKey {
    heard: Heard,
    meaning: Meaning,
}

// Clauses see the key that was heard.
impl Model for NamedKey {
    ghost use Rattle.std.specs.Prelude.{◌≡◌};
    ghost use Rattle.xb_measured.specs.declared.heard.Heard.{Heard as HeardKey};
    ghost use Rattle.xb_measured.specs.Meanings.{meaning_of};

    ghost Value = { HeardKey };

    ghost view = { λ key. key.heard };

    ghost invariant = { λ key. key.meaning ≡ meaning_of key.heard.sight.pair };
}

/// Whether it begins a keying.
pub(crate) fn begins_keying(meaning: &Meaning) -> bool
    ensures { result ≡ begins_keying meaning.now }
{
    matches!(meaning, Meaning::Key(Key::Kp))
}

// Whether it ends one.
fn ends_keying(meaning: &Meaning) -> bool
    ensures { result ≡ ends_keying meaning.now }
{
    matches!(meaning, Meaning::Key(Key::St))
}

/// The digit that it is.
pub(crate) fn digit_by(meaning: &Meaning) -> Option<Digit>
    ensures { result ≡ digit_by meaning.now }
{
    match meaning {
        Meaning::Key(Key::Digit(digit)) => Some(*digit),
        _ => None,
    }
}

impl NamedKey {
    ghost use Rattle.std.specs.Prelude.{◌++◌, OnOk, string_bytes};
    ghost use Rattle.xb_measured.specs.Meanings.{meaning_of, name_text};
    ghost use Rattle.xb_measured.specs.Keyings.{digit_of, is_kp, is_st};
    ghost use Rattle.xb_measured.specs.DoubtLines.{loose_line};

    /// A key, once it is known what its pair stands for.
    pub fn of(heard: Heard) -> NamedKey
        ensures { result ≡ heard }
    {
        NamedKey {
            heard,
            meaning: Meaning::of(heard.sight.pair),
        }
    }

    /// The key as it was heard.
    pub fn heard(&self) -> Heard
        ensures { result ≡ self.now }
    {
        self.heard
    }

    /// Whether it is KP.
    pub fn is_kp(&self) -> bool
        ensures { result ≡ is_kp self.now }
    {
        begins_keying(&self.meaning)
    }

    /// Whether it is ST.
    pub fn is_st(&self) -> bool
        ensures { result ≡ is_st self.now }
    {
        ends_keying(&self.meaning)
    }

    /// The digit that it is; `None` of any other key.
    pub fn digit(&self) -> Option<Digit>
        ensures { result ≡ digit_of self.now }
    {
        digit_by(&self.meaning)
    }

    // Its name.
    fn name(&self) -> &'static str
        ensures { result.now ≡ name_text (meaning_of self.now.sight.pair) }
    {
        self.meaning.name()
    }

    /// Appends the line that tells of it where it is in no keying.
    pub fn write_loose(&self, out: &mut String) -> Result<(), AllocError>
        ensures { OnOk result (string_bytes out.new ≡ string_bytes out.old ++ loose_line self.now) }
    {
        let name = self.name();
        let ms = start_ms(self.heard);
        write!(out, "mfrx: {name} at {ms} ms belongs to no keying\n")
    }
}
