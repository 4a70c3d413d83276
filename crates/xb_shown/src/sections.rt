// A page in HTML, section by section.
use crate::page::{push_page_end, push_page_start, push_part};
use crate::part::Part;
use std::alloc::{AllocError, Global};
use std::marker::Model;

/// A page in HTML whose sections come one by one. It holds none of them.
#[derive(Drop)]
pub struct Sections {
    // whether the page was begun
    is_begun: bool,
}

// Clauses see whether it was begun.
impl Model for Sections {
    ghost use Rattle.std.specs.Prelude.{Bool};

    ghost Value = { Bool };

    ghost view = { λ s. s.is_begun };
}

impl Sections {
    ghost use Rattle.std.specs.Prelude.{◌≡◌, ◌++◌, false, true, IfErr, OnOk, string_bytes};
    ghost use Rattle.xb_svg.specs.Drawings.{PutsBy};
    ghost use Rattle.xb_shown.specs.Pictures.{part_in};
    ghost use Rattle.xb_shown.specs.Sections.{end_text, section_text, unbegun_text};

    /// Before the page is begun.
    pub fn new() -> Sections
        ensures { result ≡ false }
    {
        Sections { is_begun: false }
    }

    // Puts what stands before the sections after the text, unless it stands there.
    fn begin(&self, out: &mut String) -> Result<(), AllocError>
        ensures { OnOk result (string_bytes out.new ≡ string_bytes out.old ++ unbegun_text self.now) }
    {
        if self.is_begun {
            return Ok(());
        }
        push_page_start(out)
    }

    /// Puts the section of keys and of what they are after the text, by the last key before them; before the first one
    /// the beginning of the page. `Err` says that memory ran out; the page stays as it was then, and the text has the
    /// beginning of what was to be put there.
    pub fn take(
        &mut self,
        alloc: Global,
        out: &mut String,
        part: &Part<'_>,
    ) -> Result<(), AllocError>
        ensures text { OnOk result (PutsBy
            (λ looks. unbegun_text self.old ++ section_text looks (part_in part.now))
            (string_bytes out.old) (string_bytes out.new)) }
        ensures begun { OnOk result (self.new ≡ true) }
        ensures kept { IfErr result (λ _. self.new ≡ self.old) }
    {
        self.begin(out)?;
        push_part(alloc, out, part)?;
        self.is_begun = true;
        Ok(())
    }

    /// Puts the end of the page after the text, of one without a section all of it. `Err` says that memory ran out.
    pub fn end(&self, out: &mut String) -> Result<(), AllocError>
        ensures { OnOk result (string_bytes out.new
            ≡ string_bytes out.old ++ (unbegun_text self.now ++ end_text)) }
    {
        self.begin(out)?;
        push_page_end(out)
    }
}
