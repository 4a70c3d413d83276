// The lines of keys, as they end.
use crate::page::PageFault;
use std::alloc::Global;
use std::io::Write;
use xb_measured::{Heard, figures_of, text_line};
use xb_text::write_whole;

/// Keys that are told one by one, each by the time since the last.
#[derive(Clone, Copy)]
pub(crate) struct Listing {
    pub(crate) last: Option<Heard>,
}

impl Listing {
    ghost use Rattle.std.specs.Prelude.{◌∷◌, ◌++◌};
    ghost use Rattle.xb_measured.specs.Receivers.{listed};
    ghost use Rattle.xb_rx.specs.Pages.{Writes};
    ghost use Rattle.xb_rx.specs.Reports.{listing_rest};

    // Writes the line of a key.
    fn write_key<W: Write>(
        &mut self,
        alloc: Global,
        key: Heard,
        out: &mut W,
    ) -> Result<(), PageFault>
        ensures { Writes (λ later. listing_rest self.old (key ∷ later)) (listing_rest self.new) result
            (W.contents out.old) (W.contents out.new) }
    {
        let figures = figures_of(self.last, key);
        let line = text_line(alloc, &figures)?;
        if write_whole(out, line.as_bytes()).is_err() {
            return Err(PageFault::Write);
        }
        self.last = Some(key);
        Ok(())
    }

    /// Writes the line of the key that ended, if one did. On an `Err` its beginning was written.
    pub(crate) fn take<W: Write>(
        &mut self,
        alloc: Global,
        key: Option<Heard>,
        out: &mut W,
    ) -> Result<(), PageFault>
        ensures { Writes (λ later. listing_rest self.old (listed key ++ later)) (listing_rest self.new) result
            (W.contents out.old) (W.contents out.new) }
    {
        match key {
            Some(key) => self.write_key(alloc, key, out),
            None => Ok(()),
        }
    }
}
