// The keyed entries of a page's text.
ghost use Rattle.std.specs.Prelude.{IfErr, IfOk};
ghost use Rattle.xb_rx.specs.KeyedPages.{IsFaultOf, IsKeyed};

use crate::keyed::{Keyed, keyed_entries};
use std::alloc::{AllocError, Global};
use std::fmt;
use thiserror::Error;
use xb_page::{MOST_PAGE_BYTES, PageFault, page_entries};

/// Why a text is not compared.
#[derive(Clone, Copy, Debug, PartialEq, Eq, Error)]
pub enum CompareFault {
    /// It is no page.
    Page(PageFault),
    /// It has more than 67,108,864 bytes.
    TooLong,
    /// Memory ran out.
    NoMemory,
}

impl fmt::Display for CompareFault {
    ghost use Rattle.std.specs.Prelude.{Some};
    ghost use Rattle.xb_rx.specs.FaultTexts.{compare_text};

    ghost output = { λ fault. Some (compare_text fault) };

    fn fmt<W: fmt::Write>(&self, f: &mut fmt::Formatter<W>) -> fmt::Result {
        match self {
            CompareFault::Page(fault) => write!(f, "{fault}"),
            CompareFault::TooLong => f.write_str("it is longer than 67108864 bytes"),
            CompareFault::NoMemory => f.write_str("out of memory"),
        }
    }
}

impl From<AllocError> for CompareFault {
    ghost use Rattle.std.specs.Prelude.{◌≡◌};
    ghost use Rattle.xb_rx.specs.declared.keyed_pages.CompareFault.TheVariants.{NoMemory};

    ghost from_gives = { λ _ e. e ≡ NoMemory };

    fn from(_error: AllocError) -> CompareFault {
        CompareFault::NoMemory
    }
}

/// The keyed entries of a page, or its first fault.
pub fn keyed_of_page(alloc: Global, page: &[u8]) -> Result<Vec<Keyed>, CompareFault>
    ensures keyed { IfOk result (λ keyed. IsKeyed page.now keyed.items) }
    ensures fault { IfErr result (IsFaultOf page.now) }
{
    if page.len() > MOST_PAGE_BYTES {
        return Err(CompareFault::TooLong);
    }
    let entries = match page_entries(alloc, page) {
        Ok(entries) => entries,
        Err(PageFault::NoMemory) => return Err(CompareFault::NoMemory),
        Err(fault) => return Err(CompareFault::Page(fault)),
    };
    Ok(keyed_entries(alloc, &entries)?)
}
