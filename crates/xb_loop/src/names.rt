// Names of wires, each once.
ghost use Rattle.std.specs.Prelude.{◌≡◌, OnOk, map, string_bytes, true};
ghost use Rattle.std.specs.Str.Lossy.{utf8_lossy};
ghost use Rattle.xb_loop.specs.Names.{is_among, name_added, named_in, no_names};

use std::alloc::{AllocError, Global};

/// How many names are kept.
const MOST_NAMES: usize = 32;

/// Names of wires, each once, in the order in which they came first.
#[derive(Debug, Drop)]
pub struct WireNames {
    /// At most 32 of them.
    pub names: Vec<String>,
    /// Whether there are more.
    pub are_more: bool,
}

// Whether a name is among names.
fn is_among(name: &str, names: &[String]) -> bool
    ensures { result ≡ is_among name.now (map string_bytes names.now) }
{
    for other in names {
        if other.as_str() == name {
            return true;
        }
    }
    false
}

impl WireNames {
    /// No name.
    pub(crate) fn new(alloc: Global) -> WireNames
        ensures { named_in result ≡ no_names }
    {
        WireNames {
            names: Vec::new(alloc),
            are_more: false,
        }
    }

    /// A name more.
    pub(crate) fn add(&mut self, name: String) -> Result<(), AllocError>
        ensures { OnOk result (named_in self.new ≡ name_added (named_in self.old) (string_bytes name)) }
    {
        if is_among(&name, &self.names) {
            return Ok(());
        }
        if self.names.len() >= MOST_NAMES {
            self.are_more = true;
            return Ok(());
        }
        self.names.push(name)?;
        Ok(())
    }

    /// A name more, whose bytes are a text, or else have U+FFFD in place of what is none.
    pub(crate) fn add_bytes(&mut self, alloc: Global, name: &[u8]) -> Result<(), AllocError>
        ensures { OnOk result (named_in self.new ≡ name_added (named_in self.old) (utf8_lossy name.now)) }
    {
        self.add(String::from_utf8_lossy(alloc, name)?)
    }
}
