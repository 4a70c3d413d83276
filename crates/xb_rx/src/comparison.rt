// What was keyed, compared with what is heard while it is heard.
use crate::differing::{write_all_missed, write_up_to};
use crate::keyed::Keyed;
use std::alloc::{AllocError, Global};
use std::marker::Model;

/// What was keyed, compared with what is heard, an entry at a time. It holds the keyed entries, and none of those that
/// were heard.
#[derive(Drop)]
pub struct Comparison {
    keyed: Vec<Keyed>,
    // how many of them are passed
    passed: usize,
}

// Clauses see the entries that are left to be heard.
impl Model for Comparison {
    ghost use Rattle.std.specs.Prelude.{◌≤◌, List, drop, length};
    ghost use Rattle.xb_rx.specs.Entries.{KeyedEntry};

    ghost Value = { List KeyedEntry };

    ghost view = { λ c. drop c.passed c.keyed.items };

    ghost invariant = { λ c. c.passed ≤ length c.keyed.items };
}

impl Comparison {
    ghost use Rattle.std.specs.Prelude.{◌≡◌, [], ◌∷◌, ◌++◌, IfOk, List, OnErr, string_bytes};
    ghost use Rattle.xb_rx.specs.Differences.{differences};
    ghost use Rattle.xb_rx.specs.Entries.{KeyedEntry};

    /// Nothing has been heard yet.
    pub fn new(keyed: Vec<Keyed>) -> Comparison
        ensures { result ≡ keyed.items }
    {
        Comparison { keyed, passed: 0 }
    }

    /// The differences that the entry that is heard next makes plain: a line for each entry that was keyed before it
    /// and not heard, or its own where it was not keyed. `Err` says that memory ran out; nothing is passed then.
    pub fn take(&mut self, alloc: Global, entry: &Keyed) -> Result<String, AllocError>
        ensures text { IfOk result (λ text. (later : List KeyedEntry) →
            differences self.old (entry.now ∷ later) ≡ string_bytes text ++ differences self.new later) }
        ensures same { OnErr result (self.new ≡ self.old) }
    {
        let mut text = String::new(alloc);
        let passed = write_up_to(alloc, &mut text, &self.keyed[self.passed..], entry)?;
        self.passed += passed;
        Ok(text)
    }

    /// The differences where nothing more is heard. `Err` says that memory ran out.
    pub fn end(&self, alloc: Global) -> Result<String, AllocError>
        ensures { IfOk result (λ text. string_bytes text ≡ differences self.now []) }
    {
        let mut text = String::new(alloc);
        write_all_missed(&mut text, &self.keyed[self.passed..])?;
        Ok(text)
    }
}
