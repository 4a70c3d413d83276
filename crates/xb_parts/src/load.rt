// What lines have of a deck.
ghost use Rattle.std.specs.Prelude.{◌≡◌, ◌+◌, ◌-◌, min, ◌^◌, ◌<◌, ◌≤◌, ◌↔◌, IsTrue};
ghost use Rattle.xb_parts.specs.Loads.{IsWithin};

/// How many records, and how many bytes of them.
#[derive(Clone, Copy, Debug, Default, PartialEq, Eq)]
pub struct Load {
    /// The records.
    pub records: u64,
    /// Their bytes, the LF of each counted.
    pub bytes: u64,
}

impl Load {
    /// Whether this is no more than `most`.
    pub fn is_within(self, most: Load) -> bool
        ensures { IsTrue result ↔ IsWithin self most }
    {
        self.records <= most.records && self.bytes <= most.bytes
    }

    /// Counts a record of so many bytes; a count that does not fit stays the greatest that does.
    pub fn count(&mut self, bytes: u64)
        ensures records { self.new.records ≡ min (self.old.records + 1) (2 ^ 64 - 1) }
        ensures bytes { self.new.bytes ≡ min (self.old.bytes + bytes) (2 ^ 64 - 1) }
    {
        self.records = self.records.saturating_add(1);
        self.bytes = self.bytes.saturating_add(bytes);
    }

    /// Both together.
    pub fn with(self, more: Load) -> Load
        requires records { self.records + more.records < 2 ^ 64 }
        requires bytes { self.bytes + more.bytes < 2 ^ 64 }
        ensures records { result.records ≡ self.records + more.records }
        ensures bytes { result.bytes ≡ self.bytes + more.bytes }
    {
        Load {
            records: self.records + more.records,
            bytes: self.bytes + more.bytes,
        }
    }
}
