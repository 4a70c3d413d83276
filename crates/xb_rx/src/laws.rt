//! What the definitions give: each law is the contract of a function that does nothing.
ghost use Rattle.xb_rx.specs.Comparing.{EntriesAreAtTheirKp, HeardIsPaged};
ghost use Rattle.xb_rx.specs.Objects.{ObjectsHaveEntries};
ghost use Rattle.xb_rx.specs.PagedKeys.{KeyedIsPaged};
ghost use Rattle.xb_rx.specs.Differences.{SameKeysDoNotDiffer};
ghost use Rattle.xb_rx.specs.Constants.{AreConstants};

/// What is keyed is the page of what is heard, disturbed too: an entry for each keying, in order, and no key that is
/// in none.
pub fn keyed_is_paged()
    ensures { KeyedIsPaged }
{}

/// The keyings that are heard are compared as the keyed entries of the page that is written of them.
pub fn heard_is_paged()
    ensures { HeardIsPaged }
{}

/// Each of them is told at the time of its KP.
pub fn entries_are_at_their_kp()
    ensures { EntriesAreAtTheirKp }
{}

/// Among the objects of keys those of entries are one for each keying, in order.
pub fn objects_have_entries()
    ensures { ObjectsHaveEntries }
{}

/// There are no differences just where the keys are the same.
pub fn same_keys_do_not_differ()
    ensures { SameKeysDoNotDiffer }
{}

/// The numbers that documents name.
pub fn constants()
    ensures { AreConstants }
{}
