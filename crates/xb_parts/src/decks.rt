// Where the decks of parts go.
ghost use Rattle.std.specs.Prelude.{◌≡◌, ℕ, List, [], Option, None, Bool, true, IsTrue, OnOk};

use std::io;

/// The decks of parts, which are numbered from 0.
pub trait PartDecks {
    ghost use Rattle.xb_parts.specs.PartDecks.{Gets, only_for};

    // What each deck has, where it is known.
    ghost contents: { Self → ℕ → Option (List ℕ) } = { λ _ _. None };

    // Whether all that was written stays.
    ghost kept: { Self → Bool } = { λ _. true };

    /// Writes bytes to the end of the deck of a part. On an `Err` some of them may have been written.
    fn write(&mut self, part: usize, bytes: &[u8]) -> io::Result<()>
        ensures { OnOk result (Gets (only_for part bytes.now) (contents self.old) (contents self.new)) };

    /// Makes sure that all that was written stays, whatever happens next. On an `Err` some of it may be lost.
    fn keep(&mut self) -> io::Result<()>
        ensures kept { OnOk result (IsTrue (kept self.new)) }
        ensures same { OnOk result (Gets (λ _. []) (contents self.old) (contents self.new)) };
}
