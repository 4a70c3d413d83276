// The files of a split.
ghost use Rattle.std.specs.Prelude.{◌≡◌, ◌<◌, ◌⊎◌, ℕ, Bool, List, Option, None, Some, IfOk, IfSome, IsTrue, OnErr, OnOk, length};

use crate::decks::PartDecks;
use crate::range::LineRange;
use crate::split_fault::MakeFault;
use crate::split_words::SplitRequest;
use std::alloc::Global;
use std::io::{self, Read};

/// A deck that is split, and the folder of its parts.
///
/// What the contracts say of bytes holds for files whose bytes contracts know, which those of a system are
/// not.
pub trait SplitFiles {
    ghost use Rattle.std.specs.Io.KnownBytes.{Keeps};
    ghost use Rattle.xb_parts.specs.PartDecks.{Decks};
    ghost use Rattle.xb_parts.specs.Splits.{AreWhole, Begins, Ends, IsNamed, LeavesNone, ListsKept, Unfinished};

    /// A deck that is read from its beginning.
    type Deck: Read + Drop;

    /// The decks of parts that are made.
    type Parts: PartDecks + Drop;

    // The bytes of the file of a name, where they are known.
    ghost bytes: { Self → List ℕ → Option (List ℕ) } = { λ _ _. None };

    // What a deck has that was just made, where it is known.
    ghost fresh: { Self → Option (List ℕ) } = { λ _. None };

    // What the decks in a folder have, and its list of parts, once they have their names, where it is known.
    ghost named: { Self → List ℕ → Decks } = { λ _ _ _. None };

    ghost listed: { Self → List ℕ → Option (List ℕ) } = { λ _ _. None };

    // Whether a folder has anything in it, where it is known.
    ghost filled: { Self → List ℕ → Option Bool } = { λ _ _. None };

    // The folders whose decks were begun, and neither have their names nor are given up, where it is known.
    ghost unfinished: { Self → Unfinished } = { λ _. None };

    /// Opens the file of a deck.
    fn open(&self, alloc: Global, big: &str) -> io::Result<Self::Deck>
        ensures { IfOk result (λ deck.
            IfSome (bytes self.now big.now) (λ known. Self.Deck.remaining deck ≡ Some known)) };

    /// Whether a folder has anything in it; one that is not there has nothing.
    fn has_any(&self, alloc: Global, folder: &str) -> io::Result<bool>
        ensures { IfOk result (λ any. IfSome (filled self.now folder.now) (λ known. known ≡ any)) };

    /// Makes an empty deck for each range, under another name than the folder's. On an `Err` none is left.
    fn make(
        &mut self,
        alloc: Global,
        request: &SplitRequest<'_>,
        ranges: &[LineRange],
    ) -> Result<Self::Parts, MakeFault>
        ensures empty { IfOk result (λ parts. (i : ℕ) → i < length ranges.now
            → Self.Parts.contents parts i ≡ fresh self.old) }
        ensures fresh { fresh self.new ≡ fresh self.old }
        ensures deck { bytes self.new request.now.big.now ≡ bytes self.old request.now.big.now }
        ensures list { ListsKept (listed self.old) (listed self.new) }
        ensures begun { let folder = request.now.folder.now in
            OnOk result (Begins folder (unfinished self.old) (unfinished self.new)) }
        ensures none_left { OnErr result (LeavesNone (unfinished self.old) (unfinished self.new)) };

    /// Gives whole decks the name of their folder, and after that the list its own. On an `Err` they may have
    /// their names or not, and where they have not they are taken away, as far as that can be done.
    fn name(
        &mut self,
        alloc: Global,
        request: &SplitRequest<'_>,
        parts: Self::Parts,
        list: &str,
    ) -> io::Result<()>
        requires whole { AreWhole (bytes self.old request.now.big.now) (fresh self.old)
            (Self.Parts.contents parts) list.now }
        requires kept { IsTrue (Self.Parts.kept parts) }
        ensures named { OnOk result (IsNamed request.now.folder.now (Self.Parts.contents parts) list.now
            (named self.new) (listed self.old) (listed self.new)) }
        ensures maybe { (folder : List ℕ) → OnErr result
            (Keeps (listed self.old folder) (listed self.new folder)
            ⊎ IsNamed request.now.folder.now (Self.Parts.contents parts) list.now
            (named self.new) (listed self.old) (listed self.new)) }
        ensures ended { Ends request.now.folder.now (unfinished self.old) (unfinished self.new) };

    /// Takes away decks that are not whole, as far as that can be done.
    fn give_up(&mut self, alloc: Global, request: &SplitRequest<'_>, parts: Self::Parts)
        ensures list { ListsKept (listed self.old) (listed self.new) }
        ensures ended { Ends request.now.folder.now (unfinished self.old) (unfinished self.new) };
}
