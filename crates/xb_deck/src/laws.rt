//! What the definitions give: each law is the contract of a function that does nothing.
ghost use Rattle.xb_deck.specs.Constants.{MostDeckBytesIsRight};
ghost use Rattle.xb_deck.specs.MadeDecks.{MadeDecksAreCut};
ghost use Rattle.xb_deck.specs.WorkedDecks.{CutsOfDecks, DecksWithoutCut};

/// The most bytes of a deck, as it is.
pub fn constants()
    ensures { MostDeckBytesIsRight }
{}

/// Where some decks are cut.
pub fn cuts_of_decks()
    ensures cut { CutsOfDecks }
    ensures no_cut { DecksWithoutCut }
{}

/// A table, the line that cuts, and rows are cut into the table and the rows.
#[tactic(auto, using(crate::proofs::MadeDecks::made_decks_are_cut))]
pub fn made_decks_are_cut()
    ensures { MadeDecksAreCut }
{}
