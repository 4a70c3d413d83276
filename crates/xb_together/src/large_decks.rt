// From a large deck to its page, by the decks of its parts: laws that cite the laws below them.
ghost use Rattle.xb_together.specs.SplitDecks.{PlannedDecksMakeThePage, SplitDecksMakeThePage};
ghost use Rattle.xb_together.specs.WrittenDecks.{WrittenDecksMakeThePage};

use xb_office::laws::made_decks_say_their_page;

/// The pages that the decks of ranges of lines say, joined, are the page of all rows, where the ranges take
/// all lines and each deck is small enough.
pub fn split_decks_make_the_page()
    ensures { SplitDecksMakeThePage }
{
    made_decks_say_their_page();
}

/// The same for the ranges of a plan, by the counts of each line: each deck is then small enough.
pub fn planned_decks_make_the_page()
    ensures { PlannedDecksMakeThePage }
{
    split_decks_make_the_page();
}

/// The same for the decks that a split of a deck writes: where the page of each is what an office says of it,
/// they join to the page of that deck, however long the deck is. A deck that is split has a page: neither its
/// table nor its rows have a fault.
pub fn written_decks_make_the_page()
    ensures { WrittenDecksMakeThePage }
{
    planned_decks_make_the_page();
}
