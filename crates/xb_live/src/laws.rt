//! What the definitions give: each law is the contract of a function that does nothing.
ghost use Rattle.std.specs.Prelude.{◌≡◌, ◌-◌, ◌^◌, ℕ, List, Ok};
ghost use Rattle.xb_model.specs.LawfulLimits.{IsLawful};
ghost use Rattle.xb_model.specs.Rows.{LoopRow};
ghost use Rattle.xb_routes.specs.Table.{Table};
ghost use Rattle.xb_routes.specs.Text.{table_of_text};
ghost use Rattle.xb_live.specs.declared.counting.TheConstants.{MOST_ENTRIES};
ghost use Rattle.xb_live.specs.Ascending.{TimesAscend};
ghost use Rattle.xb_live.specs.Decks.{AcceptedRowsAreAll};
ghost use Rattle.xb_live.specs.LeftOut.{EventsLeftOut};
ghost use Rattle.xb_live.specs.LineHeard.{LineIsHeard};
ghost use Rattle.xb_live.specs.PageOfObjects.{ObjectsAreLines};

/// The rows of a deck that `mfbank` accepts are those that `mflive` takes: what it prints of them, sorted by
/// line and number, is the page of the deck.
#[tactic(auto, using(crate::proofs::Accepted::accepted_rows_are_all))]
pub fn accepted_rows_are_all()
    ensures { AcceptedRowsAreAll }
{}

/// The page's line of an entry is made of its object alone, with its times of day or without them: of each entry that
/// rows complete by a table that was read, whatever the rows.
pub fn objects_are_lines()
    ensures { (text : List ℕ) (table : Table) → table_of_text text ≡ Ok table →
        (rows : List LoopRow) → ObjectsAreLines table rows }
{}

/// What is printed with events is, without them, what is printed of the objects of entries alone: each event is an
/// object with a member `event`, and no entry is.
#[tactic(auto, using(crate::proofs::LeftOut::events_left_out))]
pub fn events_left_out()
    ensures { (table : Table) → IsLawful table.limits → (rows : List LoopRow) → EventsLeftOut table rows }
{}

/// Whatever the rows, an attempt begins no later than its entry is completed, and the entries of a line are told in
/// the order of their times.
#[tactic(auto, using(crate::proofs::AscendingTimes::times_ascend))]
pub fn times_ascend()
    ensures { (table : Table) (rows : List LoopRow) → TimesAscend table rows }
{}

/// Of the sound of a line's trunk a receiver hears just the keys that the line's rows so far are keyed as, by any
/// cadence that sets its tones apart, however the rows are cut and whatever the other lines do; and once the line is
/// closed, just those of its tape.
#[tactic(auto, using(crate::proofs::LineHeard::line_is_heard))]
pub fn line_is_heard()
    ensures { LineIsHeard }
{}

/// How many entries are counted at most.
pub fn constants()
    ensures most_entries { MOST_ENTRIES ≡ 2 ^ 64 - 1 }
{}
