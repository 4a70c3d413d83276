// The words of the faults of a split that no command line of `statuses.rt` has, as the table of faults has them.
use std::test::Fail;
use test_kit::check_texts;
use xb_deck::TableFault;
use xb_model::LineNo;
use xb_parts::{PlanFault, PlanPartsFault, SplitFault};

#[test]
fn words_of_faults(rt: HostRuntime) -> Result<(), Fail> {
    let line = LineNo::new(9999).ok_or("a line")?;
    let faults = &[
        (
            SplitFault::Plan(PlanPartsFault::Plan(PlanFault::Line(line))),
            "line 9999 has more than a part may have",
        ),
        (
            SplitFault::Plan(PlanPartsFault::Table),
            "the route table is too long",
        ),
        (
            SplitFault::Table(TableFault::TooLong(16_777_216)),
            "the route table is longer than 16777216 bytes",
        ),
        (
            SplitFault::Table(TableFault::Read),
            "the deck could not be read",
        ),
        (SplitFault::NoMemory, "out of memory"),
    ];
    check_texts(rt.alloc(), faults)
}
