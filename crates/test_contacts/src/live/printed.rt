// What is printed of a line's rows.
use crate::live::called::Mflive;
use std::alloc::Global;
use std::test::Fail;
use test_kit::decks::deck_of;
use test_kit::pulses::rows_of;
use test_kit::{Gives, check_status};

// Numbers that begin with 0 go to trunk group 1.
const TABLE: &str = "[[route]]\ncode = \"0\"\ntrunk = 1\n";

// What line 7 does, beside when and why the page refuses it: 41 and a train of three breaks in which one is too short,
// after 500 ms; 555 1234, to which no route leads; 2, and then nothing until the time-out.
const REFUSED: &str =
    "B500 M500 #4 #1 B60 M40 B9 M600 B400 M500 #5 #5 #5 #1 #2 #3 #4 B400 M500 #2 M20000";

// Of these runs, reckoned by adding them up.
const OBJECTS: &[u8] =
    b"{\"at_ms\":3329,\"dialled\":\"41\",\"entry\":1,\"from_ms\":500,\"heard\":2,\"line\":7,\
\"outcome\":\"REFUSED\",\"reason\":\"MUTILATED\"}\n\
{\"at_ms\":10649,\"dialled\":\"5551234\",\"entry\":2,\"from_ms\":3729,\"heard\":7,\"line\":7,\
\"outcome\":\"REFUSED\",\"reason\":\"UNKNOWN\"}\n\
{\"at_ms\":32309,\"dialled\":\"2\",\"entry\":3,\"from_ms\":11049,\"heard\":1,\"line\":7,\
\"outcome\":\"REFUSED\",\"reason\":\"TIMEDOUT\"}\n{\"keyed\":0,\"refused\":3}\n";

// The deck of line 7 alone.
fn deck_of_line(alloc: Global, runs: &str) -> Result<String, Fail> {
    let rows = rows_of(alloc, 7, runs)?;
    deck_of(alloc, TABLE, &rows)
}

// With their events, each after the runs before it.
const EVENTS: &[u8] = b"{\"at_ms\":1000,\"event\":\"SEIZED\",\"line\":7}\n\
{\"at_ms\":1960,\"dialled\":\"4\",\"digit\":4,\"event\":\"DIGIT\",\"line\":7}\n\
{\"at_ms\":2620,\"dialled\":\"41\",\"digit\":1,\"event\":\"DIGIT\",\"line\":7}\n\
{\"at_ms\":3329,\"dialled\":\"41\",\"digit\":null,\"event\":\"DIGIT\",\"line\":7}\n\
{\"at_ms\":3329,\"dialled\":\"41\",\"entry\":1,\"from_ms\":500,\"heard\":2,\"line\":7,\
\"outcome\":\"REFUSED\",\"reason\":\"MUTILATED\"}\n\
{\"at_ms\":3729,\"event\":\"RELEASED\",\"line\":7}\n\
{\"at_ms\":4229,\"event\":\"SEIZED\",\"line\":7}\n\
{\"at_ms\":5289,\"dialled\":\"5\",\"digit\":5,\"event\":\"DIGIT\",\"line\":7}\n\
{\"at_ms\":6349,\"dialled\":\"55\",\"digit\":5,\"event\":\"DIGIT\",\"line\":7}\n\
{\"at_ms\":7409,\"dialled\":\"555\",\"digit\":5,\"event\":\"DIGIT\",\"line\":7}\n\
{\"at_ms\":8069,\"dialled\":\"5551\",\"digit\":1,\"event\":\"DIGIT\",\"line\":7}\n\
{\"at_ms\":8829,\"dialled\":\"55512\",\"digit\":2,\"event\":\"DIGIT\",\"line\":7}\n\
{\"at_ms\":9689,\"dialled\":\"555123\",\"digit\":3,\"event\":\"DIGIT\",\"line\":7}\n\
{\"at_ms\":10649,\"dialled\":\"5551234\",\"digit\":4,\"event\":\"DIGIT\",\"line\":7}\n\
{\"at_ms\":10649,\"dialled\":\"5551234\",\"entry\":2,\"from_ms\":3729,\"heard\":7,\"line\":7,\
\"outcome\":\"REFUSED\",\"reason\":\"UNKNOWN\"}\n\
{\"at_ms\":11049,\"event\":\"RELEASED\",\"line\":7}\n\
{\"at_ms\":11549,\"event\":\"SEIZED\",\"line\":7}\n\
{\"at_ms\":12309,\"dialled\":\"2\",\"digit\":2,\"event\":\"DIGIT\",\"line\":7}\n\
{\"at_ms\":32309,\"event\":\"TIMEDOUT\",\"line\":7}\n\
{\"at_ms\":32309,\"dialled\":\"2\",\"entry\":3,\"from_ms\":11049,\"heard\":1,\"line\":7,\
\"outcome\":\"REFUSED\",\"reason\":\"TIMEDOUT\"}\n{\"keyed\":0,\"refused\":3}\n";

#[test]
fn tells_when_and_what_was_dialled(rt: HostRuntime) -> Result<(), Fail> {
    let deck = deck_of_line(rt.alloc(), REFUSED)?;
    for (word, printed) in [("--json", OBJECTS), ("--events", EVENTS)] {
        check_status(
            rt.alloc(),
            &Mflive,
            &[word],
            deck.as_bytes(),
            Gives::page(printed),
        )?;
    }
    Ok(())
}
