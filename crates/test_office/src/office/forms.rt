// The short forms, written out.
use std::test::Fail;
use test_kit::attempts::OPERATOR_CALL;
use test_kit::decks::{TABLE, deck_of, one_after_another, page_of};

// What stands after the table in the deck of an operator call, whole.
const ROWS: &str = "---
line,state,ms
5,M,500
5,B,60
5,M,40
5,B,60
5,M,40
5,B,60
5,M,40
5,B,60
5,M,40
5,B,60
5,M,40
5,B,60
5,M,40
5,B,60
5,M,40
5,B,60
5,M,40
5,B,60
5,M,40
5,B,60
5,M,600
";

// Its page, whole.
const PAGE: &str = "0005 1 KEYED 0001 KP:1100+1700 0:1300+1500 ST:1500+1700
KEYED 1 REFUSED 0
";

#[test]
fn operator_call_is_written_out(rt: HostRuntime) -> Result<(), Fail> {
    let alloc = rt.alloc();
    let rows = one_after_another(alloc, &OPERATOR_CALL)?;
    let deck = deck_of(alloc, TABLE, &rows)?;
    assert_eq!(rt; deck.as_str().strip_prefix(TABLE), Some(ROWS));
    assert_eq!(rt; page_of(alloc, OPERATOR_CALL.page)?.as_str(), PAGE);
    Ok(())
}
