// The operator call's deck, cut after each of its bytes.
use crate::office::office::{Gives, check, usual_deck};
use std::alloc::Global;
use std::process::Abort;
use std::sync::Wait;
use std::test::Fail;
use std::thread::Threads;
use std::time::Clock;
use test_kit::attempts::OPERATOR_CALL;
use test_kit::decks::TABLE;
use xb_model::RowFault;
use xb_office::OfficeFault;

const NO_ENTRIES: Gives = Ok(&["KEYED 0 REFUSED 0"]);

const ABANDONED: Gives = Ok(&["0005 1 REFUSED ABANDONED 0", "KEYED 0 REFUSED 1"]);

/// What stands after the table up to the end of the header's fields.
const TO_THE_HEADER: &str = "---\nline,state,ms";

/// The last record, whose make ends the digit.
const LAST_RECORD: &str = "5,M,600";

/// How many records the deck has.
const RECORDS: usize = 21;

// What comes of whole records: the first seizes, and none but the last ends the digit.
fn gives_of_records(records: usize) -> Gives {
    match records {
        0 => NO_ENTRIES,
        RECORDS => Ok(OPERATOR_CALL.page),
        _ => ABANDONED,
    }
}

// What comes of whole records and a piece of the next. A piece that has a part of its time is a shorter row.
fn gives_of_piece(records: usize, piece: &str) -> Gives {
    let number = records.saturating_add(1) as u64;
    match piece.len() {
        0 => gives_of_records(records),
        1..=3 => Err(OfficeFault::Rows(RowFault::Fields(number))),
        4 => Err(OfficeFault::Rows(RowFault::Ms(number))),
        _ if piece == LAST_RECORD => gives_of_records(RECORDS),
        _ => ABANDONED,
    }
}

// What comes of the deck where this is left after its table.
fn gives_of_rest(rest: &str) -> Gives {
    if rest.len() < 3 {
        return Err(OfficeFault::NoCut);
    }
    match rest.strip_prefix(TO_THE_HEADER) {
        None => Err(OfficeFault::Rows(RowFault::Header)),
        Some(records) => match records.rsplit_once('\n') {
            None => NO_ENTRIES,
            Some((whole, piece)) => gives_of_piece(
                whole.split('\n').count().saturating_sub(1),
                piece,
            ),
        },
    }
}

// The deck up to a byte gives what its beginning says.
fn check_cut<H: Threads + Wait + Clock + Abort + Sync>(
    rt: &H,
    alloc: Global,
    deck: &str,
    end: usize,
) -> Result<(), Fail> {
    let beginning = deck.get(..end).ok_or("no beginning")?;
    let rest = beginning.strip_prefix(TABLE).unwrap_or("");
    check(
        rt,
        alloc,
        beginning,
        beginning.as_bytes(),
        gives_of_rest(rest),
    )
}

#[test]
fn cut_decks(rt: HostRuntime) -> Result<(), Fail> {
    let deck = usual_deck(rt.alloc(), &OPERATOR_CALL)?;
    for end in 0..=deck.len() {
        check_cut(&rt, rt.alloc(), deck.as_str(), end)?;
    }
    Ok(())
}
