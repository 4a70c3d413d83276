// What the office gives for a deck.
ghost use Rattle.std.specs.Prelude.{◌≤◌};

use std::alloc::Global;
use std::io::{Read, Write};
use std::process::Abort;
use std::sync::Wait;
use std::test::Fail;
use std::thread::Threads;
use std::time::Clock;
use test_kit::decks::{TABLE, Worked, check_page, deck_of, one_after_another};
use xb_office::{OfficeFault, operate};
use xb_ring::{GREATEST_CAPACITY, MOST_BRANCHES};

/// The lines of a page in its short form, or a fault without a page.
pub type Gives = Result<&'static [&'static str], OfficeFault>;

/// `operate`. Its contract is wide, and is read here alone.
pub fn operate_on<R: Read, W: Write, H: Threads + Wait + Clock + Sync>(
    rt: &H,
    alloc: Global,
    deck: &mut R,
    out: &mut W,
    senders: usize,
    ring: usize,
) -> Result<(), OfficeFault>
    requires senders { (1 ≤ senders) × (senders ≤ MOST_BRANCHES) }
    requires ring { (1 ≤ ring) × (ring ≤ GREATEST_CAPACITY) }
{
    operate(rt, alloc, deck, out, senders, ring)
}

/// The deck of a worked example under the usual table.
pub fn usual_deck(alloc: Global, worked: &Worked) -> Result<String, Fail> {
    let rows = one_after_another(alloc, worked)?;
    deck_of(alloc, TABLE, &rows)
}

// What was written, and the fault, are what the deck gives.
fn check_given(
    rt: &impl Abort,
    alloc: Global,
    name: &str,
    got: (Option<OfficeFault>, &[u8]),
    gives: Gives,
) -> Result<(), Fail> {
    let (fault, page) = got;
    assert_eq!(rt; fault, gives.err(), "{name}");
    match gives {
        Ok(lines) => check_page(alloc, name, page, lines),
        Err(_) => check_page(alloc, name, page, &[]),
    }
}

/// The deck gives this page, or this fault and no page.
pub fn check<H: Threads + Wait + Clock + Abort + Sync>(
    rt: &H,
    alloc: Global,
    name: &str,
    deck: &[u8],
    gives: Gives,
) -> Result<(), Fail> {
    let mut reader = deck;
    let mut page: Vec<u8> = Vec::new(alloc);
    let fault = operate_on(rt, alloc, &mut reader, &mut page, 4, 1_024).err();
    check_given(rt, alloc, name, (fault, &page), gives)
}
