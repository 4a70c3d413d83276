// Each of the 10,000 lines seizes, and their page has over 100 kB.
use crate::office::office::operate_on;
use std::alloc::Global;
use std::process::Abort;
use std::sync::Wait;
use std::test::Fail;
use std::thread::Threads;
use std::time::Clock;

fn push_seizure(deck: &mut String, line: u32) -> Result<(), Fail> {
    Ok(writeln!(deck, "{line},M,500")?)
}

fn push_refusal(page: &mut String, line: u32) -> Result<(), Fail> {
    Ok(writeln!(page, "{line:04} 1 REFUSED ABANDONED 0")?)
}

fn deck_of_lines(alloc: Global) -> Result<String, Fail> {
    let mut deck = "---\nline,state,ms\n".to_string(alloc)?;
    for line in 0..10_000u32 {
        push_seizure(&mut deck, line)?;
    }
    Ok(deck)
}

fn page_of_lines(alloc: Global) -> Result<String, Fail> {
    let mut page = String::new(alloc);
    for line in 0..10_000u32 {
        push_refusal(&mut page, line)?;
    }
    page.push_str("KEYED 0 REFUSED 10000\n")?;
    Ok(page)
}

fn check_lines<H: Threads + Wait + Clock + Abort + Sync>(
    rt: &H,
    alloc: Global,
    deck: &str,
    page: &str,
) -> Result<(), Fail> {
    let mut reader = deck.as_bytes();
    let mut written: Vec<u8> = Vec::new(alloc);
    operate_on(rt, alloc, &mut reader, &mut written, 4, 1_024)?;
    assert!(rt; written.len() > 100_000);
    assert!(rt; written.as_slice() == page.as_bytes());
    Ok(())
}

#[test]
fn ten_thousand_lines(rt: HostRuntime) -> Result<(), Fail> {
    let deck = deck_of_lines(rt.alloc())?;
    let page = page_of_lines(rt.alloc())?;
    check_lines(&rt, rt.alloc(), deck.as_str(), page.as_str())
}
