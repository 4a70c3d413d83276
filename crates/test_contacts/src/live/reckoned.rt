// A small deck, and what a person reckoned of it.
use std::alloc::{AllocError, Global};

/// Line 7 dials 0, which record 22 completes, and line 9 hangs up in record 23.
pub const BEGINNING: &[u8] =
    b"[[route]]\ncode = \"0\"\ntrunk = 1\n---\nline,state,ms\n9,M,500\n7,M,500\n\
7,B,60\n7,M,40\n7,B,60\n7,M,40\n7,B,60\n7,M,40\n7,B,60\n7,M,40\n7,B,60\n7,M,40\n7,B,60\n7,M,40\n\
7,B,60\n7,M,40\n7,B,60\n7,M,40\n7,B,60\n7,M,40\n7,B,60\n7,M,600\n9,B,400\n";

/// Line 7 hangs up, and is seized again; the deck ends.
pub const END: &[u8] = b"7,B,400\n7,M,500\n";

/// The entry of record 22.
pub const KEYED: &[u8] = b"0007 1 KEYED 0001 KP:1100+1700 0:1300+1500 ST:1500+1700\n";

/// The same, each mark by itself.
pub const MARKS: &[u8] =
    b"0007 1 KEYED 0001\n0007 1 KP:1100+1700\n0007 1 0:1300+1500\n0007 1 ST:1500+1700\n";

/// The entry of record 23.
pub const REFUSED: &[u8] = b"0009 1 REFUSED ABANDONED 0\n";

/// The entry of the end, and the totals.
pub const LAST: &[u8] = b"0007 2 REFUSED ABANDONED 0\nKEYED 1 REFUSED 2\n";

/// The objects of these entries, and of the totals. Line 7 was seized at once, and its digit ends 2060 ms later;
/// it hung up for 400 ms, and the close ends its second attempt after 500 more.
pub const OBJECTS: &[u8] = b"{\"at_ms\":2060,\"dialled\":\"0\",\"entry\":1,\"from_ms\":0,\
\"keys\":[\"KP\",\"0\",\"ST\"],\"line\":7,\"outcome\":\"KEYED\",\"sent\":\"0\",\"trunk\":1}\n\
{\"at_ms\":900,\"dialled\":\"\",\"entry\":1,\"from_ms\":0,\"heard\":0,\"line\":9,\
\"outcome\":\"REFUSED\",\"reason\":\"ABANDONED\"}\n\
{\"at_ms\":2960,\"dialled\":\"\",\"entry\":2,\"from_ms\":2460,\"heard\":0,\"line\":7,\
\"outcome\":\"REFUSED\",\"reason\":\"ABANDONED\"}\n{\"keyed\":1,\"refused\":2}\n";

/// Those objects, where the rows begin 2 s before a year ends.
pub const TIMED_OBJECTS: &[u8] =
    b"{\"at\":\"2027-01-01T00:00:00.06Z\",\"at_ms\":2060,\"dialled\":\"0\",\"entry\":1,\
\"from\":\"2026-12-31T23:59:58Z\",\"from_ms\":0,\"keys\":[\"KP\",\"0\",\"ST\"],\"line\":7,\
\"outcome\":\"KEYED\",\"sent\":\"0\",\"trunk\":1}\n\
{\"at\":\"2026-12-31T23:59:58.9Z\",\"at_ms\":900,\"dialled\":\"\",\"entry\":1,\
\"from\":\"2026-12-31T23:59:58Z\",\"from_ms\":0,\"heard\":0,\"line\":9,\
\"outcome\":\"REFUSED\",\"reason\":\"ABANDONED\"}\n\
{\"at\":\"2027-01-01T00:00:00.96Z\",\"at_ms\":2960,\"dialled\":\"\",\"entry\":2,\
\"from\":\"2027-01-01T00:00:00.46Z\",\"from_ms\":2460,\"heard\":0,\"line\":7,\
\"outcome\":\"REFUSED\",\"reason\":\"ABANDONED\"}\n{\"keyed\":1,\"refused\":2}\n";

/// The objects of their marks, and of the totals.
pub const MARK_OBJECTS: &[u8] = b"{\"at_ms\":2060,\"entry\":1,\"line\":7,\"trunk\":1}\n\
{\"at_ms\":2060,\"entry\":1,\"high_hz\":1700,\"key\":\"KP\",\"line\":7,\"low_hz\":1100}\n\
{\"at_ms\":2060,\"entry\":1,\"high_hz\":1500,\"key\":\"0\",\"line\":7,\"low_hz\":1300}\n\
{\"at_ms\":2060,\"entry\":1,\"high_hz\":1700,\"key\":\"ST\",\"line\":7,\"low_hz\":1500}\n\
{\"at_ms\":900,\"entry\":1,\"heard\":0,\"line\":9,\"reason\":\"ABANDONED\"}\n\
{\"at_ms\":2960,\"entry\":2,\"heard\":0,\"line\":7,\"reason\":\"ABANDONED\"}\n\
{\"keyed\":1,\"refused\":2}\n";

/// The events of lines 9 and 7 up to record 2, where the rows begin in the last second that there is.
pub const LAST_EVENTS: &[u8] =
    b"{\"at\":\"9999-12-30T22:00:00.5Z\",\"at_ms\":500,\"event\":\"SEIZED\",\"line\":9}\n\
{\"at\":\"9999-12-30T22:00:00.5Z\",\"at_ms\":500,\"event\":\"SEIZED\",\"line\":7}\n";

/// The objects of the beginning with the events: a seizure of each line; the digit 0, which completes the entry;
/// and the release of line 9.
pub const EVENTS: &[u8] = b"{\"at_ms\":500,\"event\":\"SEIZED\",\"line\":9}\n\
{\"at_ms\":500,\"event\":\"SEIZED\",\"line\":7}\n\
{\"at_ms\":2060,\"dialled\":\"0\",\"digit\":0,\"event\":\"DIGIT\",\"line\":7}\n\
{\"at_ms\":2060,\"dialled\":\"0\",\"entry\":1,\"from_ms\":0,\"keys\":[\"KP\",\"0\",\"ST\"],\"line\":7,\
\"outcome\":\"KEYED\",\"sent\":\"0\",\"trunk\":1}\n\
{\"at_ms\":900,\"event\":\"RELEASED\",\"line\":9}\n\
{\"at_ms\":900,\"dialled\":\"\",\"entry\":1,\"from_ms\":0,\"heard\":0,\"line\":9,\
\"outcome\":\"REFUSED\",\"reason\":\"ABANDONED\"}\n";

/// Those after it: line 7 is released 400 ms after its digit, and seized again 500 ms later.
pub const END_EVENTS: &[u8] = b"{\"at_ms\":2460,\"event\":\"RELEASED\",\"line\":7}\n\
{\"at_ms\":2960,\"event\":\"SEIZED\",\"line\":7}\n\
{\"at_ms\":2960,\"dialled\":\"\",\"entry\":2,\"from_ms\":2460,\"heard\":0,\"line\":7,\
\"outcome\":\"REFUSED\",\"reason\":\"ABANDONED\"}\n{\"keyed\":1,\"refused\":2}\n";

/// Texts, one after the other.
pub fn joined(alloc: Global, parts: &[&[u8]]) -> Result<Vec<u8>, AllocError> {
    let mut all = Vec::new(alloc);
    for part in parts {
        all.extend_from_slice(part)?;
    }
    Ok(all)
}
