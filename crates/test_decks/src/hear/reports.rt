// Reports of a small deck, as a person reckoned them.
use crate::hear::statuses::Mfhear;
use std::test::Fail;
use test_kit::{Gives, check_status};

// Line 7 dials 0 with a make at its limit, line 8 a digit with a break over its limit, line 9 nothing, and line 10
// two such digits and a good one.
pub const DECK: &[u8] =
    b"[[route]]\ncode = \"0\"\ntrunk = 1\n[limits]\npulse_max = 90\n---\nline,state,ms\n\
9,B,100\n8,M,500\n7,B,700\n7,M,400\n7,B,60\n7,M,40\n7,B,60\n7,M,40\n7,B,60\n7,M,40\n7,B,60\n7,M,40\n7,B,60\n7,M,15\n\
7,B,60\n7,M,40\n7,B,60\n7,M,40\n7,B,60\n7,M,40\n7,B,60\n7,M,40\n7,B,60\n7,M,20000\n8,B,60\n8,M,30\n8,B,91\n8,M,200\n\
8,B,60\n8,M,20\n8,B,300\n7,C,0\n8,M,1\n10,M,500\n10,B,91\n10,M,200\n10,B,60\n10,M,40\n10,B,125\n10,M,600\n10,B,60\n\
10,M,200\n";

const LIMITS: &str =
    "limits in ms: break 20 to 90, make from 15, pause from 180, release from 300, time-out from 20000\n";

const SEVEN: &str = "\nline 0007, attempt 1 from 0.700 s, record 4: NUMBER 0
  digit  pulses    p/s  % break  break ms   make ms  pause ms
      0      10   10.3     61.7        60     15-40     20000
  nothing more is heard after a make of 20000 ms at 2.035 s, record 24
  the record ends
";

const EIGHT: &str = "\nline 0008, attempt 1 from 0.000 s, record 2: REFUSED MUTILATED 0
  digit  pulses    p/s  % break  break ms   make ms  pause ms
      x       2   11.1     66.7     60-91        30       200  break 91 ms > 90 at 0.590 s, record 27
  pulses that no pause ended: 1, from 0.881 s, record 29
  hung up for 300 ms at 0.961 s, record 31

line 0008, attempt 2 from 1.261 s, record 33: REFUSED ABANDONED 0
  the record ends
";

const TEN: &str = "\nline 0010, attempt 1 from 0.000 s, record 34: REFUSED MUTILATED 0
  digit  pulses    p/s  % break  break ms   make ms  pause ms
      x       1      -        -        91         -       200  break 91 ms > 90 at 0.500 s, record 35
      x       2   10.0     60.0    60-125        40       600  ignored; break 125 ms > 90 at 0.891 s, record 39
      1       1      -        -        60         -       200  ignored
  the record ends
";

const SEVEN_OBJECT: &str = "{\"attempt\":1,\
\"begins\":{\"from_ms\":700,\"ms\":400,\"record\":4,\"text_line\":11},\
\"digits\":[{\"breaks_ms\":{\"least\":60,\"most\":60},\"digit\":0,\"fault\":null,\
\"makes_ms\":{\"least\":15,\"most\":40},\"open_permille\":617,\"pause_ms\":20000,\
\"periods\":{\"count\":9,\"ms\":875,\"open_ms\":540},\"pulses\":10,\"speed_tenths\":103,\"taken\":true}],\
\"end\":{\"released\":null,\
\"timeout\":{\"from_ms\":2035,\"ms\":20000,\"record\":24,\"text_line\":31},\
\"unfinished\":null,\"unfinished_pulses\":0},\
\"heard\":1,\"line\":7,\"number\":\"0\",\"outcome\":\"NUMBER\",\"reason\":null}
";

const EIGHT_OBJECTS: &str = "{\"attempt\":1,\
\"begins\":{\"from_ms\":0,\"ms\":500,\"record\":2,\"text_line\":9},\
\"digits\":[{\"breaks_ms\":{\"least\":60,\"most\":91},\"digit\":null,\
\"fault\":{\"from_ms\":590,\"kind\":\"LONG_BREAK\",\"limit\":90,\"ms\":91,\"record\":27,\"text_line\":34},\
\"makes_ms\":{\"least\":30,\"most\":30},\"open_permille\":667,\"pause_ms\":200,\
\"periods\":{\"count\":1,\"ms\":90,\"open_ms\":60},\"pulses\":2,\"speed_tenths\":111,\"taken\":true}],\
\"end\":{\"released\":{\"from_ms\":961,\"ms\":300,\"record\":31,\"text_line\":38},\"timeout\":null,\
\"unfinished\":{\"from_ms\":881,\"ms\":60,\"record\":29,\"text_line\":36},\"unfinished_pulses\":1},\
\"heard\":0,\"line\":8,\"number\":null,\"outcome\":\"REFUSED\",\"reason\":\"MUTILATED\"}
{\"attempt\":2,\"begins\":{\"from_ms\":1261,\"ms\":1,\"record\":33,\"text_line\":40},\"digits\":[],\
\"end\":{\"released\":null,\"timeout\":null,\"unfinished\":null,\"unfinished_pulses\":0},\
\"heard\":0,\"line\":8,\"number\":null,\"outcome\":\"REFUSED\",\"reason\":\"ABANDONED\"}
";

// A deck whose figures are as wide as its limits let them be: line 1 waits twelve days after a digit, and the breaks
// and makes of line 3 last up to 1,000 s.
const WIDE: &[u8] =
    b"[[route]]\ncode = \"0\"\ntrunk = 1\n[limits]\npulse_max = 973422\nmake_min = 1\npause = 999999\n\
release = 1000000\ntimeout = 1000000\n---\nline,state,ms\n\
3,M,500\n3,B,973422\n3,M,1\n3,B,382049\n3,M,999998\n3,B,500000\n3,M,999999\n1,M,500\n1,B,60\n\
1,M,86400000\n1,M,86400000\n1,M,86400000\n1,M,86400000\n1,M,86400000\n1,M,86400000\n\
1,M,86400000\n1,M,86400000\n1,M,86400000\n1,M,86400000\n1,M,86400000\n1,M,86400000\n";

const OF_WIDE: &str =
    "limits in ms: break 20 to 973422, make from 1, pause from 999999, release from 1000000, time-out from 1000000

line 0001, attempt 1 from 0.000 s, record 8: REFUSED TIMEDOUT 1
  digit  pulses    p/s  % break  break ms   make ms  pause ms
      1       1      -        -        60         -  1036800000
  timed out by a make of 1036800000 ms at 0.560 s, record 10
  the record ends

line 0003, attempt 1 from 0.000 s, record 1: REFUSED ABANDONED 1
  digit  pulses    p/s  % break  break ms   make ms  pause ms
      3       3    0.0     57.5  382049-973422  1-999998    999999
  the record ends
";

/// A recording of a loop that dials 2: it is closed after half a second.
pub const CALL: &[u8] = b"0,0\n0.5,1\n1.1,0\n1.16,1\n1.2,0\n1.26,1\n2.0,1\n";

const OF_CALL: &str =
    "limits in ms: break 20 to 119, make from 15, pause from 180, release from 300, time-out from 20000

line 0007, attempt 1 from 0.500 s, record 2: REFUSED ABANDONED 1
  digit  pulses    p/s  % break  break ms   make ms  pause ms
      2       2   10.0     60.0        60        40       740
  the record ends
";

// The same, by that table.
const BY_A_TABLE: &str =
    "limits in ms: break 20 to 50, make from 15, pause from 180, release from 300, time-out from 20000

line 0007, attempt 1 from 0.500 s, record 2: REFUSED MUTILATED 0
  digit  pulses    p/s  % break  break ms   make ms  pause ms
      x       2   10.0     60.0        60        40       740  break 60 ms > 50 at 1.100 s, record 3
  the record ends
";

/// A table in which a break of 60 ms is too long.
pub const SHORT: &[u8] = b"[limits]\npulse_max = 50";

const OBJECT_OF_CALL: &str = "{\"attempt\":1,\
\"begins\":{\"from_ms\":500,\"ms\":600,\"record\":2,\"text_line\":4},\
\"digits\":[{\"breaks_ms\":{\"least\":60,\"most\":60},\"digit\":2,\"fault\":null,\
\"makes_ms\":{\"least\":40,\"most\":40},\"open_permille\":600,\"pause_ms\":740,\
\"periods\":{\"count\":1,\"ms\":100,\"open_ms\":60},\"pulses\":2,\"speed_tenths\":100,\"taken\":true}],\
\"end\":{\"released\":null,\"timeout\":null,\"unfinished\":null,\"unfinished_pulses\":0},\
\"heard\":1,\"line\":7,\"number\":null,\"outcome\":\"REFUSED\",\"reason\":\"ABANDONED\"}
";

// A deck or a recording, the words after the program's name, and the parts of the report or its objects.
const REPORTS: &[(&[u8], &[&str], &[&str])] = &[
    (DECK, &[], &[LIMITS, SEVEN, EIGHT, TEN]),
    (DECK, &["--line", "7"], &[LIMITS, SEVEN]),
    (DECK, &["--line=8"], &[LIMITS, EIGHT]),
    (DECK, &["--refused"], &[LIMITS, EIGHT, TEN]),
    (WIDE, &[], &[OF_WIDE]),
    (DECK, &["--json", "--line", "7"], &[SEVEN_OBJECT]),
    (DECK, &["--line=8", "--json"], &[EIGHT_OBJECTS]),
    (CALL, &["--wire", "7=1"], &[OF_CALL]),
    (b"", &["--wire=7=1", "call.csv", "--line=7"], &[OF_CALL]),
    (
        CALL,
        &["--wire", "7=1", "--table", "short.toml"],
        &[BY_A_TABLE],
    ),
    (CALL, &["--json", "--wire", "7=1", "-"], &[OBJECT_OF_CALL]),
];

#[test]
fn reports_as_reckoned(rt: HostRuntime) -> Result<(), Fail> {
    for (deck, words, parts) in REPORTS {
        let mut want = String::new(rt.alloc());
        for part in *parts {
            want.push_str(part)?;
        }
        let wanted = Gives::page(want.as_bytes());
        check_status(rt.alloc(), &Mfhear, words, deck, wanted)?;
    }
    Ok(())
}
