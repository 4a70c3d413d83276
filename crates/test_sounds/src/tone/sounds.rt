// Sounds, byte for byte as another program computed them from sines of its own.
use crate::tone::statuses::Mftone;
use std::test::Fail;
use test_kit::attended;

pub const PAGE: &[u8] = b"0007 1 REFUSED UNKNOWN 3\n\
0007 2 KEYED 0017 KP:1100+1700 0:1300+1500 ST:1500+1700\n\
0042 1 KEYED 0001 KP:1100+1700 ST:1500+1700\n\
KEYED 2 REFUSED 1\n";

// Each key once.
const KEYS: &[u8] = b"9999 1 KEYED 9999 KP:1100+1700 1:700+900 2:700+1100 3:900+1100 4:700+1300 \
5:900+1300 6:1100+1300 7:700+1500 8:900+1500 9:1100+1500 0:1300+1500 ST:1500+1700\n\
KEYED 1 REFUSED 0\n";

// The words after the program's name, the page, and how many bytes sound and their Adler-32.
const SOUNDS: &[(&[&str], &[u8], usize, u64)] = &[
    (&[], PAGE, 27_948, 1_029_790_321),
    (&["--line", "7"], PAGE, 15_084, 3_826_889_742),
    (&["--line", "7", "--entry=2"], PAGE, 15_084, 3_826_889_742),
    (
        &["--line", "42", "--format=s16"],
        PAGE,
        12_864,
        3_948_783_471,
    ),
    (
        &[
            "--line", "42", "--lead", "0", "--kp", "58", "--key", "46", "--gap", "38", "--format",
            "s16",
        ],
        PAGE,
        2_880,
        474_995_917,
    ),
    (&[], KEYS, 34_668, 2_547_131_247),
    // of words of keys the page is not read
    (&["--keys", "KP 555 1212 ST"], PAGE, 28_140, 2_473_321_648),
    (
        &["--keys", "KP2 40 ST' ST'' ST''' "],
        PAGE,
        21_612,
        605_061_752,
    ),
    (
        &["--keys", "2600:500 silence:30 2400+2600:1000 1+3999:20"],
        PAGE,
        32_844,
        245_728_582,
    ),
    (
        &["--format=s16", "--keys=  KP 7 ST"],
        PAGE,
        15_040,
        1_517_650_664,
    ),
    (
        &["--keys", "KP 555 1212 ST", "--level=-20.5", "--twist=3"],
        PAGE,
        28_140,
        3_467_681_537,
    ),
    (
        &[
            "--keys",
            "KP 555 1212 ST",
            "--noise-peak",
            "277",
            "--seed=7",
        ],
        PAGE,
        28_140,
        473_936_960,
    ),
    (
        &[
            "--keys=KP 555 1212 ST",
            "--detune=-1.5",
            "--skew=-3",
            "--hole=10@20",
            "--noise-peak=50",
        ],
        PAGE,
        28_140,
        1_485_428_412,
    ),
    (
        &[
            "--keys=KP 555 1212 ST",
            "--detune=50",
            "--skew=8",
            "--hole=7@0",
        ],
        PAGE,
        28_140,
        3_928_940_346,
    ),
    (
        &["--keys=KP 555 1212 ST", "--tone=2600:-13", "--hum=-20"],
        PAGE,
        28_140,
        3_750_528_828,
    ),
    (
        &[
            "--keys=KP 555 1212 ST",
            "--tone=300:-7.2",
            "--hum=-7.2",
            "--clip",
            "--seed=3",
            "--noise-peak=9",
            "--skew=2",
        ],
        PAGE,
        28_140,
        2_150_599_206,
    ),
    (
        &[
            "--keys=KP 555 1212 ST",
            "--phase",
            "--seed=5",
            "--skew=1",
            "--detune=1.5",
        ],
        PAGE,
        28_140,
        3_423_523_222,
    ),
    (
        &[
            "--keys=KP 7",
            "--level=0",
            "--twist=-39.9",
            "--clip",
            "--noise-peak=20000",
            "--seed=4294967295",
        ],
        PAGE,
        12_908,
        2_107_437_560,
    ),
    // by mu-law: a WAV file and bytes alone, and noise over the whole range
    (
        &["--keys", "KP 555 1212 ST", "--format=wav-ulaw"],
        PAGE,
        14_106,
        1_965_419_141,
    ),
    (
        &["--format=ulaw", "--keys=KP 7 ST"],
        PAGE,
        7_520,
        4_091_105_703,
    ),
    (
        &[
            "--format=wav-ulaw",
            "--keys=KP 7",
            "--level=0",
            "--twist=-39.9",
            "--clip",
            "--noise-peak=20000",
            "--seed=4294967295",
        ],
        PAGE,
        6_490,
        3_337_914_490,
    ),
];

// The Adler-32 of bytes.
fn adler(bytes: &[u8]) -> u64 {
    let (mut a, mut b) = (1u64, 0u64);
    for byte in bytes {
        a = a.saturating_add(u64::from(*byte)) % 65_521;
        b = b.saturating_add(a) % 65_521;
    }
    b.saturating_mul(65_536).saturating_add(a)
}

#[test]
fn sounds_as_computed(rt: HostRuntime) -> Result<(), Fail> {
    for (words, page, length, sum) in SOUNDS {
        let gave = attended(rt.alloc(), &Mftone, words, page)?;
        assert_eq!(rt; gave.status, 0, "{words:?}");
        assert!(rt; gave.line.is_empty(), "{words:?}");
        assert_eq!(rt; gave.written.len(), *length, "{words:?}");
        assert_eq!(rt; adler(&gave.written), *sum, "{words:?}");
    }
    Ok(())
}
