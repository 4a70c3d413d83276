// Entries that lie in time, by places that were reckoned by hand.
use crate::tone::calling::sounded;
use std::alloc::Global;
use std::io::ErrorKind;
use std::test::Fail;
use test_kit::{Short, words_of};

// Line 7 keys a 5 on trunk group 17 at 1,000 ms, and again at 1,150 ms; in between line 8 is refused.
const ENTRIES: &[u8] =
    b"{\"at_ms\":1000,\"dialled\":\"5\",\"entry\":1,\"from_ms\":1,\"keys\":[\"KP\",\"5\",\"ST\"],\"line\":7,\"outcome\":\"KEYED\",\"sent\":\"5\",\"trunk\":17}\n\
{\"at_ms\":1100,\"event\":\"SEIZED\",\"line\":7}\n\
{\"at_ms\":30,\"dialled\":\"\",\"entry\":1,\"from_ms\":1,\"heard\":0,\"line\":8,\"outcome\":\"REFUSED\",\"reason\":\"MUTILATED\"}\n\
{\"at_ms\":1150,\"dialled\":\"5\",\"entry\":2,\"from_ms\":1,\"keys\":[\"KP\",\"5\",\"ST\"],\"line\":7,\"outcome\":\"KEYED\",\"sent\":\"5\",\"trunk\":17}\n\
{\"keyed\":2,\"refused\":1}\n";

// The words after the program's name, how many samples sound, and the places of the samples that are not silent, of
// which each part is told by its first and its last.
const PLACES: &[(&[&str], usize, &[(usize, usize)], &[u8])] = &[
    // a KP of 100 ms begins after 1,000 ms and a lead of 1,000 ms, with a sample of 0, and its last sample is its 800th;
    // the digit begins 68 ms after it, and ST, after which 68 ms are silent, 136 ms later
    (
        &["--timed", "--entry", "1", "--line", "7", "--lead", "1000"],
        2_440 * 8,
        &[(16_001, 16_799), (17_345, 17_887), (18_433, 18_975)],
        b"",
    ),
    // the first entry has 100 ms of KP, and 50 ms of the digit; the lead of the second one is 0
    (
        &["--timed", "--lead", "0", "--gap", "0"],
        (1_150 + 236) * 8,
        &[(8_001, 9_199), (9_201, 11_087)],
        b"mftone: entry 1 of line 7 is cut at 1150 ms by entry 2 of line 7\n",
    ),
];

// Whether a sample of a raw sound is not 0.
fn is_loud(sound: &[u8], place: usize) -> bool {
    let at = place.saturating_mul(2);
    sound.get(at..at.saturating_add(2)) != Some(&[0, 0])
}

// The raw sound of entries, and what is told.
fn sound_of(alloc: Global, words: &[&str]) -> Result<(Vec<u8>, Vec<u8>), Fail> {
    let mut line = words_of(alloc, "mftone", words)?;
    line.push("--format=s16".to_string(alloc)?)?;
    let mut reader = ENTRIES;
    let mut out = Vec::new(alloc);
    let mut err = Vec::new(alloc);
    match sounded(alloc, &line, &mut reader, &mut out, &mut err) {
        0 => Ok((out, err)),
        _ => Err(Fail::from("no sound")),
    }
}

#[test]
fn sounds_at_its_time(rt: HostRuntime) -> Result<(), Fail> {
    for (words, samples, parts, line) in PLACES {
        let (sound, told) = sound_of(rt.alloc(), words)?;
        assert_eq!(rt; told.as_slice(), *line, "{words:?}");
        assert_eq!(rt; sound.len(), samples.saturating_mul(2), "{words:?}");
        let mut after = 0;
        for (first, last) in *parts {
            let silent = (after..*first).all(|place| !is_loud(&sound, place));
            assert!(rt; silent, "{words:?}, before {first}");
            assert!(rt; is_loud(&sound, *first), "{words:?}, at {first}");
            assert!(rt; is_loud(&sound, *last), "{words:?}, at {last}");
            after = last.saturating_add(1);
        }
        let silent = (after..*samples).all(|place| !is_loud(&sound, place));
        assert!(rt; silent, "{words:?}, after {after}");
    }
    Ok(())
}

#[test]
fn sounds_nothing_that_is_untold(rt: HostRuntime) -> Result<(), Fail> {
    let words = words_of(rt.alloc(), "mftone", &["--timed", "--lead=0"])?;
    let mut reader = ENTRIES;
    let mut out = Vec::new(rt.alloc());
    let mut err = Short::new(rt.alloc(), 9, Some(ErrorKind::Other));
    let status = sounded(rt.alloc(), &words, &mut reader, &mut out, &mut err);
    assert_eq!(rt; status, 1);
    assert!(rt; out.is_empty());
    Ok(())
}
