// What the pictures of a small deck say, as a person reckoned it.
use crate::hear::reports::DECK;
use crate::hear::statuses::Mfhear;
use std::test::Fail;
use test_kit::attended;

// The words after those that ask for a picture, and texts that it has, in their order.
const PICTURES: &[(&[&str], &[&str])] = &[
    (
        &["--line", "8"],
        &[
            ">line 0008<",
            "break of 20 to 90 ms;",
            ">attempt 1<",
            ">REFUSED MUTILATED 0<",
            ">from 0.000 s, record 2<",
            ">500 ms<",
            ">break 91 ms &gt; 90<",
            ">at record 27<",
            ">91<",
            ">1 not ended<",
            ">300 ms<",
            ">attempt 2<",
            ">REFUSED ABANDONED 0<",
            ">record ends<",
        ],
    ),
    (
        &["--line", "8", "--attempt", "2"],
        &[
            "1 attempts before, 0 after",
            ">attempt 2<",
            ">from 1.261 s, record 33<",
            ">record ends<",
        ],
    ),
    (
        &["--line", "7"],
        &[">NUMBER 0<", ">0<", ">10.3/s<", ">61.7 %<", ">20000 ms<"],
    ),
    (
        &["--line", "10"],
        &[
            ">REFUSED MUTILATED 0<",
            ">break 91 ms &gt; 90<",
            ">at record 35<",
            ">91<",
            ">break 125 ms &gt; 90<",
            ">at record 39, ignored<",
            ">125<",
            ">600 ms<",
            ">1<",
            ">ignored<",
            ">record ends<",
        ],
    ),
];

// The place of a part in a text, if it is there.
fn place_of(text: &[u8], part: &str) -> Option<usize> {
    if part.is_empty() {
        return None;
    }
    text.windows(part.len())
        .position(|bytes| bytes == part.as_bytes())
}

#[test]
fn pictures_say_what_was_heard(rt: HostRuntime) -> Result<(), Fail> {
    for (words, parts) in PICTURES {
        let mut all = words.to_vec(rt.alloc())?;
        all.push("--svg")?;
        let gave = attended(rt.alloc(), &Mfhear, &all, DECK)?;
        assert_eq!(rt; gave.status, 0, "{words:?}");
        assert!(rt; gave.line.is_empty(), "{words:?}");
        let mut rest = gave.written.as_slice();
        for part in *parts {
            let Some(place) = place_of(rest, part) else {
                return Err(Fail::new(format_args!("{words:?}: {part} is missing")));
            };
            rest = rest.get(place..).unwrap_or(&[]);
        }
    }
    Ok(())
}
