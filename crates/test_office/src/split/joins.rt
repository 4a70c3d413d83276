// Words and files of pages in; a status, a page and lines of faults out.
use crate::split::pages::{FIRST, LAST, WHOLE};
use crate::split::statuses::PartsFolder;
use std::alloc::Global;
use std::test::Fail;
use test_kit::{Folder, words_of};
use xb_command::Call;
use xb_parts::{JOIN_PROGRAM, PROGRAM, SPLIT_PROGRAM, attend};

const LIST: &[u8] = b"0000-4999.deck 0 4999 30\n5000-9999.deck 5000 9999 20\n";

// The last page, with CR LF at the end of some lines.
const LAST_OF_WINDOWS: &[u8] =
    b"9999 1 KEYED 0003 KP:1100+1700 4:700+1300 1:700+900 1:700+900 ST:1500+1700\r\n\
KEYED 1 REFUSED 0\n";

// The files that there are.
const FOLDER: Folder = Folder(&[
    ("first", FIRST),
    ("last", LAST),
    ("last of windows", LAST_OF_WINDOWS),
    ("cut", b"0000 1 REFUSED UNKNOWN 3\n0007 1 KE"),
    ("empty", b""),
    (
        "damaged",
        b"0007 1 KEYED 00\xff7 KP:11 rubbish\n0007 2 REFUSED\n0007 3 REFUSED NOTHING -5\nKEYED 1 REFUSED 2\n",
    ),
    ("list", LIST),
    ("no list", b"0000-4999.deck 0 4999 30\n5000-9999.deck 5000"),
]);

// The words, the status, the page, and what stands on standard error.
const CASES: &[(&[&str], u8, &[u8], &[u8])] = &[
    (&["join", "first", "last"], 0, WHOLE, b""),
    (&["join", "--list", "list", "first", "last"], 0, WHOLE, b""),
    (&["join", "first", "last of windows"], 0, WHOLE, b""),
    (&["join", "first"], 0, FIRST, b""),
    (
        &["join", "last", "first"],
        1,
        b"",
        b"mfoffice join: first: part 2: the first line belongs to an earlier part\n",
    ),
    (
        &["join", "cut", "last"],
        1,
        b"",
        b"mfoffice join: cut: part 1: the page ends without its totals\n",
    ),
    (
        &["join", "damaged", "last"],
        1,
        b"",
        b"mfoffice join: damaged: part 1: line 1 has a wrong trunk group or key\n",
    ),
    (
        &["join", "first", "empty"],
        1,
        b"",
        b"mfoffice join: empty: part 2: the page ends without its totals\n",
    ),
    (
        &["join", "--list", "list", "first"],
        1,
        b"",
        b"mfoffice join: no part has line 5000\n",
    ),
    (
        &["join", "--list", "list", "last"],
        1,
        b"",
        b"mfoffice join: last: part 1: the page has a line of a later part\n",
    ),
    (
        &["join", "--list", "list", "first", "last", "last"],
        1,
        b"",
        b"mfoffice join: there are more pages than the 2 parts of the list\n",
    ),
    (
        &["join", "--list", "no list", "first", "last"],
        1,
        b"",
        b"mfoffice join: no list: it is no list of parts\n",
    ),
    (
        &["join", "--list", "first", "first", "last"],
        1,
        b"",
        b"mfoffice join: first: it is no list of parts\n",
    ),
    (
        &["join", "first", "none"],
        1,
        b"",
        b"mfoffice join: none: entity not found\n",
    ),
    (
        &["join", "first", "no\nsuch\x1b[7m.page"],
        1,
        b"",
        b"mfoffice join: no?such?[7m.page: entity not found\n",
    ),
    (
        &["join", "--lists", "list", "first"],
        2,
        b"",
        b"mfoffice join: there is no option '--lists'; a similar argument exists: '--list'; mfoffice join --help says more\n",
    ),
    (
        &["join", "--list=", "first"],
        2,
        b"",
        b"mfoffice join: invalid value '' for '--list': a file is wanted; mfoffice join --help says more\n",
    ),
    (&["join", "--version"], 0, b"mfoffice join 0.5\n", b""),
    (&["--version", "join"], 0, b"mfoffice 0.5\n", b""),
    (
        &["cut", "--list"],
        2,
        b"",
        b"mfoffice: invalid value 'cut' for 'COMMAND': run, split or join is wanted; mfoffice --help says more\n",
    ),
    (
        &["run", "deck"],
        2,
        b"",
        b"mfoffice: invalid value 'run' for 'COMMAND': it starts other programs, which the script mfoffice does; \
mfoffice --help says more\n",
    ),
    (
        &["--list", "list", "join"],
        2,
        b"",
        b"mfoffice: there is no option '--list'; mfoffice --help says more\n",
    ),
    (
        &[],
        2,
        b"",
        b"mfoffice: the following required arguments were not provided: <COMMAND>; mfoffice --help says more\n",
    ),
];

#[test]
fn each_status(rt: HostRuntime) -> Result<(), Fail> {
    let alloc = rt.alloc();
    let mut folder = PartsFolder::new(alloc);
    for (words, status, page, line) in CASES {
        let words = words_of(alloc, "mfoffice", words)?;
        let call = Call {
            program: &PROGRAM,
            words: &words,
            is_typed: false,
            is_shown: false,
        };
        let mut input = b"not read".as_slice();
        let (mut out, mut err) = (Vec::new(alloc), Vec::new(alloc));
        assert_eq!(rt;
            attend(
                alloc,
                &call,
                &SPLIT_PROGRAM,
                &JOIN_PROGRAM,
                &mut folder,
                &FOLDER,
                &mut input,
                &mut out,
                &mut err
            ),
            *status
        );
        assert_eq!(rt; input, b"not read".as_slice());
        assert_eq!(rt; out.as_slice(), *page);
        assert_eq!(rt; err.as_slice(), *line);
    }
    Ok(())
}
