// The files of tables that tests name.
use test_kit::Folder;

const SEVEN: &[u8] =
    b"[[route]]\ncode = \"0\"\ntrunk = 1\n[[route]]\ncode = \"234\"\ntrunk = 17\ndelete = 3\nprefix = \"56\"\n\
[[route]]\ncode = \"555\"\ntrunk = 40\ndelete = 6\n";

// Trunk group 30 takes dial pulses.
const PULSED: &[u8] = b"[[route]]\ncode = \"234\"\ntrunk = 30\ndelete = 3\nsend = \"dp\"\n\
[[route]]\ncode = \"0\"\ntrunk = 1\n";

// Trunk group 30 takes dial pulses, and 31 MF. Of a number of six digits or fewer nothing is left but the prefix.
const DELETING: &[u8] = b"[[route]]\ncode = \"234\"\ntrunk = 30\ndelete = 6\nsend = \"dp\"\n\
[[route]]\ncode = \"235\"\ntrunk = 31\ndelete = 6\n\
[[route]]\ncode = \"236\"\ntrunk = 30\ndelete = 6\nprefix = \"2\"\nsend = \"dp\"\n";

const WRONG_SEND: &[u8] = b"[[route]]\ncode = \"0\"\ntrunk = 1\n\
[[route]]\ncode = \"234\"\ntrunk = 30\nsend = \"mf\"\n";

const OTHER_SEND: &[u8] = b"[[route]]\ncode = \"0\"\ntrunk = 30\n\
[[route]]\ncode = \"234\"\ntrunk = 30\nsend = \"dp\"\n";

// KP 0 ST.
const ZERO: &[u8] = b"{\"at_ms\":0,\"key\":\"KP\",\"length_ms\":68}\n\
{\"at_ms\":136,\"key\":\"0\",\"length_ms\":68}\n{\"at_ms\":272,\"key\":\"ST\",\"length_ms\":68}\n";

// The files that there are.
pub(crate) const FOLDER: Folder = Folder(&[
    ("seven", SEVEN),
    ("none", b""),
    ("no toml", b"["),
    ("pulsed", PULSED),
    ("deleting", DELETING),
    ("wrong send", WRONG_SEND),
    ("other send", OTHER_SEND),
    ("no trunk", b"[[route]]\ncode = \"234\"\n"),
    ("/dev/stdin", SEVEN),
    ("a sound", b"RIFF\x24\0\0\0WAVEfmt "),
    ("zero.keys", ZERO),
]);
