// Decks that are malformed or as large as they may be, and what the rules say of each.
use crate::office::office::Gives;
use xb_model::RowFault;
use xb_office::OfficeFault;
use xb_routes::RouteFault;

/// A part of a deck.
#[derive(Clone, Copy)]
pub enum Part {
    /// The usual route table.
    Table,
    /// The line that cuts, the header, and the rows of an operator call.
    Call,
    /// These bytes.
    Bytes(&'static [u8]),
    /// These bytes so many times.
    Times(usize, &'static [u8]),
}

/// A deck, and what it gives: the lines of its page, or its fault.
pub struct Hostile {
    /// What it shows.
    pub name: &'static str,
    /// The deck.
    pub deck: &'static [Part],
    /// The short form of its page, or its fault.
    pub gives: Gives,
}

/// The line that cuts, and the header.
pub const HEADER: Part = Part::Bytes(b"---\nline,state,ms\n");

// A route whose code is none.
const WRONG_ROUTE: &[u8] = b"[[route]]\ncode = \"x\"\ntrunk = 1\n";

const NOT_TOML: Gives = Err(OfficeFault::Routes(RouteFault::NotToml));

const NO_CUT: Gives = Err(OfficeFault::NoCut);

const NO_ENTRIES: Gives = Ok(&["KEYED 0 REFUSED 0"]);

const THE_CALL: Gives = Ok(&["0005 1 OPERATOR", "KEYED 1 REFUSED 0"]);

/// The most and the longest that a deck may hold, and one more.
pub const LARGE: &[Hostile] = &[
    Hostile {
        name: "makes and breaks of a hundred days",
        deck: &[
            Part::Table,
            HEADER,
            Part::Times(100, b"50,M,86400000\n"),
            Part::Bytes(b"51,M,500\n"),
            Part::Times(100, b"51,B,86400000\n"),
            Part::Bytes(b"51,M,500\n"),
        ],
        gives: Ok(&[
            "0050 1 REFUSED TIMEDOUT 0",
            "0051 1 REFUSED ABANDONED 0",
            "0051 2 REFUSED ABANDONED 0",
            "KEYED 0 REFUSED 3",
        ]),
    },
    Hostile {
        name: "257 pulses",
        deck: &[
            Part::Table,
            HEADER,
            Part::Bytes(b"52,M,500\n"),
            Part::Times(256, b"52,B,60\n52,M,40\n"),
            Part::Bytes(b"52,B,60\n52,M,600\n"),
        ],
        gives: Ok(&["0052 1 REFUSED MUTILATED 0", "KEYED 0 REFUSED 1"]),
    },
    Hostile {
        name: "a million records",
        deck: &[Part::Table, HEADER, Part::Times(1_000_000, b"5,M,0\n")],
        gives: NO_ENTRIES,
    },
    Hostile {
        name: "a million records and one",
        deck: &[
            Part::Table,
            HEADER,
            Part::Times(1_000_000, b"5,M,0\n"),
            Part::Bytes(b"x\n"),
        ],
        gives: Err(OfficeFault::Rows(RowFault::TooMany)),
    },
    Hostile {
        name: "a thousand routes",
        deck: &[Part::Times(1_000, WRONG_ROUTE), Part::Call],
        gives: Err(OfficeFault::Routes(RouteFault::Code(1))),
    },
    Hostile {
        name: "a thousand routes and one",
        deck: &[Part::Times(1_001, WRONG_ROUTE), Part::Call],
        gives: Err(OfficeFault::Routes(RouteFault::TooMany)),
    },
    Hostile {
        name: "as many blanks as a deck may have bytes",
        deck: &[Part::Times(16_777_216, b" ")],
        gives: NO_CUT,
    },
    Hostile {
        name: "a blank more",
        deck: &[Part::Times(16_777_217, b" ")],
        gives: Err(OfficeFault::DeckTooLong),
    },
];

/// Texts that never close, and lines without end.
pub const LONG: &[Hostile] = &[
    Hostile {
        name: "a million empty lines before the header and after the rows",
        deck: &[
            Part::Table,
            Part::Bytes(b"---\n"),
            Part::Times(1_000_000, b"\n"),
            Part::Bytes(b"line,state,ms\n5,M,500\n"),
            Part::Times(1_000_000, b"\n"),
        ],
        gives: Ok(&["0005 1 REFUSED ABANDONED 0", "KEYED 0 REFUSED 1"]),
    },
    Hostile {
        name: "a million lone CRs",
        deck: &[Part::Table, HEADER, Part::Times(1_000_000, b"\r")],
        gives: NO_ENTRIES,
    },
    Hostile {
        name: "a quote that never closes",
        deck: &[
            Part::Table,
            HEADER,
            Part::Bytes(b"\""),
            Part::Times(1_000_000, b"5,M,500\n"),
        ],
        gives: Err(OfficeFault::Rows(RowFault::Fields(1))),
    },
    Hostile {
        name: "a text of the table that never closes",
        deck: &[
            Part::Bytes(b"a = \"\"\"\n"),
            Part::Times(1_000_000, b"b = 1\n"),
            Part::Call,
        ],
        gives: NOT_TOML,
    },
    Hostile {
        name: "a megabyte in a line",
        deck: &[
            Part::Table,
            HEADER,
            Part::Times(1_000_000, b"5"),
            Part::Bytes(b",M,500\n"),
        ],
        gives: Err(OfficeFault::Rows(RowFault::Line(1))),
    },
    Hostile {
        name: "a megabyte in a time",
        deck: &[
            Part::Table,
            HEADER,
            Part::Bytes(b"5,M,\""),
            Part::Times(1_000_000, b"0"),
            Part::Bytes(b"\"\n"),
        ],
        gives: Err(OfficeFault::Rows(RowFault::Ms(1))),
    },
    Hostile {
        name: "a million brackets",
        deck: &[
            Part::Bytes(b"a = "),
            Part::Times(1_000_000, b"["),
            Part::Bytes(b"\n"),
            Part::Call,
        ],
        gives: NOT_TOML,
    },
];

/// Bytes that stand where they should not, or where they may.
pub const ODD: &[Hostile] = &[
    Hostile {
        name: "one route, and no record",
        deck: &[
            Part::Bytes(b"[[route]]\ncode = \"234\"\ntrunk = 17\ndelete = 3\nprefix = \"56\"\n"),
            HEADER,
        ],
        gives: NO_ENTRIES,
    },
    Hostile {
        name: "a contact after the close",
        deck: &[Part::Table, HEADER, Part::Bytes(b"7,C,0\n7,X,1\n")],
        gives: Err(OfficeFault::Rows(RowFault::Contact(2))),
    },
    Hostile {
        name: "byte FF before the table",
        deck: &[Part::Bytes(b"\xFF"), Part::Table, Part::Call],
        gives: NOT_TOML,
    },
    Hostile {
        name: "byte FF as a contact",
        deck: &[Part::Table, HEADER, Part::Bytes(b"7,\xFF,5\n")],
        gives: Err(OfficeFault::Rows(RowFault::Contact(1))),
    },
    Hostile {
        name: "a cut inside a text of the table",
        deck: &[Part::Bytes(b"a = \"\"\"\n---\n\"\"\"\n"), Part::Call],
        gives: NOT_TOML,
    },
    Hostile {
        name: "lone CRs after the records",
        deck: &[
            Part::Table,
            Part::Bytes(b"---\nline,state,ms\r5,M,500\r5,B,60\r"),
        ],
        gives: Ok(&["0005 1 REFUSED ABANDONED 0", "KEYED 0 REFUSED 1"]),
    },
    Hostile {
        name: "a byte NUL before the table",
        deck: &[Part::Bytes(b"\0"), Part::Table, Part::Call],
        gives: NOT_TOML,
    },
    Hostile {
        name: "a byte NUL after the dashes",
        deck: &[Part::Table, Part::Bytes(b"---\0\nline,state,ms\n")],
        gives: NO_CUT,
    },
    Hostile {
        name: "a byte NUL in the header",
        deck: &[Part::Table, Part::Bytes(b"---\nline,state,ms\0\n")],
        gives: Err(OfficeFault::Rows(RowFault::Header)),
    },
    Hostile {
        name: "a byte NUL in a line",
        deck: &[Part::Table, HEADER, Part::Bytes(b"5\0,M,500\n")],
        gives: Err(OfficeFault::Rows(RowFault::Line(1))),
    },
    Hostile {
        name: "a byte NUL in a state",
        deck: &[Part::Table, HEADER, Part::Bytes(b"5,M\0,500\n")],
        gives: Err(OfficeFault::Rows(RowFault::Contact(1))),
    },
    Hostile {
        name: "a byte NUL in a time",
        deck: &[Part::Table, HEADER, Part::Bytes(b"5,M,500\0\n")],
        gives: Err(OfficeFault::Rows(RowFault::Ms(1))),
    },
    Hostile {
        name: "a byte order mark before the table",
        deck: &[Part::Bytes(b"\xEF\xBB\xBF"), Part::Table, Part::Call],
        gives: THE_CALL,
    },
    Hostile {
        name: "a byte order mark after the table",
        deck: &[Part::Table, Part::Bytes(b"\n\xEF\xBB\xBF\n"), Part::Call],
        gives: NOT_TOML,
    },
    Hostile {
        name: "a byte order mark before the dashes",
        deck: &[Part::Table, Part::Bytes(b"\xEF\xBB\xBF"), Part::Call],
        gives: NO_CUT,
    },
    Hostile {
        name: "a byte order mark after the dashes",
        deck: &[
            Part::Table,
            Part::Bytes(b"---\xEF\xBB\xBF\nline,state,ms\n"),
        ],
        gives: NO_CUT,
    },
    Hostile {
        name: "a byte order mark before the header",
        deck: &[
            Part::Table,
            Part::Bytes(b"---\n\xEF\xBB\xBFline,state,ms\n5,M,500\n"),
        ],
        gives: Ok(&["0005 1 REFUSED ABANDONED 0", "KEYED 0 REFUSED 1"]),
    },
    Hostile {
        name: "a byte order mark after the header",
        deck: &[
            Part::Table,
            Part::Bytes(b"---\nline,state,ms\xEF\xBB\xBF\n5,M,500\n"),
        ],
        gives: Err(OfficeFault::Rows(RowFault::Header)),
    },
    Hostile {
        name: "a byte order mark before a line",
        deck: &[Part::Table, HEADER, Part::Bytes(b"\xEF\xBB\xBF5,M,500\n")],
        gives: Err(OfficeFault::Rows(RowFault::Line(1))),
    },
    Hostile {
        name: "a byte order mark after the last record",
        deck: &[Part::Table, Part::Call, Part::Bytes(b"\xEF\xBB\xBF")],
        gives: Err(OfficeFault::Rows(RowFault::Fields(22))),
    },
    Hostile {
        name: "lists as deep as they may be",
        deck: &[
            Part::Bytes(b"a = "),
            Part::Times(80, b"["),
            Part::Times(80, b"]"),
            Part::Bytes(b"\n"),
            Part::Table,
            Part::Call,
        ],
        gives: THE_CALL,
    },
    Hostile {
        name: "lists deeper than they may be",
        deck: &[
            Part::Bytes(b"a = "),
            Part::Times(81, b"["),
            Part::Times(81, b"]"),
            Part::Bytes(b"\n"),
            Part::Table,
            Part::Call,
        ],
        gives: NOT_TOML,
    },
    Hostile {
        name: "a name of as many parts as it may have",
        deck: &[
            Part::Times(79, b"a."),
            Part::Bytes(b"a = 1\n"),
            Part::Table,
            Part::Call,
        ],
        gives: THE_CALL,
    },
    Hostile {
        name: "a name of more parts than it may have",
        deck: &[
            Part::Times(80, b"a."),
            Part::Bytes(b"a = 1\n"),
            Part::Table,
            Part::Call,
        ],
        gives: NOT_TOML,
    },
];
