// Decks with a fault in their table or their rows.
use crate::office::hostile_decks::{HEADER, Hostile, Part};
use xb_model::RowFault;
use xb_office::OfficeFault;
use xb_routes::RouteFault;

// A deletion of all digits, and nothing in their place.
const DELETES_ALL: Part = Part::Bytes(b"[[route]]\ncode = \"234\"\ntrunk = 17\ndelete = 7\n");

// A deletion of more digits than the numbers have.
const DELETES_MORE: Part = Part::Bytes(b"[[route]]\ncode = \"234\"\ntrunk = 17\ndelete = 8\n");

// A code of the usual table once more.
const ONCE_MORE: Part = Part::Bytes(b"[[route]]\ncode = \"234\"\ntrunk = 5\n");

// A code of six digits, and one with which it begins.
const LONG_CODES: Part = Part::Bytes(
    b"[[route]]\ncode = \"212555\"\ntrunk = 40\ndelete = 3\n[[route]]\ncode = \"212\"\ntrunk = 41\n",
);

// A make of a day and one millisecond.
const OVER_A_DAY: Part = Part::Bytes(b"---\nline,state,ms\n7,M,86400001\n");

/// Decks that are refused, with the fault of each.
pub const FAULTS: &[Hostile] = &[
    Hostile {
        name: "nothing to key",
        deck: &[DELETES_ALL, HEADER],
        gives: Err(OfficeFault::Routes(RouteFault::NothingToKey(1))),
    },
    Hostile {
        name: "a code twice",
        deck: &[Part::Table, ONCE_MORE, HEADER],
        gives: Err(OfficeFault::Routes(RouteFault::Twice(4))),
    },
    Hostile {
        name: "not TOML",
        deck: &[Part::Bytes(b"code = \n"), HEADER],
        gives: Err(OfficeFault::Routes(RouteFault::NotToml)),
    },
    Hostile {
        name: "no cut",
        deck: &[Part::Table],
        gives: Err(OfficeFault::NoCut),
    },
    Hostile {
        name: "a make over a day",
        deck: &[Part::Table, OVER_A_DAY],
        gives: Err(OfficeFault::Rows(RowFault::Ms(1))),
    },
    Hostile {
        name: "no header",
        deck: &[Part::Table, Part::Bytes(b"---\n")],
        gives: Err(OfficeFault::Rows(RowFault::Header)),
    },
    Hostile {
        name: "two fields",
        deck: &[
            Part::Table,
            Part::Bytes(b"---\nline,state,ms\n7,M,500\n7,M\n"),
        ],
        gives: Err(OfficeFault::Rows(RowFault::Fields(2))),
    },
    Hostile {
        name: "a close with a time",
        deck: &[Part::Table, Part::Bytes(b"---\nline,state,ms\n7,C,1\n")],
        gives: Err(OfficeFault::Rows(RowFault::Ms(1))),
    },
    Hostile {
        name: "more digits deleted than there are",
        deck: &[DELETES_MORE, HEADER],
        gives: Err(OfficeFault::Routes(RouteFault::Delete(1))),
    },
    Hostile {
        name: "a wrong line before a wrong state",
        deck: &[Part::Table, Part::Bytes(b"---\nline,state,ms\n10000,X,0\n")],
        gives: Err(OfficeFault::Rows(RowFault::Line(1))),
    },
    Hostile {
        name: "a table's fault before a row's",
        deck: &[DELETES_ALL, OVER_A_DAY],
        gives: Err(OfficeFault::Routes(RouteFault::NothingToKey(1))),
    },
    Hostile {
        name: "codes of ten digits in plan seven",
        deck: &[LONG_CODES, HEADER],
        gives: Err(OfficeFault::Routes(RouteFault::Code(1))),
    },
    Hostile {
        name: "plan 8",
        deck: &[Part::Bytes(b"plan = 8\n"), LONG_CODES, HEADER],
        gives: Err(OfficeFault::Routes(RouteFault::Plan)),
    },
    Hostile {
        name: "plan as a text",
        deck: &[Part::Bytes(b"plan = \"10\"\n"), Part::Table, HEADER],
        gives: Err(OfficeFault::Routes(RouteFault::Plan)),
    },
    Hostile {
        name: "plan 8 before the shape of the routes",
        deck: &[Part::Bytes(b"plan = 8\nroute = 3\n"), HEADER],
        gives: Err(OfficeFault::Routes(RouteFault::Plan)),
    },
    Hostile {
        name: "limits that are no table",
        deck: &[Part::Bytes(b"limits = 3\n"), Part::Table, HEADER],
        gives: Err(OfficeFault::Routes(RouteFault::Limits(0))),
    },
    Hostile {
        name: "a pause that is a text",
        deck: &[
            Part::Bytes(b"[limits]\npause = \"x\"\n"),
            Part::Table,
            HEADER,
        ],
        gives: Err(OfficeFault::Routes(RouteFault::Limits(4))),
    },
    Hostile {
        name: "a time-out of 0",
        deck: &[Part::Bytes(b"[limits]\ntimeout = 0\n"), Part::Table, HEADER],
        gives: Err(OfficeFault::Routes(RouteFault::Limits(6))),
    },
    Hostile {
        name: "a time-out over a million",
        deck: &[
            Part::Bytes(b"[limits]\ntimeout = 1000001\n"),
            Part::Table,
            HEADER,
        ],
        gives: Err(OfficeFault::Routes(RouteFault::Limits(6))),
    },
    Hostile {
        name: "pulse_min over pulse_max",
        deck: &[
            Part::Bytes(b"[limits]\npulse_min = 120\n"),
            Part::Table,
            HEADER,
        ],
        gives: Err(OfficeFault::Routes(RouteFault::Limits(7))),
    },
    Hostile {
        name: "pulse_max not under release",
        deck: &[
            Part::Bytes(b"[limits]\npulse_max = 300\n"),
            Part::Table,
            HEADER,
        ],
        gives: Err(OfficeFault::Routes(RouteFault::Limits(8))),
    },
    Hostile {
        name: "make_min over pause",
        deck: &[
            Part::Bytes(b"[limits]\nmake_min = 181\n"),
            Part::Table,
            HEADER,
        ],
        gives: Err(OfficeFault::Routes(RouteFault::Limits(9))),
    },
    Hostile {
        name: "a time-out not over pause",
        deck: &[
            Part::Bytes(b"[limits]\ntimeout = 180\n"),
            Part::Table,
            HEADER,
        ],
        gives: Err(OfficeFault::Routes(RouteFault::Limits(10))),
    },
    Hostile {
        name: "pulse_max of 0 before pulse_min of 0",
        deck: &[
            Part::Bytes(b"[limits]\npulse_max = 0\npulse_min = 0\n"),
            Part::Table,
            HEADER,
        ],
        gives: Err(OfficeFault::Routes(RouteFault::Limits(1))),
    },
    Hostile {
        name: "plan 8 before the limits",
        deck: &[
            Part::Bytes(b"plan = 8\n[limits]\npulse_min = 120\n"),
            Part::Table,
            HEADER,
        ],
        gives: Err(OfficeFault::Routes(RouteFault::Plan)),
    },
];
