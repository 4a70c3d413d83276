// Worked examples of attempts: what lines do, and the page of it.
use crate::decks::{TABLE, Worked};

/// The parts of route tables, and what lines do under each, the rows of one line after those of the
/// other.
pub const SHEETS: &[(&[&str], &[Worked])] = &[
    (&[TABLE], ATTEMPTS),
    (&[LONGEST_TABLE], &[LONGEST_KEYING]),
    (&[], &[SHORT_RECORDS]),
    (&[PLAN_TEN, LONGER_CODE, SHORTER_CODE], &[TEN_DIGITS]),
    (&[PLAN_TEN, SHORTER_CODE, LONGER_CODE], &[TEN_DIGITS]),
    (&[PLAN_TEN, LONGEST_TABLE_OF_TEN], &[LONGEST_KEYING_OF_TEN]),
    (&[PLAN_TEN, AREA_TABLE], WITHIN_THE_AREA),
    (&["[limits]\nrelease = 250\n", TABLE], &[EARLY_RELEASE]),
    (
        &["[limits]\nmake_min = 1\npause = 1\n", TABLE],
        &[SHORT_PAUSES],
    ),
    (&["[limits]\nrelease = 1000000\n", TABLE], &[LATE_RELEASE]),
];

/// The operator is dialled.
pub const OPERATOR_CALL: Worked = Worked {
    name: "operator_call",
    lines: &[(5, "M500 #0")],
    page: &["0005 1 OPERATOR", "KEYED 1 REFUSED 0"],
};

/// A number of seven digits is dialled.
pub const SEVEN_DIGITS: Worked = Worked {
    name: "seven_digits",
    lines: &[(7, DIALS_SEVEN)],
    page: &["0007 1 SEVEN_DIGITS", "KEYED 1 REFUSED 0"],
};

/// A line dials the operator, hangs up, and dials a service.
pub const SECOND_CALL: Worked = Worked {
    name: "second_call",
    lines: &[(3, "M500 #0 #9 B400 M500 #4 #1 #1")],
    page: &[
        "0003 1 OPERATOR",
        "0003 2 SERVICE_CODE",
        "KEYED 2 REFUSED 0",
    ],
};

// The pieces of a number of seven digits.
const DIALS_SEVEN: &str = "M500 #2 #3 #4 #5 #6 #7 #8";

/// Six lines dial seven digits each: 426 rows, and 54 marks.
pub const SIX_CALLS: Worked = Worked {
    name: "six_calls",
    lines: &[
        (1, DIALS_SEVEN),
        (2, DIALS_SEVEN),
        (3, DIALS_SEVEN),
        (4, DIALS_SEVEN),
        (5, DIALS_SEVEN),
        (6, DIALS_SEVEN),
    ],
    page: &[
        "0001 1 SEVEN_DIGITS",
        "0002 1 SEVEN_DIGITS",
        "0003 1 SEVEN_DIGITS",
        "0004 1 SEVEN_DIGITS",
        "0005 1 SEVEN_DIGITS",
        "0006 1 SEVEN_DIGITS",
        "KEYED 6 REFUSED 0",
    ],
};

/// What lines do under the usual table.
pub const ATTEMPTS: &[Worked] = &[
    Worked {
        name: "header_only",
        lines: &[],
        page: &["KEYED 0 REFUSED 0"],
    },
    OPERATOR_CALL,
    SEVEN_DIGITS,
    Worked {
        name: "split_rows",
        lines: &[(7, "M500 B30 M0 B30 M40 B60 M600 #3 #4 #5 #6 #7 #8")],
        page: &["0007 1 SEVEN_DIGITS", "KEYED 1 REFUSED 0"],
    },
    Worked {
        name: "break_limits",
        lines: &[
            (11, "M500 B19 M600"),
            (12, "M500 B20 M600"),
            (13, "M500 B119 M600"),
            (14, "M500 B120 M600"),
            (15, "M500 B299 M600"),
            (16, "M500 B300 M600"),
        ],
        page: &[
            "0011 1 REFUSED MUTILATED 0",
            "0012 1 REFUSED ABANDONED 1",
            "0013 1 REFUSED ABANDONED 1",
            "0014 1 REFUSED MUTILATED 0",
            "0015 1 REFUSED MUTILATED 0",
            "0016 1 REFUSED ABANDONED 0",
            "0016 2 REFUSED ABANDONED 0",
            "KEYED 0 REFUSED 7",
        ],
    },
    Worked {
        name: "make_limits",
        lines: &[
            (21, "M500 B60 M14 B60 M600"),
            (22, "M500 B60 M15 B60 M600"),
            (23, "M500 B60 M179 B60 M600"),
            (24, "M500 B60 M180 B60 M600"),
        ],
        page: &[
            "0021 1 REFUSED MUTILATED 0",
            "0022 1 REFUSED ABANDONED 1",
            "0023 1 REFUSED ABANDONED 1",
            "0024 1 REFUSED ABANDONED 2",
            "KEYED 0 REFUSED 4",
        ],
    },
    Worked {
        name: "eleven_pulses",
        lines: &[(8, "M500 #4 *11/600 #1 #1 C")],
        page: &["0008 1 REFUSED MUTILATED 1", "KEYED 0 REFUSED 1"],
    },
    Worked {
        name: "time_out_and_conversation",
        lines: &[
            (31, "M500 #2 #3 #4 #5 #6 *7/19999 #8"),
            (32, "M500 #2 #3 #4 #5 #6 *7/20000 #8"),
            (33, "M500 #2 #3 #4 #5 #6 #7 *8/86400000"),
        ],
        page: &[
            "0031 1 SEVEN_DIGITS",
            "0032 1 REFUSED TIMEDOUT 6",
            "0033 1 SEVEN_DIGITS",
            "KEYED 2 REFUSED 1",
        ],
    },
    Worked {
        name: "last_digit_pause",
        lines: &[
            (41, "M500 #2 #3 #4 #5 #6 #7 *8/179"),
            (42, "M500 #2 #3 #4 #5 #6 #7 *8/180"),
        ],
        page: &[
            "0041 1 REFUSED ABANDONED 6",
            "0042 1 SEVEN_DIGITS",
            "KEYED 1 REFUSED 1",
        ],
    },
    Worked {
        name: "closed_line",
        lines: &[(9, "M500 #2 #3 C M500 #0")],
        page: &["0009 1 REFUSED ABANDONED 2", "KEYED 0 REFUSED 1"],
    },
    Worked {
        name: "unknown_codes",
        lines: &[
            (1, "M500 #4 #1 #1"),
            (2, "M500 #6 #1 #1"),
            (3, "M500 #5 #5 #5 #1 #2 #3 #4"),
        ],
        page: &[
            "0001 1 SERVICE_CODE",
            "0002 1 REFUSED UNKNOWN 3",
            "0003 1 REFUSED UNKNOWN 7",
            "KEYED 1 REFUSED 2",
        ],
    },
    SECOND_CALL,
];

/// Two lines, one row of each in turn, under the usual table.
pub const TWO_LINES_IN_TURN: Worked = Worked {
    name: "two_lines_in_turn",
    lines: &[(1, "M500 #0"), (2, "M500 #4 #1 #1")],
    page: &[
        "0001 1 OPERATOR",
        "0002 1 SERVICE_CODE",
        "KEYED 2 REFUSED 0",
    ],
};

// The table of the longest keying.
const LONGEST_TABLE: &str = "[[route]]\ncode = \"999\"\ntrunk = 9999\nprefix = \"12345678\"\n";

// The longest keying of a number of seven digits.
const LONGEST_KEYING: Worked = Worked {
    name: "longest_keying",
    lines: &[(20, "M500 #9 #9 #9 #9 #9 #9 #9")],
    page: &[
        "0020 1 KEYED 9999 KP:1100+1700 1:700+900 2:700+1100 3:900+1100 4:700+1300 5:900+1300 6:1100+1300 7:700+1500 8:900+1500 9:1100+1500 9:1100+1500 9:1100+1500 9:1100+1500 9:1100+1500 9:1100+1500 9:1100+1500 ST:1500+1700",
        "KEYED 1 REFUSED 0",
    ],
};

// Records that seize nothing, or never pulse, under a table without routes.
const SHORT_RECORDS: Worked = Worked {
    name: "short_records",
    lines: &[
        (1, "B1000"),
        (2, "M0"),
        (3, "M1"),
        (4, "M500 B10 M25000 #0"),
    ],
    page: &[
        "0003 1 REFUSED ABANDONED 0",
        "0004 1 REFUSED MUTILATED 0",
        "KEYED 0 REFUSED 2",
    ],
};

/// Before the routes of numbers of ten digits.
pub const PLAN_TEN: &str = "plan = 10\n";

/// A code that begins with the shorter one.
pub const LONGER_CODE: &str = "[[route]]\ncode = \"212555\"\ntrunk = 40\ndelete = 3\n";

/// A code of an area.
pub const SHORTER_CODE: &str = "[[route]]\ncode = \"212\"\ntrunk = 41\n";

// The longer code has the first number, and the shorter one the second.
const TEN_DIGITS: Worked = Worked {
    name: "ten_digits",
    lines: &[(
        8,
        "M500 #2 #1 #2 #5 #5 #5 #1 #2 #3 #4 B400 M500 #2 #1 #2 #6 #6 #6 #1 #2 #3 #4",
    )],
    page: &[
        "0008 1 KEYED 0040 KP:1100+1700 5:900+1300 5:900+1300 5:900+1300 1:700+900 2:700+1100 3:900+1100 4:700+1300 ST:1500+1700",
        "0008 2 KEYED 0041 KP:1100+1700 2:700+1100 1:700+900 2:700+1100 6:1100+1300 6:1100+1300 6:1100+1300 1:700+900 2:700+1100 3:900+1100 4:700+1300 ST:1500+1700",
        "KEYED 2 REFUSED 0",
    ],
};

// The table of the longest keying of a number of ten digits.
const LONGEST_TABLE_OF_TEN: &str =
    "[[route]]\ncode = \"212\"\ntrunk = 9999\nprefix = \"12345678\"\n";

// The longest keying of a number of ten digits.
const LONGEST_KEYING_OF_TEN: Worked = Worked {
    name: "longest_keying of ten digits",
    lines: &[(20, "M500 #2 #1 #2 #9 #9 #9 #9 #9 #9 #9")],
    page: &[
        "0020 1 KEYED 9999 KP:1100+1700 1:700+900 2:700+1100 3:900+1100 4:700+1300 5:900+1300 6:1100+1300 7:700+1500 8:900+1500 2:700+1100 1:700+900 2:700+1100 9:1100+1500 9:1100+1500 9:1100+1500 9:1100+1500 9:1100+1500 9:1100+1500 9:1100+1500 ST:1500+1700",
        "KEYED 1 REFUSED 0",
    ],
};

// A table of one area, whose code is not keyed.
const AREA_TABLE: &str = "[[route]]\ncode = \"201\"\ntrunk = 9\ndelete = 3\n";

// A number of the area, whole and without its last digit.
const WITHIN_THE_AREA: &[Worked] = &[
    Worked {
        name: "ten_digits within an area",
        lines: &[(1, "M500 #2 #0 #1 #5 #5 #5 #1 #2 #3 #4")],
        page: &[
            "0001 1 KEYED 0009 KP:1100+1700 5:900+1300 5:900+1300 5:900+1300 1:700+900 2:700+1100 3:900+1100 4:700+1300 ST:1500+1700",
            "KEYED 1 REFUSED 0",
        ],
    },
    Worked {
        name: "ten_digits without the last",
        lines: &[(1, "M500 #2 #0 #1 #5 #5 #5 #1 #2 #3")],
        page: &["0001 1 REFUSED ABANDONED 9", "KEYED 0 REFUSED 1"],
    },
];

// A break of 260 ms releases.
const EARLY_RELEASE: Worked = Worked {
    name: "own_limits: an early release",
    lines: &[(6, "M500 B260 M600")],
    page: &[
        "0006 1 REFUSED ABANDONED 0",
        "0006 2 REFUSED ABANDONED 0",
        "KEYED 0 REFUSED 2",
    ],
};

// A make of 1 ms ends a digit.
const SHORT_PAUSES: Worked = Worked {
    name: "own_limits: pauses of 1 ms",
    lines: &[(6, "M500 B60 M1 B60 M1")],
    page: &["0006 1 REFUSED ABANDONED 2", "KEYED 0 REFUSED 1"],
};

// Ten breaks of 100 s release, and no less.
const LATE_RELEASE: Worked = Worked {
    name: "own_limits: a late release",
    lines: &[(
        6,
        "M500 B100000 B100000 B100000 B100000 B100000 B100000 B100000 B100000 B100000 B100000 M500",
    )],
    page: &[
        "0006 1 REFUSED ABANDONED 0",
        "0006 2 REFUSED ABANDONED 0",
        "KEYED 0 REFUSED 2",
    ],
};
