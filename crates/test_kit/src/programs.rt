// Programs, by their words and streams.
use crate::beside::{Beside, shown};
use crate::streams::{Halting, Short};
use crate::words::words_of;
use std::alloc::{AllocError, Global};
use std::io::ErrorKind;
use std::test::Fail;

// The most bytes that a reader gives at a time.
const STEP: usize = 40;

// The same of a reader that fails.
const FAILING_STEP: usize = 4;

/// The streams of a program.
pub struct Streams<'s, 'r> {
    /// Its standard input.
    pub reader: &'s mut Halting<'r>,
    /// Its standard output.
    pub out: &'s mut Short,
    /// Its standard error.
    pub err: &'s mut Vec<u8>,
}

/// A program: words and streams in, a status out.
pub trait Program {
    /// Its name, which is the first of its words.
    fn name(&self) -> &'static str;

    /// Does what the words ask for, and gives its status.
    fn attend(&self, alloc: Global, words: &[String], streams: Streams<'_, '_>) -> u8;
}

/// A row of a table: the words after the program's name, what stands on standard input, the status, and what
/// stands on standard output and on standard error.
pub type Case = (
    &'static [&'static str],
    &'static [u8],
    u8,
    &'static [u8],
    &'static [u8],
);

/// The same of status 0 with nothing on standard error: the words, the input, and what is written.
pub type Page = (&'static [&'static str], &'static [u8], &'static [u8]);

/// The same of status 1 with nothing written: the words, the input, and what stands on standard error.
pub type Fault = (&'static [&'static str], &'static [u8], &'static [u8]);

/// The same of words that are refused, with status 2: the words, and what stands on standard error.
pub type Refusal = (&'static [&'static str], &'static [u8]);

/// What a program is to give: its status, what it writes, and what stands on standard error.
#[derive(Clone, Copy)]
pub struct Gives<'a> {
    /// Its status.
    pub status: u8,
    /// What it writes.
    pub written: &'a [u8],
    /// What stands on standard error.
    pub line: &'a [u8],
}

impl<'a> Gives<'a> {
    /// It writes this, with status 0 and an empty standard error.
    pub fn page(written: &'a [u8]) -> Gives<'a> {
        Gives {
            status: 0,
            written,
            line: b"",
        }
    }

    /// It writes nothing, with this status and this line on standard error.
    pub fn fault(status: u8, line: &'a [u8]) -> Gives<'a> {
        Gives {
            status,
            written: b"",
            line,
        }
    }
}

/// The status of a program on these streams by these words, its name left out, and what stands on standard
/// error.
pub fn run<P: Program>(
    alloc: Global,
    program: &P,
    words: &[&str],
    reader: &mut Halting<'_>,
    out: &mut Short,
) -> Result<(u8, Vec<u8>), AllocError> {
    let all = words_of(alloc, program.name(), words)?;
    let mut err = Vec::new(alloc);
    let streams = Streams {
        reader,
        out,
        err: &mut err,
    };
    let status = program.attend(alloc, &all, streams);
    Ok((status, err))
}

/// Checks what a program gives on these streams by these words, its name left out. A failure tells the words,
/// the beginning of the input, and what came beside what was wanted.
pub fn check_streams<P: Program>(
    alloc: Global,
    program: &P,
    words: &[&str],
    reader: &mut Halting<'_>,
    out: &mut Short,
    wanted: Gives<'_>,
) -> Result<(), Fail> {
    let input = reader.rest;
    let (status, err) = run(alloc, program, words, reader, out)?;
    let same_bytes = out.taken.as_slice() == wanted.written && err.as_slice() == wanted.line;
    if status == wanted.status && same_bytes {
        return Ok(());
    }
    let of = shown(input, 0).escape_ascii();
    let line = Beside {
        came: &err,
        wanted: wanted.line,
    };
    let written = Beside {
        came: &out.taken,
        wanted: wanted.written,
    };
    let wanted = wanted.status;
    Err(Fail::new(format_args!(
        "{words:?} of \"{of}\": status {status}, wanted {wanted}; standard error {line}; output {written}"
    )))
}

/// Checks what a program gives of its input by these words, its name left out.
pub fn check_status<P: Program>(
    alloc: Global,
    program: &P,
    words: &[&str],
    input: &[u8],
    wanted: Gives<'_>,
) -> Result<(), Fail> {
    let mut reader = Halting::new(input, STEP);
    let mut out = Short::new(alloc, usize::MAX, None);
    check_streams(alloc, program, words, &mut reader, &mut out, wanted)
}

/// Checks what a program gives of its input where its reader gives at most each of these counts of bytes at a
/// time.
pub fn check_pieces<P: Program>(
    alloc: Global,
    program: &P,
    words: &[&str],
    input: &[u8],
    steps: &[usize],
    wanted: Gives<'_>,
) -> Result<(), Fail> {
    for step in steps {
        let mut reader = Halting::new(input, *step);
        let mut out = Short::new(alloc, usize::MAX, None);
        check_streams(alloc, program, words, &mut reader, &mut out, wanted)?;
    }
    Ok(())
}

/// Checks what a program gives in each row of a table.
pub fn check_cases<P: Program>(alloc: Global, program: &P, cases: &[Case]) -> Result<(), Fail> {
    for (words, input, status, written, line) in cases {
        let wanted = Gives {
            status: *status,
            written,
            line,
        };
        check_status(alloc, program, words, input, wanted)?;
    }
    Ok(())
}

/// Checks that a program writes what each row of a table has, with status 0 and an empty standard error.
pub fn check_pages<P: Program>(alloc: Global, program: &P, pages: &[Page]) -> Result<(), Fail> {
    for (words, input, written) in pages {
        check_status(alloc, program, words, input, Gives::page(written))?;
    }
    Ok(())
}

/// Checks that a program writes nothing, with status 1 and the line that each row of a table has.
pub fn check_faults<P: Program>(alloc: Global, program: &P, faults: &[Fault]) -> Result<(), Fail> {
    for (words, input, line) in faults {
        check_status(alloc, program, words, input, Gives::fault(1, line))?;
    }
    Ok(())
}

/// Checks that a program refuses the words of each row of a table, whatever its input is: it writes nothing,
/// with status 2 and the line of the row.
pub fn check_refusals<P: Program>(
    alloc: Global,
    program: &P,
    input: &[u8],
    refusals: &[Refusal],
) -> Result<(), Fail> {
    for (words, line) in refusals {
        check_status(alloc, program, words, input, Gives::fault(2, line))?;
    }
    Ok(())
}

/// Checks that a program writes nothing, with this line on standard error and status 1, where its reader
/// fails after any of these counts of bytes.
pub fn check_reads<P: Program>(
    alloc: Global,
    program: &P,
    words: &[&str],
    input: &[u8],
    places: &[usize],
    line: &[u8],
) -> Result<(), Fail> {
    for place in places {
        let mut reader = Halting::failing(input, FAILING_STEP, *place, ErrorKind::Interrupted);
        let mut out = Short::new(alloc, usize::MAX, None);
        let wanted = Gives::fault(1, line);
        check_streams(alloc, program, words, &mut reader, &mut out, wanted)?;
    }
    Ok(())
}

/// What a program gave.
#[derive(Drop)]
pub struct Given {
    /// Its status.
    pub status: u8,
    /// What it wrote.
    pub written: Vec<u8>,
    /// What stands on standard error.
    pub line: Vec<u8>,
}

/// What a program gives of its input by these words, its name left out, where no stream fails.
pub fn attended<P: Program>(
    alloc: Global,
    program: &P,
    words: &[&str],
    input: &[u8],
) -> Result<Given, Fail> {
    let mut reader = Halting::new(input, STEP);
    let mut out = Short::new(alloc, usize::MAX, None);
    let (status, line) = run(alloc, program, words, &mut reader, &mut out)?;
    Ok(Given {
        status,
        written: out.taken,
        line,
    })
}

/// What a program writes of its input by these words, its name left out. Another status than 0 is a failure.
pub fn written<P: Program>(
    alloc: Global,
    program: &P,
    words: &[&str],
    input: &[u8],
) -> Result<Vec<u8>, Fail> {
    let gave = attended(alloc, program, words, input)?;
    match gave.status {
        0 => Ok(gave.written),
        status => Err(Fail::new(format_args!("{words:?}: status {status}"))),
    }
}

/// Checks that a program writes the beginning of what it else writes, with this line on standard error and
/// status 1, where its writer fails after any of these counts of bytes.
pub fn check_writes<P: Program>(
    alloc: Global,
    program: &P,
    words: &[&str],
    input: &[u8],
    rooms: &[usize],
    line: &[u8],
) -> Result<(), Fail> {
    let whole = written(alloc, program, words, input)?;
    for room in rooms {
        let mut reader = Halting::new(input, STEP);
        let mut out = Short::new(alloc, *room, Some(ErrorKind::Other));
        let wanted = Gives {
            status: 1,
            written: whole.get(..*room).ok_or("more room than it needs")?,
            line,
        };
        check_streams(alloc, program, words, &mut reader, &mut out, wanted)?;
    }
    Ok(())
}
