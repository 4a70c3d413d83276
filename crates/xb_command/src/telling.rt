// What a program tells: one line on its stream of errors, and the status of the process.
ghost use Rattle.std.specs.Prelude.{◌≡◌, IfOk, string_bytes};
ghost use Rattle.xb_command.specs.Telling.{IsLineOf, Tells, line_of, no_memory_line};
ghost use Rattle.xb_text.specs.Writing.{AppendsBeginning};

use std::alloc::{AllocError, Global};
use std::fmt::Display;
use std::io::Write;
use xb_text::write_whole;

/// The status where all that was asked for was written.
pub const DONE: u8 = 0;

/// The status of a fault.
pub const FAULT: u8 = 1;

/// The status of words that are refused.
pub const WORDS_REFUSED: u8 = 2;

// A text as a line, after the program's name.
fn line_of_text(alloc: Global, program: &str, text: &str) -> Result<String, AllocError>
    ensures { IfOk result (λ line. string_bytes line ≡ line_of program.now text.now) }
{
    format!(in alloc; "{program}: {text}\n")
}

// The line of a fault.
fn line_of_fault<F: Display + Drop>(
    alloc: Global,
    program: &str,
    fault: F,
) -> Result<String, AllocError>
    ensures { IfOk result (λ line. IsLineOf program.now (F.output fault) (string_bytes line)) }
{
    let text = format!(in alloc; "{fault}")?;
    line_of_text(alloc, program, &text)
}

// Writes the line that tells that memory ran out.
pub(crate) fn tell_no_memory<E: Write>(err: &mut E, program: &str)
    ensures { AppendsBeginning (E.contents err.old) (E.contents err.new)
        (no_memory_line program.now) }
{
    if write_whole(err, program.as_bytes()).is_ok() {
        let _ = write_whole(err, b": out of memory\n");
    }
}

/// Writes a fault as one line after the program's name, as far as it can be written; where memory ran
/// out while the line was made, that is told in its place.
pub fn tell_fault<E: Write, F: Display + Drop>(
    alloc: Global,
    err: &mut E,
    program: &str,
    fault: F,
) -> u8
    ensures status { result ≡ FAULT }
    ensures line { Tells program.now (F.output fault) (E.contents err.old) (E.contents err.new) }
{
    match line_of_fault(alloc, program, fault) {
        Ok(line) => {
            let _ = write_whole(err, line.as_bytes());
        }
        Err(_) => tell_no_memory(err, program),
    }
    FAULT
}
