// What a program tells of words that choose nothing, and its status.
ghost use Rattle.std.specs.Prelude.{ℕ, ◌≡◌, ◌++◌, IfOk, List, OnOk, map};
ghost use Rattle.xb_command.specs.Answering.{TellsAnswer, TellsAsked, TellsText, TellsWrong, answer_line, answer_text, breach_text};
ghost use Rattle.xb_command.specs.Answering.{beside_text, closing_text, lacks_text, misfit_text, version_by, why_text};
ghost use Rattle.xb_command.specs.Answers.{in_line};

use crate::asking::{Answer, Misfit};
use crate::judging::Breach;
use crate::table::{Program, VERSION};
use crate::telling::{DONE, FAULT, WORDS_REFUSED, tell_no_memory};
use crate::usage::{help_of, push_all, push_named, push_or_names};
use crate::wording::line_of;
use std::alloc::{AllocError, Global};
use std::io::Write;
use xb_text::write_whole;

// Puts after a text what an option wants.
fn push_lacks(out: &mut Vec<u8>, name: &str, wants: &[&str]) -> Result<(), AllocError>
    ensures { OnOk result (out.new.items ≡ out.old.items ++ lacks_text name.now wants.now) }
{
    push_named(out, name)?;
    match wants {
        [first, rest @ ..] => {
            push_all(out, &[" wants "])?;
            push_named(out, *first)?;
            push_or_names(out, rest)
        }
        [] => Ok(()),
    }
}

// Puts after a text which two words do not go together.
fn push_beside(out: &mut Vec<u8>, name: &str, other: &str) -> Result<(), AllocError>
    ensures { OnOk result (out.new.items ≡ out.old.items ++ beside_text name.now other.now) }
{
    push_named(out, name)?;
    push_all(out, &[" and "])?;
    push_named(out, other)?;
    push_all(out, &[" do not go together"])
}

// Puts after a text what is wrong with words beside each other.
fn push_breach(out: &mut Vec<u8>, breach: Breach<'_>) -> Result<(), AllocError>
    ensures { OnOk result (out.new.items ≡ out.old.items ++ breach_text breach.entry) }
{
    match breach {
        Breach::Lacks(name, wants) => push_lacks(out, name, wants),
        Breach::Beside(name, other) => push_beside(out, name, other),
        Breach::Typed => {
            push_all(
                out,
                &["standard input is a terminal: name a file, or - to read what is typed"],
            )
        }
        Breach::Shown => push_all(
            out,
            &[
                "standard output is a terminal, and sound is no text: write it to a file, as in > call.wav",
            ],
        ),
    }
}

// Puts a value in one line after a text.
fn push_value(alloc: Global, out: &mut Vec<u8>, value: &str) -> Result<(), AllocError>
    ensures { OnOk result (out.new.items ≡ out.old.items ++ map in_line value.now) }
{
    let line = line_of(alloc, value.as_bytes())?;
    out.extend_from_slice(&line)
}

// Puts the option of a value after a text, and what is wrong with it.
fn push_why(out: &mut Vec<u8>, misfit: &Misfit<'_>) -> Result<(), AllocError>
    ensures { OnOk result (out.new.items ≡ out.old.items ++ why_text misfit.now) }
{
    push_all(out, &["' for '"])?;
    push_named(out, misfit.option)?;
    push_all(out, &["': ", misfit.reason])
}

// Puts after a text which value is none, and why.
fn push_misfit(alloc: Global, out: &mut Vec<u8>, misfit: &Misfit<'_>) -> Result<(), AllocError>
    ensures { OnOk result (out.new.items ≡ out.old.items ++ misfit_text misfit.now) }
{
    push_all(out, &["invalid value '"])?;
    push_value(alloc, out, misfit.value)?;
    push_why(out, misfit)
}

// Puts after a text why words are wrong.
fn push_answer(alloc: Global, out: &mut Vec<u8>, answer: &Answer<'_>) -> Result<(), AllocError>
    ensures { OnOk result (out.new.items ≡ out.old.items ++ answer_text answer.now) }
{
    match answer {
        Answer::Wrong(_, reason) => out.extend_from_slice(reason),
        Answer::Against(breach) => push_breach(out, *breach),
        Answer::Unfit(misfit) => push_misfit(alloc, out, misfit),
        Answer::Help | Answer::Version | Answer::NoMemory => Ok(()),
    }
}

// Puts after a text where more is said, and how the program is called where that is fixed.
fn push_closing(out: &mut Vec<u8>, program: &Program<'_>) -> Result<(), AllocError>
    ensures { OnOk result (out.new.items ≡ out.old.items ++ closing_text program.now) }
{
    push_all(out, &["; ", program.name, " --help says more\n"])?;
    push_all(out, &[program.usage])
}

// The line of words that are wrong.
fn answer_line(
    alloc: Global,
    program: &Program<'_>,
    answer: &Answer<'_>,
) -> Result<Vec<u8>, AllocError>
    ensures { IfOk result (λ line. line.items ≡ answer_line program.now answer.now) }
{
    let mut line = Vec::new(alloc);
    push_all(&mut line, &[program.name, ": "])?;
    push_answer(alloc, &mut line, answer)?;
    push_closing(&mut line, program)?;
    Ok(line)
}

// The line of the version.
fn version_of(alloc: Global, program: &Program<'_>) -> Result<Vec<u8>, AllocError>
    ensures { IfOk result (λ line. line.items ≡ version_by program.now) }
{
    let mut line = Vec::new(alloc);
    push_all(&mut line, &[program.name, " ", VERSION, "\n"])?;
    Ok(line)
}

// Writes a text that was asked for.
fn tell_text<W: Write>(out: &mut W, text: &[u8]) -> u8
    ensures { TellsText text.now (W.contents out.old) (W.contents out.new) result }
{
    match write_whole(out, text) {
        Ok(()) => DONE,
        Err(_) => FAULT,
    }
}

// Writes the line of words that are wrong.
fn tell_wrong<E: Write>(
    alloc: Global,
    err: &mut E,
    program: &Program<'_>,
    answer: &Answer<'_>,
) -> u8
    ensures { TellsWrong program.now answer.now (E.contents err.old) (E.contents err.new) result }
{
    match answer_line(alloc, program, answer) {
        Ok(line) => {
            let _ = write_whole(err, &line);
            WORDS_REFUSED
        }
        Err(_) => {
            tell_no_memory(err, program.name);
            FAULT
        }
    }
}

// Writes a text that was asked for, or that memory ran out.
fn tell_asked<W: Write, E: Write>(
    out: &mut W,
    err: &mut E,
    program: &Program<'_>,
    text: Result<Vec<u8>, AllocError>,
) -> u8
    ensures { (asked : List ℕ) → IfOk text (λ t. t.items ≡ asked) → TellsAsked program.now asked
        (W.contents out.old) (W.contents out.new) (E.contents err.old) (E.contents err.new) result }
{
    match text {
        Ok(text) => tell_text(out, &text),
        Err(_) => {
            tell_no_memory(err, program.name);
            FAULT
        }
    }
}

/// Tells why words choose nothing: help or the version on the output, where they ask for it, and else one line on the
/// stream of errors, as far as it can be written. It returns the status.
pub fn tell_answer<W: Write, E: Write>(
    alloc: Global,
    out: &mut W,
    err: &mut E,
    program: &Program<'_>,
    answer: Answer<'_>,
) -> u8
    ensures { TellsAnswer program.now answer.entry (W.contents out.old) (W.contents out.new)
        (E.contents err.old) (E.contents err.new) result }
{
    match answer {
        Answer::Help => tell_asked(out, err, program, help_of(alloc, program)),
        Answer::Version => tell_asked(out, err, program, version_of(alloc, program)),
        Answer::NoMemory => {
            tell_no_memory(err, program.name);
            FAULT
        }
        wrong => tell_wrong(alloc, err, program, &wrong),
    }
}
