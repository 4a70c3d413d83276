// A split: its words and files in, a status and the decks of parts out.
ghost use Rattle.std.specs.Prelude.{◌≡◌, true, IfErr, IfOk, List, ℕ};
ghost use Rattle.clap.specs.Faults.{is_simple_and_free};
ghost use Rattle.xb_command.specs.Programs.{streams};
ghost use Rattle.xb_command.specs.Tables.{command_by};
ghost use Rattle.xb_command.specs.Telling.{Tells};
ghost use Rattle.xb_command.specs.Works.{AttendsBy, IsWrong};
ghost use Rattle.xb_parts.specs.FaultTexts.{split_text};
ghost use Rattle.xb_parts.specs.SplitProgram.{AskNothing, Asks, by_split};
ghost use Rattle.xb_parts.specs.Splits.{LeavesNone};

use crate::split_fault::{SplitFault, Unopened};
use crate::split_files::SplitFiles;
use crate::split_words::{SplitRequest, options_of, request_of};
use crate::splitting::split;
use std::alloc::Global;
use std::io::Write;
use xb_command::{Answer, Call, DONE, FAULT, NOTHING, ask_words, tell_answer, tell_fault};

// What the words of a call ask for, or why they choose nothing.
fn ask<'a>(alloc: Global, call: &Call<'a>) -> Result<SplitRequest<'a>, Answer<'a>>
    requires { is_simple_and_free (command_by call.now.program.now) ≡ true }
    ensures asks { IfOk result (Asks call.now) }
    ensures wrong { IfErr result (IsWrong AskNothing call.now) }
{
    let words = match ask_words(alloc, call) {
        Ok(words) => words,
        Err(answer) => return Err(answer),
    };
    match request_of(options_of(&words)) {
        Some(request) => Ok(request),
        None => Err(Answer::Unfit(NOTHING)),
    }
}

// Tells a fault in a line, with the name of a deck that could not be opened.
fn tell<E: Write>(alloc: Global, err: &mut E, program: &str, big: &str, fault: SplitFault) -> u8
    ensures status { result ≡ FAULT }
    ensures line { Tells program.now (split_text fault) (E.contents err.old) (E.contents err.new) }
{
    match fault {
        SplitFault::Deck(error) => tell_fault(alloc, err, program, Unopened(big, error)),
        fault => tell_fault(alloc, err, program, fault),
    }
}

/// Reads the words of the command line, and by them splits a deck, as `split` does. It returns the status of the
/// process, as `attend` of `xb_command` says; only help and the version are written to `out`.
///
/// Unless a deck is split, or a name is at fault, the list of each folder stays as it was, and no decks are left that
/// have no names. In the contract such a list stands where the input would, which is not read.
pub fn attend_split<F: SplitFiles, W: Write, E: Write>(
    alloc: Global,
    call: &Call<'_>,
    files: &mut F,
    out: &mut W,
    err: &mut E,
) -> u8
    requires { is_simple_and_free (command_by call.now.program.now) ≡ true }
    ensures attends { (folder : List ℕ) → AttendsBy (by_split (record {
      has_any = F.filled files.old;
      fresh = F.fresh files.old;
      named = F.named files.new;
      before = F.listed files.old;
      after = F.listed files.new;
    })) call.now (F.bytes files.old)
        (streams (F.listed files.old folder) (W.contents out.old) (E.contents err.old))
        (streams (F.listed files.new folder) (W.contents out.new) (E.contents err.new)) result }
    ensures none_left { LeavesNone (F.unfinished files.old) (F.unfinished files.new) }
{
    match ask(alloc, call) {
        Ok(request) => match split(alloc, files, &request) {
            Ok(()) => DONE,
            Err(fault) => tell(alloc, err, call.program.name, request.big, fault),
        },
        Err(answer) => tell_answer(alloc, out, err, call.program, answer),
    }
}
