// The program: by its first word it splits a deck or joins pages.
ghost use Rattle.std.specs.Prelude.{◌≡◌, true};
ghost use Rattle.clap.specs.Faults.{is_simple_and_free};
ghost use Rattle.xb_command.specs.Programs.{streams};
ghost use Rattle.xb_command.specs.Tables.{command_by};
ghost use Rattle.xb_command.specs.Works.{IsWrong};
ghost use Rattle.xb_parts.specs.Program.{AttendsOffice, IsLike, NamesNoStep};
ghost use Rattle.xb_parts.specs.Splits.{LeavesNone};

use crate::join_program::attend_join;
use crate::split_files::SplitFiles;
use crate::split_program::attend_split;
use crate::words::{Step, after_name, first_two, misfit_of, step_of};
use std::alloc::Global;
use std::io::{Read, Write};
use xb_command::{Answer, Call, Files, Program, ask_words, tell_answer};

// The call of a program by other words.
fn call_by<'a>(call: &Call<'a>, program: &'a Program<'a>, words: &'a [String]) -> Call<'a>
    ensures program { result.program ≡ program.entry }
    ensures words { result.words ≡ words.entry }
    ensures like { IsLike call.now result }
{
    Call {
        program,
        words,
        is_typed: call.is_typed,
        is_shown: call.is_shown,
    }
}

// Why the words of a call name no step.
fn why_none<'a>(alloc: Global, call: &Call<'a>) -> Answer<'a>
    requires { is_simple_and_free (command_by call.now.program.now) ≡ true }
    ensures { IsWrong NamesNoStep call.now result }
{
    match ask_words(alloc, call) {
        Ok(words) => Answer::Unfit(misfit_of(&words)),
        Err(answer) => answer,
    }
}

/// Reads the first word of the command line, and by it does what `attend_split` or `attend_join` does with the
/// words after the name, by the table that is given for it. Of any other first word, or none, it tells help, the
/// version, or why that is no step. It returns the status of the process, as `attend` of `xb_command` says.
pub fn attend<'a, S: SplitFiles, F: Files, R: Read, W: Write, E: Write>(
    alloc: Global,
    call: &Call<'a>,
    split: &'a Program<'a>,
    join: &'a Program<'a>,
    folders: &mut S,
    files: &F,
    input: &mut R,
    out: &mut W,
    err: &mut E,
) -> u8
    requires own { is_simple_and_free (command_by call.now.program.now) ≡ true }
    requires split { is_simple_and_free (command_by split.now) ≡ true }
    requires join { is_simple_and_free (command_by join.now) ≡ true }
    ensures attends { AttendsOffice call.now split.now join.now (record {
      has_any = S.filled folders.old;
      fresh = S.fresh folders.old;
      named = S.named folders.new;
      before = S.listed folders.old;
      after = S.listed folders.new;
    }) (S.bytes folders.old) (F.bytes files.now)
        (streams (R.remaining input.old) (W.contents out.old) (E.contents err.old))
        (streams (R.remaining input.new) (W.contents out.new) (E.contents err.new)) result }
    ensures none_left { LeavesNone (S.unfinished folders.old) (S.unfinished folders.new) }
{
    let rest = after_name(call.words);
    match step_of(rest) {
        Step::Split => {
            let call = call_by(call, split, rest);
            attend_split(alloc, &call, folders, out, err)
        }
        Step::Join => {
            let call = call_by(call, join, rest);
            attend_join(alloc, &call, files, input, out, err)
        }
        Step::Neither => {
            let begun = call_by(call, call.program, first_two(call.words));
            tell_answer(alloc, out, err, begun.program, why_none(alloc, &begun))
        }
    }
}
