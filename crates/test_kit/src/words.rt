// The words of a command line.
ghost use Rattle.std.specs.Prelude.{◌≡◌};

use std::alloc::{AllocError, Global};
use xb_command::{Call, Program};

/// The words of a command line, of which the program's name is the first.
pub fn words_of(alloc: Global, program: &str, words: &[&str]) -> Result<Vec<String>, AllocError> {
    let mut all = Vec::new(alloc);
    all.push(program.to_string(alloc)?)?;
    for word in words {
        all.push(word.to_string(alloc)?)?;
    }
    Ok(all)
}

/// A call of a program by these words, the program's name first, whose streams are no terminals.
pub fn called<'a>(program: &'a Program<'a>, words: &'a [String]) -> Call<'a>
    ensures { result.program ≡ program.entry }
{
    Call {
        program,
        words,
        is_typed: false,
        is_shown: false,
    }
}
