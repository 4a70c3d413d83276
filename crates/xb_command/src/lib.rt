//! What a program does with its words, its files and its streams: the words of a command line as `clap` takes
//! them (options with numbers or texts, flags, and words that stand alone), files that are read whole, the line
//! of a fault or of refused words, the status of the process, and its end where the reader of its output goes
//! away.
//!
//! - A program is a table of its words (`Program`). `ask_words` (`Takes`, `IsAnswer`): what they say, where `clap` takes
//!   them by the command that the table makes and no option lacks another or stands beside one that it does not go with;
//!   or the first wrong word with its reason.
//! - `attend` (`AttendsBy`): words and files in, a status out, by what a program does (`Work`). `specs/Works.antt` has the
//!   form of each program's contract.
//! - `Words::number`, `flag`, `text` and `texts`: what was matched under a name, as a number below 2^32, as
//!   a flag, as it was written, or all that was written.
//! - `tell_fault`: the status is 1, and the stream got one line or its beginning: the program's name, a
//!   colon, and the text of the fault where its type states it, or that memory ran out while the line was
//!   made.
//! - `tell_answer`: help and the version on the output, each exactly; of wrong words one line, with the status 2.
//! - `Pipe`: an output and a stream of errors that hold what the streams below them hold, whose status is the
//!   one that is given, or `READER_GONE`. That is where a write of the output failed with `BrokenPipe`; from
//!   then on the stream of errors gets nothing. No contract can say when, and tests and tries show it.
//! - `Files`: the files that a program reads whole, by their names. What is said of one is said of the bytes
//!   that the caller's `Files` says to be known; those of `SystemFiles` are not.
#![tactic(auto)]

mod answering;
mod asking;
mod judging;
pub mod laws;
mod opening;
mod pipe;
mod reading;
mod system;
mod table;
mod telling;
mod usage;
mod wording;
mod work;

pub use answering::tell_answer;
pub use asking::{Answer, Misfit, NOTHING, ask_words};
pub use judging::Breach;
pub use opening::{InOneLine, NoText, OpenFault, no_text, open_file, open_text};
pub use pipe::{Errors, Output, Pipe, READER_GONE};
pub use reading::Words;
pub use system::{Files, MOST_FILE_BYTES, SystemFiles, words_of_process};
pub use table::{Call, FLAG, Program, VERSION, Value, Word};
pub use telling::{DONE, FAULT, WORDS_REFUSED, tell_fault};
pub use usage::help_of;
pub use work::{Given, Source, Work, attend, file_source, text_source};
