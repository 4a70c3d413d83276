//! The process of a program: its words and its streams go to what the program does, whose status is that of the process.
//!
//! - `serve`, for a program by its `Work`: the process ends with the status that `attend` of `xb_command` returns for a
//!   call of the program by the words of the process, or with `READER_GONE` (`Serves`).
//! - `serve_by`, for a program that takes more of its process, as threads or folders: the same by any function of a call
//!   and the two streams that are written.
//! - Without words the process ends with `FAULT`, and its stream of errors gets one line, which says why.
//!
//! Not said: what passes through the streams of a process and what its files have, since no contract can name that.
#![tactic(auto)]

mod serving;

pub use serving::{serve, serve_by};
pub use xb_command::words_of_process;
