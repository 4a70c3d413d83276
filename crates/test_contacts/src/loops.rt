//! Recordings of contacts, and the program that makes rows of them: each form from some lines, each refusal with its
//! place, and streams that fail. The rows are worked out by hand.
//!
//! Tests alone.

mod attending;
mod by_line;
mod firsts;
mod forms;
mod listing;
mod losing;
mod refusals;
mod ringing;
mod samples;
mod seizing;
mod settling;
mod statuses;
mod tables;
