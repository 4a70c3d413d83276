//! Sounds heard as pages, and each fault of a sound.
//!
//! Tests alone.

mod calling;
mod forms;
mod heads;
mod measured;
mod pages;
mod statuses;
