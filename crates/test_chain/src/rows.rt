//! Texts and rows read and written: what no clause says of them, on streams that give little at a time and that
//! fail, and of texts beside the same as streams; decks read of streams; and fields that write numbers.
//!
//! Tests alone.

mod fields;
mod long;
mod plain;
mod readers;
mod records;
mod streams;
mod tables;
