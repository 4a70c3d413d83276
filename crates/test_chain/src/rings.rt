//! Rings and the posts between them: a turn at a time, on threads, and by random schedules; how a post
//! waits; and the feed and the tape station, turn by turn.
//!
//! Tests alone.

mod deals;
mod feeds;
mod gates;
mod gathers;
mod items;
mod looks;
mod numbered;
mod pauses;
mod rings;
mod rows;
mod schedules;
mod stages;
mod stations;
mod tapes;
