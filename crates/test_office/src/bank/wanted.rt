// The tapes that are wanted of a schedule.
use crate::bank::played::Played;
use std::alloc::{AllocError, Global};
use xb_model::{LineNo, Row};
use xb_routes::RouteTable;
use xb_serial::key_serial;
use xb_tape::Tapes;

/// The tapes of the chain on one thread, and the lines that are looked at.
#[derive(Drop)]
pub struct Wanted {
    tapes: Tapes,
    lines: Vec<LineNo>,
}

// The lines of the rows, and line 0, on which the worked decks have no row.
fn lines_of(alloc: Global, rows: &[Row]) -> Result<Vec<LineNo>, AllocError> {
    let mut lines = vec![in alloc; LineNo::default()]?;
    for row in rows {
        let line = row.line();
        if !lines.contains(&line) {
            lines.push(line)?;
        }
    }
    Ok(lines)
}

impl Wanted {
    /// The tapes of these rows by this table.
    pub fn of_rows(alloc: Global, rows: &[Row], table: &RouteTable) -> Result<Wanted, AllocError> {
        Ok(Wanted {
            tapes: key_serial(alloc, rows, table)?,
            lines: lines_of(alloc, rows)?,
        })
    }

    // Whether the marks of each line so far are the beginning of its tape.
    fn begin_with(&self, played: &impl Played) -> bool {
        for line in &self.lines {
            if !self.tapes.marks(*line).starts_with(played.marks(*line)) {
                return false;
            }
        }
        true
    }

    /// Whether the marks of each line so far are the beginning of its tape, and once all posts have
    /// ended the whole.
    pub fn agree_with(&self, played: &impl Played) -> bool {
        self.begin_with(played) && (!played.ended() || self.are_given_by(played))
    }

    /// Whether all posts have ended, and the marks of each line are its tape.
    pub fn are_given_by(&self, played: &impl Played) -> bool {
        for line in &self.lines {
            if self.tapes.marks(*line) != played.marks(*line) {
                return false;
            }
        }
        played.ended()
    }

    /// How many marks the lines have so far.
    pub fn count_of_marks(&self, played: &impl Played) -> usize {
        let mut count: usize = 0;
        for line in &self.lines {
            count = count.saturating_add(played.marks(*line).len());
        }
        count
    }
}
