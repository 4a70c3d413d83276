// The lines that are listened to, and what is told of them.
ghost use Rattle.std.specs.Prelude.{◌≡◌, ◌-◌, ◌++◌, ◌↔◌, IfOk, IsTrue, OnOk, Some, false, string_bytes, true, unwrap_or};
ghost use Rattle.std.specs.List.{AllByRecursion, flat_map};
ghost use Rattle.xb_feed.specs.Watches.{watch_of};
ghost use Rattle.xb_feed.specs.Watching.{CanChangeWire, CanEdgeWire, CanHear, CanReach, ComesSoon, IsNoGap, all_held, begun_watch, edge_heard, event_told, first_of, has_begun, heard_event, level_heard, line_left, line_noted, lines_noted, silent_line, told_at_edge, told_until, wire_changed, wire_edge_told, wire_edged};

use crate::follower::Follow;
use crate::line::{Line, can_reach, change, edge, end, hold_until, note};
use crate::request::Request;
use std::alloc::{AllocError, Global};
use xb_contact::{Event, Level, Scale};

// The most ms between two times of a recording: 100 days.
const MOST_GAP_MS: u64 = 8_640_000_000;

/// The lines that are listened to, in the order of their wires.
#[derive(Drop)]
pub struct Lines<C, G> {
    lines: Vec<Line<C>>,
    common: G,
    scale: Option<Scale>,
    // The first tick that the recording tells, once it does.
    first: Option<u64>,
    now: u64,
}

// Whether all lines may go on to this tick.
fn can_all_reach<G, C: Follow<G>>(lines: &[Line<C>], tick: u64) -> bool
    ensures { IsTrue result ↔ AllByRecursion (CanReach C.rules tick) lines.now }
{
    for line in lines {
        if !can_reach::<G, C>(line, tick) {
            return false;
        }
    }
    true
}

// Whether a contact is followed already.
fn has_begun<C>(lines: &[Line<C>]) -> bool
    ensures { result ≡ has_begun lines.now }
{
    for line in lines {
        if line.has_level() {
            return true;
        }
    }
    false
}

// Whether so many ticks last no more than 100 days.
fn is_no_gap(scale: Option<Scale>, ticks: u64) -> bool
    ensures { IsTrue result ↔ IsNoGap scale ticks }
{
    match scale {
        Some(scale) => {
            let longest = u128::from(MOST_GAP_MS) * u128::from(scale.ticks);
            u128::from(ticks) * u128::from(scale.ms) <= longest
        }
        None => true,
    }
}

// All lines go on to this tick as they are. What is certain with it is added to the text.
fn hold_all<G, C: Follow<G>>(
    lines: &mut [Line<C>],
    tick: u64,
    text: &mut String,
) -> Result<(), AllocError>
    requires { AllByRecursion (CanReach C.rules tick) lines.old }
    ensures text { OnOk result (string_bytes text.new
        ≡ string_bytes text.old ++ flat_map C.rules.text (told_until C.rules tick lines.old)) }
    ensures held { OnOk result (lines.new ≡ all_held C.rules tick lines.old) }
{
    for line in lines.iter_mut() {
        hold_until::<G, C>(line, tick, text)?;
    }
    Ok(())
}

// The wire of a line has a level from now on. It says false where there is no such wire, or no time can be
// counted.
fn change_line<G: Copy, C: Follow<G> + Drop>(
    lines: &mut [Line<C>],
    wire: usize,
    common: G,
    scale: Scale,
    now: u64,
    level: Level,
) -> bool
    ensures changed { result ≡ true
        → lines.new ≡ wire_changed C.rules common scale now level wire lines.old }
    ensures can { result ≡ true ↔ CanChangeWire (Some scale) wire lines.old }
{
    if wire >= lines.len() {
        return false;
    }
    let line = &mut lines[wire];
    change::<G, C>(line, common, scale, now, level)
}

// The wire of a line has an edge to a level. It says false where there is no such wire, or no time can be counted.
fn edge_line<G: Copy, C: Follow<G> + Drop>(
    lines: &mut [Line<C>],
    wire: usize,
    common: G,
    scale: Scale,
    first: u64,
    now: u64,
    level: Level,
    text: &mut String,
) -> Result<bool, AllocError>
    ensures text { IfOk result (λ taken. taken ≡ true → string_bytes text.new ≡ string_bytes text.old
        ++ flat_map C.rules.text (wire_edge_told C.rules common scale first now level wire lines.old)) }
    ensures edged { IfOk result (λ taken. taken ≡ true
        → lines.new ≡ wire_edged C.rules common scale first now level wire lines.old) }
    ensures can { IfOk result (λ taken.
        taken ≡ true ↔ CanEdgeWire C.rules common (Some scale) first now level wire lines.old) }
    ensures kept { IfOk result (λ taken. taken ≡ false → string_bytes text.new ≡ string_bytes text.old) }
{
    if wire >= lines.len() {
        return Ok(false);
    }
    let own = &mut lines[wire];
    edge::<G, C>(own, common, scale, first, now, level, text)
}

// Adds the notes of lines.
fn note_all<G, C: Follow<G>>(
    lines: &[Line<C>],
    scale: Scale,
    notes: &mut String,
) -> Result<(), AllocError>
    ensures { OnOk result (string_bytes notes.new
        ≡ string_bytes notes.old ++ flat_map (line_noted C.rules scale) lines.now) }
{
    for line in lines {
        note::<G, C>(line, scale, notes)?;
    }
    Ok(())
}

// The recording ends, and what is left of all lines is added to the text.
fn end_all<G, C: Follow<G>>(lines: &mut [Line<C>], text: &mut String) -> Result<(), AllocError>
    ensures { OnOk result (string_bytes text.new
        ≡ string_bytes text.old ++ flat_map C.rules.text (flat_map (line_left C.rules) lines.old)) }
{
    for line in lines.iter_mut() {
        end::<G, C>(line, text)?;
    }
    Ok(())
}

impl<C, G> Lines<C, G> {
    /// The lines that are asked for.
    pub(crate) fn new(alloc: Global, request: &Request<'_, G>) -> Result<Lines<C, G>, AllocError>
    where
        C: Drop,
        G: Copy,
        ensures { IfOk result (λ lines.
            watch_of lines ≡ begun_watch request.now.common request.now.lines.items) }
    {
        let mut lines = Vec::new(alloc);
        for asked in request.lines.iter() {
            lines.push(Line::new(asked.number, asked.manner))?;
        }
        Ok(Lines {
            lines,
            common: request.common,
            scale: None,
            first: None,
            now: 0,
        })
    }

    // Whether a tick comes no more than 100 days after the one before, where a contact is followed.
    fn comes_soon(&self, tick: u64) -> bool
        ensures { IsTrue result ↔ ComesSoon (watch_of self.entry.now) tick }
    {
        !has_begun(&self.lines) || is_no_gap(self.scale, tick.saturating_sub(self.now))
    }

    /// The first line whose wire has had no level.
    pub(crate) fn silent(&self) -> Option<u16>
        ensures { result ≡ silent_line (watch_of self.entry.now).lines }
    {
        for line in self.lines.iter() {
            if !line.has_level() {
                return Some(line.number().get());
            }
        }
        None
    }
}

impl<G: Copy, C: Follow<G> + Drop> Lines<C, G> {
    // All lines hold their levels up to this tick. It says false where the time is too late.
    fn hold_until(&mut self, tick: u64, text: &mut String) -> Result<bool, AllocError>
        ensures text { IfOk result (λ taken. taken ≡ true
            → string_bytes text.new ≡ string_bytes text.old
            ++ flat_map C.rules.text (told_until C.rules tick (watch_of self.old).lines)) }
        ensures held { IfOk result (λ taken. taken ≡ true
            → watch_of self.new ≡ record (watch_of self.old) {
              lines = all_held C.rules tick (watch_of self.old).lines;
              first = Some (unwrap_or (watch_of self.old).first tick);
              now = tick;
            }) }
        ensures can { IfOk result (λ taken.
            taken ≡ true ↔ CanHear C.rules (watch_of self.old) (Event.At tick)) }
        ensures kept { IfOk result (λ taken. taken ≡ false
            → string_bytes text.new ≡ string_bytes text.old) }
    {
        if !can_all_reach::<G, C>(&self.lines, tick) || !self.comes_soon(tick) {
            return Ok(false);
        }
        hold_all::<G, C>(&mut self.lines, tick, text)?;
        self.first = Some(self.first.unwrap_or(tick));
        self.now = tick;
        Ok(true)
    }

    // A wire has a level from now on. It says false where the time cannot be counted.
    fn change(&mut self, wire: usize, level: Level) -> bool
        ensures changed { result ≡ true → watch_of self.new
            ≡ level_heard C.rules (watch_of self.old) (watch_of self.old).scale wire level }
        ensures can { result ≡ true
            ↔ CanChangeWire (watch_of self.old).scale wire (watch_of self.old).lines }
    {
        let Some(scale) = self.scale else {
            return false;
        };
        change_line::<G, C>(&mut self.lines, wire, self.common, scale, self.now, level)
    }

    // A wire has an edge to a level. It says false where the time cannot be counted.
    fn edge(&mut self, wire: usize, level: Level, text: &mut String) -> Result<bool, AllocError>
        ensures text { IfOk result (λ taken. taken ≡ true → string_bytes text.new ≡ string_bytes text.old
            ++ flat_map C.rules.text (told_at_edge C.rules (watch_of self.old) (watch_of self.old).scale wire level)) }
        ensures heard { IfOk result (λ taken. taken ≡ true
            → watch_of self.new ≡ edge_heard C.rules (watch_of self.old) (watch_of self.old).scale wire level) }
        ensures can { IfOk result (λ taken.
            taken ≡ true ↔ CanHear C.rules (watch_of self.old) (Event.Edge wire level)) }
        ensures kept { IfOk result (λ taken. taken ≡ false
            → string_bytes text.new ≡ string_bytes text.old) }
    {
        let Some(scale) = self.scale else {
            return Ok(false);
        };
        let first = self.first.unwrap_or(self.now);
        edge_line::<G, C>(
            &mut self.lines,
            wire,
            self.common,
            scale,
            first,
            self.now,
            level,
            text,
        )
    }

    /// What a recording says next. It says false where the time cannot be counted, or comes over 100 days after the one
    /// before.
    pub(crate) fn take(&mut self, event: Event, text: &mut String) -> Result<bool, AllocError>
        ensures text { IfOk result (λ taken. taken ≡ true
            → string_bytes text.new ≡ string_bytes text.old
            ++ flat_map C.rules.text (event_told C.rules (watch_of self.old) event)) }
        ensures heard { IfOk result (λ taken. taken ≡ true
            → watch_of self.new ≡ heard_event C.rules (watch_of self.old) event) }
        ensures can { IfOk result (λ taken. taken ≡ true ↔ CanHear C.rules (watch_of self.old) event) }
        ensures kept { IfOk result (λ taken. taken ≡ false
            → string_bytes text.new ≡ string_bytes text.old) }
    {
        match event {
            Event::Ticks(scale) => {
                self.scale = Some(scale);
                Ok(true)
            }
            Event::At(tick) => self.hold_until(tick, text),
            Event::Level(wire, level) => Ok(self.change(wire, level)),
            Event::Edge(wire, level) => self.edge(wire, level, text),
        }
    }

    /// Adds the notes of all lines whose wires had a level.
    pub(crate) fn note(&self, notes: &mut String) -> Result<(), AllocError>
        ensures { OnOk result (string_bytes notes.new ≡ string_bytes notes.old
            ++ lines_noted C.rules (watch_of self.entry.now).scale (watch_of self.entry.now).lines) }
    {
        match self.scale {
            Some(scale) => note_all::<G, C>(&self.lines, scale, notes),
            None => Ok(()),
        }
    }

    /// The recording ends, and what is left of all lines is added to the text.
    pub(crate) fn end(&mut self, text: &mut String) -> Result<(), AllocError>
        ensures { OnOk result (string_bytes text.new ≡ string_bytes text.old
            ++ flat_map C.rules.text (flat_map (line_left C.rules) (watch_of self.old).lines)) }
    {
        end_all::<G, C>(&mut self.lines, text)
    }
}
