// The lines that gpiomon writes.
ghost use Rattle.std.specs.Prelude.{◌≡◌, ◌++◌, ◌∷◌, ◌<◌, [], Err, IfErr, IfOk, IfSome, Ok, OnOk, is_some, length, map, option_copied, option_map};
ghost use Rattle.std.specs.List.{position};
ghost use Rattle.xb_contact.specs.Steps.{Adds, IsRefusedBy};
ghost use Rattle.xb_csv.specs.Gpiomons.{between, edge_line_says, edge_of, edge_said, edge_says, edge_taken, first_kind, first_word, gpiomon_line_says, gpiomon_says, gpiomon_state, gpiomon_with, is_gap, is_name, is_numbered, level_after, level_taken, levels_after, name_of_wire, named_edges, names_wire, second_kind, time_said, wire_of_edge};

use crate::cells::trimmed;
use crate::seconds::nanoseconds_of;
use std::alloc::Global;
use xb_contact::{Event, Level, NANOSECONDS, Refusal, is_before, number_of, say};

/// The reader of what gpiomon writes, of libgpiod 1 and 2: a line for each edge. A wire has the number of its
/// line, and, where libgpiod 2 writes it, its name, with quotes or without. It rises and falls in turn: where two edges of
/// one direction follow each other, one between them is lost. That is refused, unless edges may be lost; then the
/// second one is said as it stands, and changes no level.
#[derive(Drop)]
pub struct Gpiomon<'a> {
    // Whether edges may be lost.
    lossy: bool,
    names: &'a [&'a str],
    // The level of each wire, once an edge has told it.
    levels: Vec<Option<Level>>,
    last: Option<u64>,
}

// What a line says.
#[derive(Clone, Copy)]
struct Edge<'b> {
    time: &'b [u8],
    level: Level,
    // All that is written of the wire.
    wire: &'b [u8],
}

// Whether words are parted by a byte.
fn is_gap(byte: u8) -> bool
    ensures { result ≡ is_gap byte }
{
    byte == b' ' || byte == b'\t'
}

// Where the first word of a text ends, if something follows it.
fn gap_in(text: &[u8]) -> Option<usize>
    ensures first { result ≡ position is_gap text.now }
    ensures within { IfSome result (λ end. end < length text.now) }
{
    text.iter().position(|byte| is_gap(*byte))
}

/// The first word of a text, and what follows it. Words are parted by spaces and tabs.
#[tactic(auto, unfolding(crate::specs::Gpiomons::first_word))]
pub(crate) fn first_word(text: &[u8]) -> (&[u8], &[u8])
    ensures word { result.0.now ≡ (first_word text.now).0 }
    ensures rest { result.1.now ≡ (first_word text.now).1 }
{
    let text = trimmed(text);
    match gap_in(text) {
        Some(end) => (&text[..end], trimmed(&text[end..])),
        None => (text, b"".as_slice()),
    }
}

// A text without a byte before it and one after it, if they are there.
#[tactic(auto, unfolding(crate::specs::Gpiomons::between))]
fn between(text: &[u8], before: u8, after: u8) -> Option<&[u8]>
    ensures { option_copied result ≡ between before after text.now }
{
    let count = text.len();
    if count < 2 || text[0] != before || text[count - 1] != after {
        return None;
    }
    Some(trimmed(&text[1..count - 1]))
}

// The level of a wire that rises, or falls.
fn level_after(word: &[u8]) -> Option<Level>
    ensures { result ≡ level_after word.now }
{
    if word == b"RISING".as_slice() || word == b"rising".as_slice() {
        Some(Level::Closed)
    } else if word == b"FALLING".as_slice() || word == b"falling".as_slice() {
        Some(Level::Open)
    } else {
        None
    }
}

// `event: RISING EDGE offset: 17 timestamp: [ 123.456789012]`
#[tactic(auto, unfolding(crate::specs::Gpiomons::first_kind))]
fn edge_of_first_kind(line: &[u8]) -> Option<Edge<'_>>
    ensures { option_map edge_said result ≡ first_kind line.now }
{
    let (_, rest) = first_word(line);
    let (kind, rest) = first_word(rest);
    let (edge, rest) = first_word(rest);
    let (offset, rest) = first_word(rest);
    let (wire, rest) = first_word(rest);
    let (timestamp, rest) = first_word(rest);
    if edge != b"EDGE".as_slice()
        || offset != b"offset:".as_slice()
        || timestamp != b"timestamp:".as_slice()
    {
        return None;
    }
    let (Some(level), Some(time)) = (level_after(kind), between(rest, b'[', b']')) else {
        return None;
    };
    Some(Edge { time, level, wire })
}

// Whether a text is this name, as it stands or in quotes.
fn is_name(name: &[u8], text: &[u8]) -> bool
    ensures { result ≡ is_name name.now text.now }
{
    if name == text {
        return true;
    }
    match between(text, b'"', b'"') {
        Some(inner) => name == inner,
        None => false,
    }
}

// Whether a number, or the name after it, is this name.
fn is_numbered(name: &[u8], text: &[u8]) -> bool
    ensures { result ≡ is_numbered name.now text.now }
{
    let (number, rest) = first_word(text);
    number_of(number).is_some() && (name == number || is_name(name, rest))
}

// Whether a name is one of a wire, of which gpiomon writes this text: `gpiochip0 17`, `gpiochip0 17 "GPIO17"`,
// `"GPIO17"`, or without quotes.
#[tactic(auto, unfolding(crate::specs::Gpiomons::names_wire))]
fn names_wire(name: &[u8], text: &[u8]) -> bool
    ensures { result ≡ names_wire name.now text.now }
{
    if name == text {
        return true;
    }
    match between(text, b'"', b'"') {
        Some(inner) => name == inner,
        None => {
            let (_, rest) = first_word(text);
            name == rest || is_numbered(name, rest)
        }
    }
}

// `123.456789012 rising gpiochip0 17 "GPIO17"`, or with less of what stands after the direction.
#[tactic(auto, unfolding(crate::specs::Gpiomons::second_kind))]
fn edge_of_second_kind(line: &[u8]) -> Option<Edge<'_>>
    ensures { option_map edge_said result ≡ second_kind line.now }
{
    let (time, rest) = first_word(line);
    let (kind, rest) = first_word(rest);
    match level_after(kind) {
        Some(level) if !rest.is_empty() => Some(Edge {
            time,
            level,
            wire: rest,
        }),
        _ => None,
    }
}

// What a line says.
fn edge_of(line: &[u8]) -> Option<Edge<'_>>
    ensures { option_map edge_said result ≡ edge_of line.now }
{
    if line.starts_with(b"event:") {
        edge_of_first_kind(line)
    } else {
        edge_of_second_kind(line)
    }
}

/// Whether gpiomon writes such a line.
pub fn is_of_gpiomon(line: &[u8]) -> bool
    ensures { result ≡ is_some (edge_of line.now) }
{
    edge_of(line).is_some()
}

// A name of the wire of which gpiomon writes this text: what stands in quotes, or else after the chip, and of that the
// number, if it begins with one.
#[tactic(auto, unfolding(crate::specs::Gpiomons::name_of_wire))]
fn name_of_wire(text: &[u8]) -> &[u8]
    ensures { result.now ≡ name_of_wire text.now }
{
    if let Some(inner) = between(text, b'"', b'"') {
        return inner;
    }
    let (_, rest) = first_word(text);
    if rest.is_empty() {
        return text;
    }
    let (number, _) = first_word(rest);
    if number_of(number).is_some() {
        number
    } else {
        rest
    }
}

/// A name of the wire whose edge this line of gpiomon tells, if it tells one.
pub fn wire_of_edge(line: &[u8]) -> Option<&[u8]>
    ensures { option_copied result ≡ wire_of_edge line.now }
{
    match edge_of(trimmed(line)) {
        Some(edge) => Some(name_of_wire(edge.wire)),
        None => None,
    }
}

// The level of a wire after an edge, which was not that level before, unless edges may be lost.
fn edge_taken(lossy: bool, own: Option<Level>, level: Level) -> Result<Option<Level>, Refusal>
    ensures { result ≡ edge_taken lossy own level }
{
    match own {
        Some(last) if last == level && !lossy => Err(Refusal::LostEdge),
        Some(_) | None => Ok(Some(level)),
    }
}

// The level of the wire of this name after an edge of those that a text names.
fn level_taken(
    lossy: bool,
    name: &str,
    text: &[u8],
    own: Option<Level>,
    level: Level,
) -> Result<Option<Level>, Refusal>
    ensures { result ≡ level_taken lossy text.now level name.now own }
{
    if names_wire(name.as_bytes(), text) {
        edge_taken(lossy, own, level)
    } else {
        Ok(own)
    }
}

// The wires that a text names have an edge.
fn take_levels(
    lossy: bool,
    names: &[&str],
    text: &[u8],
    level: Level,
    levels: &mut [Option<Level>],
) -> Result<(), Refusal>
    ensures said { OnOk result
        (levels_after lossy text.now level (map (λ name. name.now) names.now) levels.old ≡ Ok levels.new) }
    ensures refused { IfErr result (λ e.
        levels_after lossy text.now level (map (λ name. name.now) names.now) levels.old ≡ Err e) }
{
    for (i, own) in levels.iter_mut().enumerate() {
        match names.get(i) {
            Some(name) => *own = level_taken(lossy, name, text, *own, level)?,
            None => return Ok(()),
        }
    }
    Ok(())
}

// Says the edges of the wires that a text names.
fn say_named(
    names: &[&str],
    text: &[u8],
    level: Level,
    events: &mut Vec<Event>,
) -> Result<(), Refusal>
    ensures said { OnOk result (events.new.items ≡ events.old.items
        ++ named_edges 0 text.now level (map (λ name. name.now) names.now)) }
    ensures only { IfErr result (λ e. e ≡ Refusal.NoMemory) }
{
    for (i, name) in names.iter().enumerate() {
        if names_wire(name.as_bytes(), text) {
            say(events, Event::Edge(i, level))?;
        }
    }
    Ok(())
}

// Says a time after the last one.
fn say_time(last: Option<u64>, time: u64, events: &mut Vec<Event>) -> Result<(), Refusal>
    ensures said { OnOk result (events.new.items ≡ events.old.items ++ time_said last time) }
    ensures only { IfErr result (λ e. e ≡ Refusal.NoMemory) }
{
    match last {
        None => {
            say(events, Event::Ticks(NANOSECONDS))?;
            say(events, Event::At(time))
        }
        Some(_) => say(events, Event::At(time)),
    }
}

impl<'a> Gpiomon<'a> {
    /// A reader that has read nothing. The wires are those of these names; `lossy` says whether edges may be lost. It is
    /// refused where memory runs out.
    pub fn new(alloc: Global, lossy: bool, names: &'a [&'a str]) -> Result<Gpiomon<'a>, Refusal>
        ensures begun { IfOk result (λ gpiomon.
            gpiomon_state gpiomon ≡ gpiomon_with lossy (map (λ name. name.now) names.now) None) }
        ensures only { IfErr result (λ e. e ≡ Refusal.NoMemory) }
    {
        let mut levels = Vec::new(alloc);
        for _name in names {
            if levels.push(None).is_err() {
                return Err(Refusal::NoMemory);
            }
        }
        Ok(Gpiomon {
            lossy,
            names,
            levels,
            last: None,
        })
    }

    // An edge at this time.
    fn take_edge(
        &mut self,
        edge: Edge<'_>,
        time: u64,
        events: &mut Vec<Event>,
    ) -> Result<(), Refusal>
        ensures said { OnOk result (Adds (edge_says (gpiomon_state self.old) (edge_said edge.entry) time)
            events.old.items events.new.items (gpiomon_state self.new)) }
        ensures refused { IfErr result (IsRefusedBy
            (edge_says (gpiomon_state self.old) (edge_said edge.entry) time)) }
    {
        if is_before(time, self.last) {
            return Err(Refusal::Backwards);
        }
        take_levels(
            self.lossy,
            self.names,
            edge.wire,
            edge.level,
            &mut self.levels,
        )?;
        say_time(self.last, time, events)?;
        self.last = Some(time);
        say_named(self.names, edge.wire, edge.level, events)
    }

    // A line that is not empty.
    fn take_edge_line(&mut self, line: &[u8], events: &mut Vec<Event>) -> Result<(), Refusal>
        ensures said { OnOk result (Adds (edge_line_says (gpiomon_state self.old) line.now)
            events.old.items events.new.items (gpiomon_state self.new)) }
        ensures refused { IfErr result (IsRefusedBy (edge_line_says (gpiomon_state self.old) line.now)) }
    {
        let Some(edge) = edge_of(line) else {
            return Err(Refusal::Edge);
        };
        match nanoseconds_of(edge.time) {
            Some(time) => self.take_edge(edge, time, events),
            None => Err(Refusal::Time),
        }
    }

    /// Takes a line, and adds what it says to `events`. After an `Err` the reader is not to be used again.
    pub fn take_line(&mut self, line: &[u8], events: &mut Vec<Event>) -> Result<(), Refusal>
        ensures said { OnOk result (Adds (gpiomon_line_says (gpiomon_state self.old) line.now)
            events.old.items events.new.items (gpiomon_state self.new)) }
        ensures refused { IfErr result (IsRefusedBy (gpiomon_line_says (gpiomon_state self.old) line.now)) }
    {
        let line = trimmed(line);
        if line.is_empty() {
            return Ok(());
        }
        self.take_edge_line(line, events)
    }

    /// The last line, after which nothing is left to be said. After an `Err` the reader is not to be used again.
    pub fn end(&mut self, line: &[u8], events: &mut Vec<Event>) -> Result<(), Refusal>
        requires { events.old.items ≡ [] }
        ensures said { OnOk result
            (gpiomon_says (gpiomon_state self.old) (line.now ∷ []) ≡ Ok events.new.items) }
        ensures refused { IfErr result (IsRefusedBy
            (gpiomon_says (gpiomon_state self.old) (line.now ∷ []))) }
    {
        self.take_line(line, events)
    }
}
