// How many edges each wire has.
ghost use Rattle.std.specs.Prelude.{◌≡◌, IfOk, OnOk, replicate};
ghost use Rattle.xb_loop.specs.Counts.{IsCountedAfter, event_counted, is_edge, level_seen, nothing_seen, wire_counted};

use std::alloc::{AllocError, Global};
use xb_contact::{Event, Level};

/// What was seen of a wire.
#[derive(Clone, Copy, Debug, PartialEq, Eq)]
pub struct Seen {
    /// Its level, once one was said.
    pub level: Option<Level>,
    /// How many edges it has, up to 2^64 - 1.
    pub edges: u64,
}

// Nothing.
const NOTHING: Seen = Seen {
    level: None,
    edges: 0,
};

/// How many edges the wires of a recording have: those that are said, and levels that are other ones than before.
#[derive(Drop)]
pub struct EdgeCounts {
    /// What was seen of each wire.
    pub seen: Vec<Seen>,
}

// Whether a level after this one is an edge, which may be said to be one.
fn is_edge(said: bool, own: Option<Level>, level: Level) -> bool
    ensures { result ≡ is_edge said own level }
{
    match own {
        Some(last) => said || last != level,
        None => said,
    }
}

impl Seen {
    // A level more, or an edge to it.
    fn with_level(self, said: bool, level: Level) -> Seen
        ensures { result ≡ level_seen self (said, level) }
    {
        let edges = if is_edge(said, self.level, level) {
            self.edges.saturating_add(1)
        } else {
            self.edges
        };
        Seen {
            level: Some(level),
            edges,
        }
    }
}

impl EdgeCounts {
    /// So many wires, of which nothing was said.
    pub fn new(alloc: Global, wires: usize) -> Result<EdgeCounts, AllocError>
        ensures { IfOk result (λ edges. edges.seen.items ≡ replicate wires nothing_seen) }
    {
        let mut seen = Vec::new(alloc);
        for _wire in 0..wires {
            seen.push(NOTHING)?;
        }
        Ok(EdgeCounts { seen })
    }

    // A wire has a level, or an edge to it.
    fn take_level(&mut self, wire: usize, said: bool, level: Level)
        ensures { self.new.seen.items ≡ wire_counted self.old.seen.items wire (said, level) }
    {
        if wire < self.seen.len() {
            self.seen[wire] = self.seen[wire].with_level(said, level);
        }
    }

    // What a recording says next.
    fn take_event(&mut self, event: Event)
        ensures { self.new.seen.items ≡ event_counted self.old.seen.items event }
    {
        match event {
            Event::Ticks(_) | Event::At(_) => {}
            Event::Level(wire, level) => self.take_level(wire, false, level),
            Event::Edge(wire, level) => self.take_level(wire, true, level),
        }
    }

    /// What a recording says next, in order.
    pub fn take(&mut self, events: &[Event])
        ensures { IsCountedAfter self.old.seen.items events.now self.new.seen.items }
    {
        for event in events {
            self.take_event(*event);
        }
    }
}
