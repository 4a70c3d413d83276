// The dial of a line, settled run by settled run.
ghost use Rattle.std.specs.Prelude.{◌≡◌, ◌<◌};
ghost use Rattle.xb_contact.specs.Times.{ms_at};
ghost use Rattle.xb_turns.specs.Dials.{begun_dial, dial_after, left_by, lengthened, ms_between, place_after};
ghost use Rattle.xb_turns.specs.Dials.{place_after_break, place_after_make, run_of, said_by, said_now, said_of};
ghost use Rattle.xb_turns.specs.Dials.{turned};

use crate::figures::product;
use crate::train::{Timed, Train};
use xb_contact::{Hold, Level, Scale};
use xb_model::Limits;

/// Where a line is.
#[derive(Clone, Copy, Debug, PartialEq, Eq)]
pub enum Place {
    /// On hook.
    OnHook,
    /// Seized, or after a pause.
    Waiting,
    /// Within the pulses of a digit.
    Pulsing(Train),
    /// After a make of the time-out or more, where nothing is heard.
    Over,
}

/// What is told of a line.
#[derive(Clone, Copy, Debug, PartialEq, Eq)]
pub enum Said {
    /// A pause ended these pulses, and this is the longest bounce up to it, in ticks.
    Digit(Train, u64),
    /// The line hung up after these pulses, which no pause ended, if there are any.
    HungUp(Option<(Train, u64)>),
}

/// The dial of a line, and its settled run under way.
#[derive(Clone, Copy, Debug)]
pub struct Dial {
    limits: Limits,
    scale: Scale,
    place: Place,
    // The run under way: its level, the ticks from which and up to which it lasts, the longest bounce before it settled,
    // and the longest up to now.
    level: Level,
    from: u64,
    until: u64,
    edge: u64,
    bounce: u64,
}

// The time of a tick in ms, to the nearest, a half rounded up.
fn ms_at(scale: Scale, tick: u64) -> u128
    requires { 0 < scale.ticks }
    ensures { result ≡ ms_at scale tick }
{
    let half = u128::from(scale.ticks / 2);
    (product(tick, scale.ms) + half) / u128::from(scale.ticks)
}

// How many ms lie between two ticks, each rounded once; 2^64 - 1 at most, and 0 where a tick has no length.
fn ms_between(scale: Scale, from: u64, until: u64) -> u64
    ensures { result ≡ ms_between scale from until }
{
    if scale.ticks == 0 {
        return 0;
    }
    let most = u128::from(u64::MAX);
    let ms = ms_at(scale, until).saturating_sub(ms_at(scale, from));
    ms.min(most) as u64
}

// What is told of pulses with the run after them.
fn said_of(limits: Limits, place: Place, level: Level, run: Timed, edge: u64) -> Option<Said>
    ensures { result ≡ said_of limits place level run edge }
{
    match (place, level) {
        (Place::OnHook, _) => None,
        (Place::Pulsing(train), Level::Closed) if run.ms >= u64::from(limits.pause) => {
            Some(Said::Digit(train, train.bounce.max(edge)))
        }
        (Place::Pulsing(train), Level::Open) if run.ms >= u64::from(limits.release) => {
            Some(Said::HungUp(Some((train, train.bounce.max(edge)))))
        }
        (Place::Waiting | Place::Over, Level::Open) if run.ms >= u64::from(limits.release) => {
            Some(Said::HungUp(None))
        }
        _ => None,
    }
}

// Where the line is after a make.
fn place_after_make(limits: Limits, place: Place, run: Timed) -> Place
    ensures { result ≡ place_after_make limits place run }
{
    match place {
        Place::Over => Place::Over,
        _ if run.ms >= u64::from(limits.timeout) => Place::Over,
        Place::OnHook | Place::Waiting => Place::Waiting,
        Place::Pulsing(train) => {
            if run.ms >= u64::from(limits.pause) {
                Place::Waiting
            } else {
                Place::Pulsing(train.with_make(limits, run))
            }
        }
    }
}

// Where the line is after a break.
fn place_after_break(limits: Limits, place: Place, run: Timed) -> Place
    ensures { result ≡ place_after_break limits place run }
{
    match place {
        Place::OnHook => Place::OnHook,
        _ if run.ms >= u64::from(limits.release) => Place::OnHook,
        Place::Over => Place::Over,
        Place::Waiting => Place::Pulsing(Train::begun(limits, run)),
        Place::Pulsing(train) => Place::Pulsing(train.with_break(limits, run)),
    }
}

// Where the line is after a run; one that does not last changes nothing.
fn place_after(limits: Limits, place: Place, level: Level, run: Timed) -> Place
    ensures { result ≡ place_after limits place level run }
{
    if run.ticks == 0 {
        return place;
    }
    match level {
        Level::Closed => place_after_make(limits, place, run),
        Level::Open => place_after_break(limits, place, run),
    }
}

impl Dial {
    /// A dial on hook, whose contact has this level at tick 0.
    pub fn new(limits: Limits, scale: Scale, level: Level) -> Dial
        ensures { result ≡ begun_dial limits scale level }
    {
        Dial {
            limits,
            scale,
            place: Place::OnHook,
            level,
            from: 0,
            until: 0,
            edge: 0,
            bounce: 0,
        }
    }

    // The run under way.
    fn run(self) -> Timed
        ensures { result ≡ run_of self }
    {
        Timed {
            from: self.from,
            ticks: self.until.saturating_sub(self.from),
            ms: ms_between(self.scale, self.from, self.until),
            bounce: self.bounce,
        }
    }

    // What is told with the run under way.
    fn said(self) -> Option<Said>
        ensures { result ≡ said_by self }
    {
        said_of(self.limits, self.place, self.level, self.run(), self.edge)
    }

    // The run under way goes on, and this is the longest of its bounces since then.
    fn lengthened(self, ticks: u64, bounce: u64) -> Dial
        ensures { result ≡ lengthened self ticks bounce }
    {
        Dial {
            until: self.until.saturating_add(ticks),
            bounce: self.bounce.max(bounce),
            ..self
        }
    }

    // A run of the other level begins, and this is the longest bounce before it settled.
    fn turned(self, hold: Hold, bounce: u64) -> Dial
        ensures { result ≡ turned self hold bounce }
    {
        Dial {
            place: place_after(self.limits, self.place, self.level, self.run()),
            level: hold.level,
            from: self.until,
            until: self.until.saturating_add(hold.ticks),
            edge: bounce,
            bounce,
            ..self
        }
    }

    /// A piece of the settled record, and the longest bounce before it settled: the dial then, and what is told with it.
    /// Whatever comes later, that stands.
    pub fn take(self, hold: Hold, bounce: u64) -> (Dial, Option<Said>)
        ensures { result ≡ (dial_after self hold bounce, said_now self hold bounce) }
    {
        if hold.level != self.level {
            let turned = self.turned(hold, bounce);
            return (turned, turned.said());
        }
        let longer = self.lengthened(hold.ticks, bounce);
        match self.said() {
            Some(_) => (longer, None),
            None => (longer, longer.said()),
        }
    }

    /// The recording ends: the pulses that no pause ended, if there are any, and whether a line is off hook.
    pub fn left(self) -> Option<Option<(Train, u64)>>
        ensures { result ≡ left_by self }
    {
        match place_after(self.limits, self.place, self.level, self.run()) {
            Place::OnHook => None,
            Place::Waiting | Place::Over => Some(None),
            Place::Pulsing(train) => Some(Some((train, train.bounce))),
        }
    }
}
