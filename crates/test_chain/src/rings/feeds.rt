// Turns of a feed: slices, single rows, closes, the End, and a fault of the source.
use crate::rings::rows::{make, makes};
use rtrb::Consumer;
use std::alloc::Global;
use std::process::Abort;
use std::sync::atomic::{AtomicU64, Ordering};
use std::test::Fail;
use test_kit::sources::Stopping;
use xb_model::{LineNo, Row, RowFault, RowSource};
use xb_posts::Feed;
use xb_ring::{Flow, Gate, Post, Turn, link};

// What a feed does next, or what is looked for in its ring.
#[derive(Clone, Copy, Debug)]
enum Step {
    // a turn moves, and the ring then holds so many items
    Moves(usize),
    // a turn returns this, and the ring holds as many items as before
    Stays(Result<Turn, RowFault>),
    // the makes of these many ms are taken from the ring
    Makes(u32, u32),
    // the close of line 1 is taken from the ring, and then the End
    CloseAndEnd,
    // the End is taken from the ring
    End,
}

// So many makes, the stop after them, the ring's capacity, and what is to be seen.
struct Play {
    name: &'static str,
    makes: u32,
    stop: Option<RowFault>,
    ring: usize,
    steps: &'static [Step],
}

const PLAYS: &[Play] = &[
    Play {
        name: "empty_feed",
        makes: 0,
        stop: None,
        ring: 1,
        steps: &[Step::Moves(1), Step::Stays(Ok(Turn::Ended)), Step::End],
    },
    Play {
        name: "rows_go_as_slices",
        makes: 20,
        stop: None,
        ring: 16,
        steps: &[
            Step::Moves(16),
            Step::Stays(Ok(Turn::Blocked)),
            Step::Makes(1, 16),
            Step::Moves(4),
            Step::Moves(5),
            Step::Moves(6),
            Step::Stays(Ok(Turn::Ended)),
            Step::Makes(17, 20),
            Step::CloseAndEnd,
        ],
    },
    Play {
        name: "rows_that_do_not_fit_go_one_by_one",
        makes: 20,
        stop: None,
        ring: 8,
        steps: &[
            Step::Moves(1),
            Step::Moves(2),
            Step::Moves(3),
            Step::Moves(4),
            Step::Moves(5),
            Step::Moves(6),
            Step::Moves(7),
            Step::Moves(8),
            Step::Stays(Ok(Turn::Blocked)),
            Step::Makes(1, 8),
            Step::Moves(1),
        ],
    },
    Play {
        name: "a_fault_comes_once_and_at_once",
        makes: 3,
        stop: Some(RowFault::Line(4)),
        ring: 8,
        steps: &[
            Step::Stays(Err(RowFault::Line(4))),
            Step::Moves(3),
            Step::Moves(4),
            Step::Stays(Ok(Turn::Ended)),
            Step::Makes(1, 3),
            Step::End,
        ],
    },
];

// The next item of the ring is this.
fn pops(rt: &impl Abort, ring: &mut Consumer<Flow<Row>>, wanted: Flow<Row>) {
    assert_eq!(rt; ring.pop().ok(), Some(wanted));
}

fn pops_makes(
    rt: &impl Abort,
    ring: &mut Consumer<Flow<Row>>,
    first: u32,
    last: u32,
) -> Result<(), Fail> {
    for ms in first..=last {
        pops(rt, ring, Flow::Item(make(ms)?));
    }
    Ok(())
}

// One step, which is as it says.
fn takes<S: RowSource>(
    rt: &impl Abort,
    feed: &mut Feed<S>,
    ring: &mut Consumer<Flow<Row>>,
    step: Step,
) -> Result<(), Fail> {
    let before = ring.slots();
    match step {
        Step::Moves(after) => {
            assert_eq!(rt; feed.turn(), Ok(Turn::Moved));
            assert_eq!(rt; ring.slots(), after);
        }
        Step::Stays(returned) => {
            assert_eq!(rt; feed.turn(), returned);
            assert_eq!(rt; ring.slots(), before);
        }
        Step::Makes(first, last) => pops_makes(rt, ring, first, last)?,
        Step::CloseAndEnd => {
            let line = LineNo::new(1).ok_or("a line")?;
            pops(rt, ring, Flow::Item(Row::close(line)));
            pops(rt, ring, Flow::End);
        }
        Step::End => pops(rt, ring, Flow::End),
    }
    Ok(())
}

// All steps of a play.
fn plays(rt: &impl Abort, alloc: Global, play: &Play) -> Result<(), Fail> {
    if play.ring < 1 || play.ring > 16 {
        return Err(Fail::from("no such ring"));
    }
    let rows = makes(alloc, play.makes)?;
    let (into, mut ring) = link(alloc, play.ring)?;
    let source = Stopping {
        rows: &rows,
        stop: play.stop,
    };
    let mut feed = Feed::new(alloc, source, into)?;
    for step in play.steps {
        takes(rt, &mut feed, &mut ring, *step)?;
    }
    Ok(())
}

#[test]
fn turns_of_a_feed(rt: HostRuntime) -> Result<(), Fail> {
    for play in PLAYS {
        println!(rt; "{}", play.name)?;
        plays(&rt, rt.alloc(), play)?;
    }
    Ok(())
}

// Counts the passes of the feed, and keeps the last number that it was told.
#[derive(Drop)]
struct Passes {
    count: AtomicU64,
    last: AtomicU64,
}

impl Gate for Passes {
    fn pass(&self, post: Post, n: u64) {
        if post == Post::Feed {
            self.count.fetch_add(1, Ordering::SeqCst);
            self.last.store(n, Ordering::SeqCst);
        }
    }
}

// The fault's turn, three rows in one slice, the End, and the turn that ends: four passes.
#[test]
fn serve_returns_the_fault_after_the_end(rt: HostRuntime) -> Result<(), Fail> {
    let passes = Passes {
        count: AtomicU64::new(0),
        last: AtomicU64::new(0),
    };
    let rows = makes(rt.alloc(), 3)?;
    let (into, mut ring) = link(rt.alloc(), 8)?;
    let source = Stopping {
        rows: &rows,
        stop: Some(RowFault::Line(4)),
    };
    let mut feed = Feed::new(rt.alloc(), source, into)?;
    assert_eq!(rt; feed.serve(&rt, &passes), Err(RowFault::Line(4)));
    assert_eq!(rt; passes.count.load(Ordering::SeqCst), 4);
    assert_eq!(rt; passes.last.load(Ordering::SeqCst), 3);
    let _into = feed.into_ends();
    pops_makes(&rt, &mut ring, 1, 3)?;
    pops(&rt, &mut ring, Flow::End);
    Ok(())
}
