// How a post waits, by a clock that counts the sleeps.
use std::io;
use std::process::Abort;
use std::sync::atomic::{AtomicU64, Ordering};
use std::time::{Clock, Duration};
use xb_ring::Pause;

// How often a wait yields before it sleeps.
const AWAKE: u64 = 64;

// The room of the ring.
const ROOM: usize = 64;

// A clock that stands still, and counts how often, and for how many microseconds in all, it is slept by.
#[derive(Drop)]
struct Naps {
    count: AtomicU64,
    micros: AtomicU64,
}

impl Clock for Naps {
    fn monotonic(&self) -> io::Result<Duration> {
        Ok(Duration::ZERO)
    }

    fn since_1970(&self) -> io::Result<Duration> {
        Ok(Duration::ZERO)
    }

    fn sleep(&self, duration: Duration) {
        self.count.fetch_add(1, Ordering::SeqCst);
        self.micros
            .fetch_add(u64::from(duration.subsec_micros()), Ordering::SeqCst);
    }
}

// A clock that was not slept by.
fn no_naps() -> Naps {
    Naps {
        count: AtomicU64::new(0),
        micros: AtomicU64::new(0),
    }
}

// So many waits, with which the clock has been slept by so often, for so many microseconds in all.
fn check_waits(rt: &impl Abort, pause: &mut Pause, naps: &Naps, waits: u64, slept: (u64, u64)) {
    for _ in 0..waits {
        pause.wait(naps);
    }
    let (count, micros) = slept;
    assert_eq!(rt; naps.count.load(Ordering::SeqCst), count);
    assert_eq!(rt; naps.micros.load(Ordering::SeqCst), micros);
}

// A wait yields 64 times before it sleeps, and each sleep after the second is longer. Where it has found
// little, the next sleeps at once; where it has found a third of the ring, the next is half as long.
#[test]
fn waits_yield_and_then_sleep(rt: HostRuntime) {
    let naps = no_naps();
    let mut pause = Pause::new();
    check_waits(&rt, &mut pause, &naps, AWAKE, (0, 0));
    pause.over(20, ROOM);
    check_waits(&rt, &mut pause, &naps, AWAKE, (0, 0));
    check_waits(&rt, &mut pause, &naps, 3, (3, 1 + 1 + 3));
    pause.over(0, ROOM);
    check_waits(&rt, &mut pause, &naps, 2, (5, 5 + 7 + 15));
    pause.over(20, ROOM);
    check_waits(&rt, &mut pause, &naps, 1, (6, 27 + 15));
    check_waits(&rt, &mut pause, &naps, 4, (10, 42 + 31 + 63 + 127 + 127));
}

// A short sleep that has found half of the ring was too long: the next waits yield, and two that find
// little have one sleep at once again. In a ring of one item none does.
#[test]
fn waits_that_slept_too_long_yield_again(rt: HostRuntime) {
    let naps = no_naps();
    let mut pause = Pause::new();
    check_waits(&rt, &mut pause, &naps, 1, (0, 0));
    pause.over(0, ROOM);
    check_waits(&rt, &mut pause, &naps, 1, (1, 1));
    pause.over(32, ROOM);
    for _ in 0..2 {
        check_waits(&rt, &mut pause, &naps, 1, (1, 1));
        pause.over(0, ROOM);
    }
    check_waits(&rt, &mut pause, &naps, 1, (2, 2));
    let mut of_one = Pause::new();
    for _ in 0..3 {
        check_waits(&rt, &mut of_one, &naps, AWAKE, (2, 2));
        of_one.over(0, 1);
    }
}
