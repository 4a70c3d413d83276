// Speeds at the ends of their limits.
use xb_calls::{Speed, SpeedFault};
use xb_model::{GREATEST_MS, Limits};

// 10 pulses a second.
const TEN: Speed = Speed {
    break_ms: 60,
    make_ms: 40,
    pause_ms: 600,
    seize_ms: 500,
    hang_up_ms: 400,
};

const SHORTEST: Speed = Speed {
    break_ms: 20,
    make_ms: 15,
    pause_ms: 180,
    seize_ms: 1,
    hang_up_ms: 300,
};

const LONGEST: Speed = Speed {
    break_ms: 119,
    make_ms: 179,
    pause_ms: 19_999,
    seize_ms: 19_999,
    hang_up_ms: GREATEST_MS,
};

// The time that is changed, and what it is changed to.
#[derive(Clone, Copy)]
enum Time {
    Break(u32),
    Make(u32),
    Pause(u32),
    Seize(u32),
    HangUp(u32),
}

fn with(speed: Speed, time: Time) -> Speed {
    let mut changed = speed;
    match time {
        Time::Break(ms) => changed.break_ms = ms,
        Time::Make(ms) => changed.make_ms = ms,
        Time::Pause(ms) => changed.pause_ms = ms,
        Time::Seize(ms) => changed.seize_ms = ms,
        Time::HangUp(ms) => changed.hang_up_ms = ms,
    }
    changed
}

// A time that is 1 ms too short, and one that is 1 ms too long, by the standard limits.
const BEYOND: &[(Time, SpeedFault)] = &[
    (Time::Break(19), SpeedFault::Break),
    (Time::Break(120), SpeedFault::Break),
    (Time::Make(14), SpeedFault::Make),
    (Time::Make(180), SpeedFault::Make),
    (Time::Pause(179), SpeedFault::Pause),
    (Time::Pause(20_000), SpeedFault::Pause),
    (Time::Seize(0), SpeedFault::Seize),
    (Time::Seize(20_000), SpeedFault::Seize),
    (Time::HangUp(299), SpeedFault::HangUp),
    (Time::HangUp(86_400_001), SpeedFault::HangUp),
];

// Limits of which each is 1 ms, but for the order that they have to be in.
const LEAST: Limits = Limits {
    pulse_min: 1,
    pulse_max: 1,
    make_min: 1,
    pause: 2,
    release: 2,
    timeout: 3,
};

#[test]
fn standard_speeds_fit(rt: HostRuntime) {
    assert!(rt; Speed::ten() == TEN);
    let twenty = Speed {
        break_ms: 30,
        make_ms: 20,
        pause_ms: 600,
        seize_ms: 500,
        hang_up_ms: 400,
    };
    assert!(rt; Speed::twenty() == twenty);
    assert!(rt; Speed::ten().fits(Limits::standard()) == Ok(()));
    assert!(rt; Speed::twenty().fits(Limits::standard()) == Ok(()));
}

#[test]
fn ends_fit_and_nothing_beyond(rt: HostRuntime) {
    for speed in [SHORTEST, LONGEST] {
        assert!(rt; speed.fits(Limits::standard()) == Ok(()));
    }
    for (time, fault) in BEYOND {
        for speed in [TEN, SHORTEST, LONGEST] {
            assert!(rt; with(speed, *time).fits(Limits::standard()) == Err(*fault));
        }
    }
}

#[test]
fn the_first_misfit_is_told(rt: HostRuntime) {
    let fitting = Speed {
        break_ms: 1,
        make_ms: 1,
        pause_ms: 2,
        seize_ms: 2,
        hang_up_ms: 2,
    };
    assert!(rt; fitting.fits(LEAST) == Ok(()));
    assert!(rt; with(fitting, Time::HangUp(1)).fits(LEAST) == Err(SpeedFault::HangUp));
    let none = Speed {
        break_ms: 0,
        make_ms: 0,
        pause_ms: 0,
        seize_ms: 0,
        hang_up_ms: 0,
    };
    assert!(rt; none.fits(LEAST) == Err(SpeedFault::Break));
    assert!(rt; with(none, Time::Break(1)).fits(LEAST) == Err(SpeedFault::Make));
}
