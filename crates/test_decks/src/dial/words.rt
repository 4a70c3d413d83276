// The words of each fault but those of a text line, which `calls.rt` has, as the table of faults has them.
use std::test::Fail;
use test_kit::check_texts;
use xb_calls::{CallFault, SpeedFault};
use xb_dial::DialFault;

#[test]
fn words_of_faults(rt: HostRuntime) -> Result<(), Fail> {
    let faults = &[
        (
            DialFault::Speed(SpeedFault::Break),
            "speed: the break is no pulse",
        ),
        (
            DialFault::Speed(SpeedFault::Make),
            "speed: the make is too short, or a pause",
        ),
        (
            DialFault::Speed(SpeedFault::Pause),
            "speed: the pause is too short, or a time-out",
        ),
        (
            DialFault::Speed(SpeedFault::Seize),
            "speed: the seizing make is 0, or a time-out",
        ),
        (
            DialFault::Speed(SpeedFault::HangUp),
            "speed: the hang-up is no release, or longer than a day",
        ),
        (DialFault::Read, "the calls could not be read"),
        (
            DialFault::TooLong,
            "the calls are longer than 16777216 bytes",
        ),
        (DialFault::Calls(CallFault::NoMemory), "out of memory"),
        (DialFault::NoMemory, "out of memory"),
        (DialFault::Write, "the rows could not be written"),
    ];
    check_texts(rt.alloc(), faults)
}
