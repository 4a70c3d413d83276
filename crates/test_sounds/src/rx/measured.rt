// A key whose tones are off, in a sound that is reckoned here.
use crate::rx::calling::Mfrx;
use std::alloc::Global;
use std::test::Fail;
use test_kit::{Gives, check_status};

// A sine, in parts of 2^16. Its next sample is 2^30 parts of a factor, twice the cosine of its step, times this one, less
// the one before.
#[derive(Clone, Copy)]
struct Sine {
    factor: i64,
    now: i64,
    next: i64,
}

// 918 Hz, which are 2 % more than 900, and 1,301 Hz, each of an amplitude of 10,196: -7 dBm0.
const LOW: Sine = Sine {
    factor: 1_613_080_044,
    now: 0,
    next: 441_111_022,
};

const HIGH: Sine = Sine {
    factor: 1_120_618_690,
    now: 0,
    next: 570_021_500,
};

// Its sample, and the sine after that.
fn stepped(sine: Sine) -> (i64, Sine) {
    let product = sine.factor.wrapping_mul(sine.next) >> 30;
    let after = Sine {
        factor: sine.factor,
        now: sine.next,
        next: product.wrapping_sub(sine.now),
    };
    (sine.now, after)
}

// Puts so many samples of silence after others.
fn push_silence(bytes: &mut Vec<u8>, count: usize) -> Result<(), Fail> {
    for _ in 0..count {
        bytes.extend_from_slice(&[0, 0])?;
    }
    Ok(())
}

// Puts 68 ms of both sines after them.
fn push_tones(bytes: &mut Vec<u8>) -> Result<(), Fail> {
    let mut low = LOW;
    let mut high = HIGH;
    for _ in 0..544 {
        let (below, low_after) = stepped(low);
        let (above, high_after) = stepped(high);
        let sample = i16::try_from(below.wrapping_add(above) >> 16).unwrap_or(0);
        bytes.extend_from_slice(&sample.to_le_bytes())?;
        low = low_after;
        high = high_after;
    }
    Ok(())
}

// By the truth, and by the second receiver (scripts/trials/second_ear.c).
const KEY: &[u8] =
    b"5 at 100 ms for 67 ms, 918 Hz -7.0 dBm0, 1301 Hz -7.0 dBm0, twist 0.0 dB, skew 0.6 ms, hole 0 ms, first: TUNING\n";

#[test]
fn measures_tones_that_are_off(rt: HostRuntime) -> Result<(), Fail> {
    let alloc: Global = rt.alloc();
    let mut bytes = Vec::new(alloc);
    push_silence(&mut bytes, 800)?;
    push_tones(&mut bytes)?;
    push_silence(&mut bytes, 800)?;
    check_status(
        alloc,
        &Mfrx,
        &["--format=s16", "--tones"],
        &bytes,
        Gives::page(KEY),
    )
}
