// The keys that the receiver hears of a keying.
use std::test::Fail;
use test_kit::marks::keying;
use xb_ear::Receiver;
use xb_model::Tone;
use xb_sound::{Cadence, samples_of};

// The pairs of KP, 5, 6, 7 and ST.
const PAIRS: [Tone; 5] = [
    Tone {
        low: 1100,
        high: 1700,
    },
    Tone {
        low: 900,
        high: 1300,
    },
    Tone {
        low: 1100,
        high: 1300,
    },
    Tone {
        low: 700,
        high: 1500,
    },
    Tone {
        low: 1500,
        high: 1700,
    },
];

#[test]
fn hears_a_keying(rt: HostRuntime) -> Result<(), Fail> {
    let marks = keying(rt.alloc(), 17, &[5, 6, 7])?;
    let samples = samples_of(rt.alloc(), &marks, Cadence::standard())?;
    let mut receiver = Receiver::new();
    let mut heard = Vec::new(rt.alloc());
    for sample in samples.iter() {
        if let Some(key) = receiver.take(*sample) {
            heard.push(key.sight.pair)?;
        }
    }
    assert!(rt; receiver.finish().is_none());
    assert!(rt; heard.as_slice() == PAIRS.as_slice());
    Ok(())
}
