// From the dial to the ear: what a line dials, as the far end hears it.
use std::test::Fail;
use test_kit::decks::TABLE;
use xb_calls::{Speed, calls_of_text};
use xb_model::LineNo;
use xb_routes::RouteTable;
use xb_sound::Cadence;
use xb_together::sound_of_calls;

// Line 7 dials 0, and KP, 0 and ST are keyed: 500 ms of silence, then tones of 100, 68 and 68 ms with 68 ms
// of silence after each, at 8 samples a ms.
const SAMPLES: usize = 8 * (500 + 100 + 68 + 2 * (68 + 68));

// Where KP begins, and its second and third samples, of 1,100 and 1,700 Hz.
const KP: usize = 4_000;

const OF_KP: [(usize, i16); 3] = [(KP, 0), (KP + 1, 17_328), (KP + 2, 14_417)];

#[test]
fn sounds_what_a_line_dials(rt: HostRuntime) -> Result<(), Fail> {
    let alloc = rt.alloc();
    let table = RouteTable::read(alloc, TABLE.as_bytes())?;
    let calls = calls_of_text(alloc, b"7 0\n8 411\n", Some(table.plan()))?;
    let line = LineNo::new(7).ok_or("a line")?;
    let cadence = Cadence::standard();
    let sound = sound_of_calls(alloc, &table, &calls, Speed::ten(), line, cadence)?;
    let samples = sound.ok_or("a speed that fits")?;
    assert_eq!(rt; samples.len(), SAMPLES);
    for (at, wanted) in &OF_KP {
        assert_eq!(rt; samples.get(*at).copied(), Some(*wanted));
    }
    let none = Speed {
        make_ms: 0,
        ..Speed::ten()
    };
    assert!(rt; sound_of_calls(alloc, &table, &calls, none, line, cadence)?.is_none());
    Ok(())
}
