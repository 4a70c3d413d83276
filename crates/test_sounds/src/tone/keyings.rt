// The sound of a keying, made at once and written, with values that Python computed.
use std::alloc::Global;
use std::process::Abort;
use std::test::Fail;
use xb_model::{Key, Mark, Trunk, mf};
use xb_sound::{Cadence, HEADER_BYTES, samples_of, wav, write_samples, write_wav};

// KP from its beginning.
const OF_KP: [i16; 8] = [0, 17_328, 14_417, -2_379, -11_180, -5_412, 967, -1_549];

fn mark(key: &Key) -> Mark {
    let pair = mf(*key);
    Mark::Tone(*key, pair)
}

// Writes the sound of marks in both forms beside what is made at once.
fn writes(rt: &impl Abort, alloc: Global, marks: &[Mark], samples: &[i16]) -> Result<(), Fail> {
    let mut raw = Vec::new(alloc);
    write_samples(alloc, &mut raw, marks, Cadence::standard())?;
    assert_eq!(rt; raw.len(), 2 * samples.len());
    let mut file = Vec::new(alloc);
    write_wav(alloc, &mut file, marks, Cadence::standard())?;
    assert_eq!(rt; file.as_slice(), wav(alloc, samples)?.as_slice());
    assert_eq!(rt; &file[..4], b"RIFF".as_slice());
    assert_eq!(rt; &file[HEADER_BYTES..], raw.as_slice());
    Ok(())
}

#[test]
fn sounds_a_keying(rt: HostRuntime) -> Result<(), Fail> {
    let alloc = rt.alloc();
    let trunk = Mark::Trunk(Trunk::new(17).ok_or("no trunk group")?);
    let marks = [trunk, mark(&Key::Kp), mark(&Key::St)];
    let samples = samples_of(alloc, &marks, Cadence::standard())?;
    // 500 + 100 + 68 + 68 + 68 ms, 8 samples each
    assert_eq!(rt; samples.len(), 6_432);
    assert_eq!(rt; &samples[4_000..4_008], OF_KP.as_slice());
    writes(&rt, alloc, &marks, &samples)
}
