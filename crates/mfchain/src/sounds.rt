// The samples of a mark, for C.
ghost use Rattle.std.specs.Prelude.{◌≡◌, ◌≢◌, ◌≤◌, ◌<◌, ◌++◌, ◌^◌, ◌↔◌, IsSome, IfSome, IfOk, IfErr, OnErr};
ghost use Rattle.std.specs.Prelude.{length, take};
ghost use Rattle.xb_structs.specs.EntryLines.{IsKind, mark_in, pair_in};
ghost use Rattle.xb_sound.specs.Cadences.{standard_cadence};
ghost use Rattle.xb_sound.specs.Sounds.{mark_sound, silence, tone_sound};
ghost use Rattle.mfchain.specs.Sounds.{DoesNotPlay, IsMark, Plays};

use crate::status::{NO_ROOM, WRONG_CADENCE, WRONG_MARKS};
use xb_model::Tone;
use xb_sound::{Cadence, fill_tone};
use xb_structs::{DONE, PlainMark};

// How many samples a ms has.
const SAMPLES_PER_MS: usize = 8;

// The greatest kind of a mark.
const LAST_KIND: u32 = 7;

// There are more samples than there is room for.
#[derive(Clone, Copy)]
struct NoRoom;

// Writes silence to the front of the room. On an `Err` the room is as it was.
fn put_silence(ms: u16, room: &mut [i16]) -> Result<usize, NoRoom>
    ensures written { IfOk result (λ count. take count room.new ≡ silence ms) }
    ensures few { IfOk result (λ count. count ≤ length room.new) }
    ensures refused { IfErr result (λ _. length room.old < length (silence ms)) }
    ensures kept { OnErr result (room.new ≡ room.old) }
{
    let count = usize::from(ms) * SAMPLES_PER_MS;
    if count > room.len() {
        return Err(NoRoom);
    }
    room[..count].fill(0);
    Ok(count)
}

// Writes a tone, and the silence after it, to the front of the room. On an `Err` the room is as it was.
fn put_key(tone: Tone, tone_ms: u16, gap_ms: u16, room: &mut [i16]) -> Result<usize, NoRoom>
    ensures written { IfOk result (λ count.
        take count room.new ≡ tone_sound tone tone_ms ++ silence gap_ms) }
    ensures few { IfOk result (λ count. count ≤ length room.new) }
    ensures refused { IfErr result (λ _.
        length room.old < length (tone_sound tone tone_ms ++ silence gap_ms)) }
    ensures kept { OnErr result (room.new ≡ room.old) }
{
    let sounding = usize::from(tone_ms) * SAMPLES_PER_MS;
    let count = sounding + usize::from(gap_ms) * SAMPLES_PER_MS;
    if count > room.len() {
        return Err(NoRoom);
    }
    fill_tone(tone, &mut room[..sounding]);
    room[sounding..count].fill(0);
    Ok(count)
}

// Writes the samples of a mark to the front of the room. On an `Err` the room is as it was.
fn put_mark(
    cadence: Cadence,
    mark: &PlainMark,
    tone: Tone,
    room: &mut [i16],
) -> Result<usize, NoRoom>
    requires kind { IsKind mark.now }
    requires tone { tone ≡ pair_in mark.now }
    ensures written { IfOk result (λ count. take count room.new ≡ mark_sound cadence (mark_in mark.now)) }
    ensures few { IfOk result (λ count. count ≤ length room.new) }
    ensures refused { IfErr result (λ _. length room.old < length (mark_sound cadence (mark_in mark.now))) }
    ensures kept { OnErr result (room.new ≡ room.old) }
{
    match mark.kind {
        0 => put_silence(cadence.lead_ms, room),
        1 | 3 => put_key(tone, cadence.key_ms, cadence.gap_ms, room),
        2 => put_key(tone, cadence.kp_ms, cadence.gap_ms, room),
        _ => Ok(0),
    }
}

// The tones of what is a mark.
fn tone_of(mark: &PlainMark) -> Option<Tone>
    ensures variant { IsSome result ↔ IsMark mark.now }
    ensures value { IfSome result (λ tone. tone ≡ pair_in mark.now) }
{
    if mark.kind > LAST_KIND {
        return None;
    }
    Some(Tone {
        low: u16::try_from(mark.low).ok()?,
        high: u16::try_from(mark.high).ok()?,
    })
}

/// Writes the times of a sender.
#[unsafe(no_mangle)]
pub extern "C" fn mfchain_cadence(cadence: &mut Cadence)
    ensures { cadence.new ≡ standard_cadence }
{
    *cadence = Cadence::standard();
}

/// The samples of a mark by a cadence, 8,000 a second, as `mftone` writes them: the first `count` of `room`. On any
/// other status than 0 the room is as it was, and `count` is 0.
#[unsafe(no_mangle)]
pub extern "C" fn mfchain_sound(
    mark: &PlainMark,
    cadence: &Cadence,
    room: &mut [i16],
    count: &mut usize,
) -> u32
    ensures plays { result ≡ 0 → Plays mark.now cadence.now room.new count.new }
    ensures refuses { result ≢ 0 →
        DoesNotPlay mark.now cadence.now room.old room.new count.new result }
{
    *count = 0;
    let Some(tone) = tone_of(mark) else {
        return WRONG_MARKS;
    };
    let cadence = *cadence;
    if cadence.check().is_err() {
        return WRONG_CADENCE;
    }
    match put_mark(cadence, mark, tone, room) {
        Ok(written) => {
            *count = written;
            DONE
        }
        Err(NoRoom) => NO_ROOM,
    }
}
