//! The sound of keyed marks: two tones a key, and the WAV file of them.
//!
//! - `samples_of`: exactly `sound_of` of the marks by the cadence.
//! - `write_samples` and `write_wav`, for writers whose bytes a contract can name: on `Ok` the writer got
//!   exactly these samples, or the WAV file of them; on an `Err` the beginning. `TooLong` comes exactly where
//!   the file would have 2^32 bytes or more, and then nothing was written.
//! - `push_header` and `push_samples`: exactly the beginning of a WAV file, and the bytes of samples, in memory.
//! - `Cadence::check` is `Ok` exactly for lawful cadences, else the first time that is out of its range.
//! - `laws::keys_are_heard`: where tones last 11 ms or more, with 10 ms of silence or more after each
//!   (`IsSetApart`), a receiver that waits for 10 ms of silence and then
//!   measures the six MF frequencies hears in the sound of keyed marks exactly their pairs, in order, and so
//!   their keys. `tapes_are_heard` says so of a line's tape. `keys_are_clear`: in any 10 ms of a tone its two
//!   frequencies are loud and each other is 80 dB below. `nothing_clips`.
#![tactic(auto)]

mod cadence;
pub mod laws;
mod samples;
mod sine;
mod sounding;
mod wav_file;

pub use cadence::{Cadence, CadenceFault};
pub use samples::{fill_tone, samples_of};
pub use sine::{AMPLITUDE, PERIOD, SAMPLES_PER_SECOND, sine_at, sine_sample};
pub use sounding::{SoundFault, write_samples, write_wav};
pub use wav_file::{HEADER_BYTES, WavFault, push_header, push_samples, wav};
