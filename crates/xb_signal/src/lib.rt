//! Signals by words: keys by their names, and frequencies of whole Hz for a time, at any level and with noise, for who
//! tests a receiver.
//!
//! - `wave_at`: the samples of one period of a sine of 1 Hz, 8,000 of them. Each sine of whole Hz is taken of these.
//! - `Setting`: the amplitudes of the tones, how keys are disturbed (`Shape`), what sounds all through (`Steady`), and
//!   the noise; `amplitude_of` gives the amplitude of a level.
//! - `all_fit`: whether each sample of segments has 16 bits, whatever is added; a segment is a key, or up to six
//!   frequencies, or silence, for a time. A `Moment` is where one segment ends and the next begins.
//! - `segments_of_text`: exactly `segments_of_text` of the words (`KP 555 1212 ST 2600:500 2400+2600:1000
//!   silence:300`), after the silence before them. `NoWord` and `Loud` come exactly of the first word that is none, or
//!   whose samples do not fit, with its place; `NoWords` exactly of a text of blanks.
//! - `write_signal`: on `Ok` the writer got exactly the WAV file of the segments, or its samples, in 16 bits or by
//!   mu-law (`Form`); on `Write` the beginning, and on any other fault nothing. `TooLong` comes only where the file
//!   would have 2^32 bytes or more.
//! - `laws::names_are_heard`: keys that a page has sound as its marks do, to the sample. By every cadence that sets its
//!   tones apart a receiver that waits for 10 ms of silence and then measures the six MF frequencies hears exactly the
//!   pairs of the keys, in order, also those of KP2 and of the further kinds of ST. `waves_are_sines`: the table is
//!   round, and at the multiples of 100 Hz it is that of the marks. `amplitudes_are_rounded`: the table of levels is
//!   right. `steady_goes_on`: what sounds all through goes by the number of a sample, as the noise does (`xb_chance`).
//!   `plain_keys_are_written`: a key that nothing disturbs is its two frequencies. `nothing_is_cut` of what fits.
//!   `files_are_as_long`. `mu_law_is_nearest`, and `samples_are_known`: what its bytes stand for is what another program
//!   reads of them. `worked_text`.
//!
//! Not said: how much memory a run takes.
#![tactic(auto)]

mod block;
mod fault;
mod form;
mod key_name;
mod key_sample;
pub mod laws;
mod level;
mod moment;
mod sample;
mod sample_range;
mod segment;
mod setting;
mod shape;
mod sine_table;
mod steady;
mod text;
mod wav_head;
mod wave;
mod word;
mod writing;

pub use fault::{KeysFault, Place, SignalFault};
pub use form::Form;
pub use key_name::Name;
pub use level::amplitude_of;
pub use moment::Moment;
pub use sample_range::all_fit;
pub use segment::{Segment, Sound, Tones};
pub use setting::Setting;
pub use shape::Shape;
pub use steady::Steady;
pub use text::segments_of_text;
pub use wave::wave_at;
pub use word::MOST_HZ;
pub use writing::write_signal;
