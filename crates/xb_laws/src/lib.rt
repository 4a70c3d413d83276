//! From the sender of one office to the register of the next: laws that cite the laws below them.
//!
//! - `laws::keyed_is_taken`: of the sound of any line's tape, disturbed as far as the ear bears, the register of the
//!   next office takes one number for each keying, in order, and its tape are their entries by its own routes.
//! - `laws::numbers_are_registered`, `laws::dialled_is_registered`: so of the numbers that the first office hears on
//!   the line, and of those that are dialled on it.
//! - `laws::offices_in_turn`, `laws::dialled_in_turn`: so through any number of offices, one after the other.
//! - `laws::numbers_are_sent_as_worked`: what the routes of offices make of numbers, as reckoned by hand.
//!
//! Each asks that the time-out of a register outlasts the silences that the sender leaves between the keys of a keying
//! (`OutlastsGaps`).
//! - `laws::times_are_told`: the times by which keys are taken are those that a receiver tells of them.
//!
//! What a receiver tells of a clean key is what was asked for: a law over the writer of keys (`xb_signal`) and the
//! receiver that measures them (`xb_measured`).
//!
//! - `laws::keys_are_told`: of each two of the six frequencies, each tone at any level from -30.0 to 0.0 dBm0, any 200
//!   samples in a row that lie within the key tell both frequencies to the Hz, and to the tenth of a dB the level and
//!   the twist that `mftone --keys` was asked for. Twist has no other bound than these levels.
//! - `laws::standard_keys_are_told`: so with no option -7.2 dBm0 and no twist.
//!
//! The key is not detuned, both its tones begin with it, and no hole is in it. Its samples are the sum of both tones,
//! each rounded to whole numbers: with no noise, with nothing else that sounds, and none is cut, as none is in a file
//! without `--clip`.
//!
//! Not said: which 200 samples of a key are measured, and that they lie within it; that a key is heard at all, which
//! `xb_ear` hears with up to 12 dB of twist; and what is told of a key that is detuned, disturbed or weaker.
//!
//! From the rows of a dial to its trace, and from there to the tape: laws alone.
//!
//! - `laws::the_trace_makes_the_tape_of_its_rows`: of the trace of a contact that dials rows `mfloop` writes rows that make
//!   the tape of these runs, however the contact bounces.
//!
//! From a dial on the bench to the report of its rows: laws that cite the laws below them.
//!
//! - `laws::the_rows_have_the_digits`: the digits that `mfbench` tells of a line are those that `mfhear` tells of the rows
//!   that `mfloop` writes of it, by the same settling and limits: as many, with as many pulses each, and with the same
//!   first fault of the same run.
#![tactic(auto)]

pub mod laws;
