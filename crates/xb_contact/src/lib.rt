//! A contact as it was recorded, and as it is once its bounces are settled, in ticks and in ms; and what
//! recordings of all forms say, event by event.
//!
//! - `Settler::new` (`settles`): what the machine gives of any recording, hold by hold, and what is left at
//!   its end, are the settled record. `Settler::take` is exactly the machine's step, and what it gives stands
//!   for good.
//! - `Listener::take_until` and `end` are exactly the machine that settles a contact and gives it in ms.
//! - `Seizer::new` (`passes`): what is given of a line in ms is its record, in which makes on hook that are
//!   too short to seize are breaks. `Seizer::take` is exactly the machine, and what it gives stands for good.
//! - `Ringer::new` (`passes`): what is given of a line in ms is its record, in which calls that answer the
//!   bell are breaks. It comes before the `Seizer`. `Ringer::take` is exactly the machine, and gives each
//!   hold at once.
//! - `laws::is_exact_under_bounces`: bounces shorter than a settled run leave no trace.
//! - `laws::tells_the_record` and `rounds_once`: each end of a run is rounded once, so that sums do not
//!   drift.
//! - `Event` and `Refusal`: what a recording says of its wires, and why a part of it is refused. What its
//!   lines say, step by step, defines a form of recordings (`Steps`). The reason of a refusal is that of the
//!   first line that is refused (`IsRefusedBy`).
//! - `number_of`, `tenths_said`, `cut_digits` and `level_of` (`Numbers`) read numbers and levels as all forms write them.
//! - `Changes` is what wires do. From it each form of text has a law that it is read back.
#![tactic(auto)]

mod bell;
mod certain;
mod event;
mod hold;
mod joint;
pub mod laws;
mod level;
mod listener;
mod number;
mod ringer;
mod scale;
mod seizer;
mod settler;
mod settling;

pub use certain::Certain;
pub use event::{Event, Refusal, is_before, say};
pub use hold::Hold;
pub use joint::{Joint, joined_by};
pub use level::Level;
pub use listener::Listener;
pub use number::{
    cut_digits, digit_after, is_digit, level_of, number_after, number_of, tenths_said,
};
pub use ringer::{ANSWER_MS, Ringer};
pub use scale::{NANOSECONDS, Scale};
pub use seizer::Seizer;
pub use settler::Settler;
pub use settling::Settling;
