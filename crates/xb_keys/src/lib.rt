//! The keys and headings of a route table, whether or not all of it is TOML.
//!
//! - `spots_of`: each key and heading that a walk over the table meets, where it stands, and the first byte
//!   of a key's value (`specs/Spots.antt`). The walk reads keys, texts and scalars as TOML has them. After
//!   anything else it goes on in the next text line.
//! - `Section`, `Key`: the sections of a table, and the keys that rules name in them (`keys_of`,
//!   `specs/Keys.antt`). For a key that no rule names, `nearest` is the key of its section that one edit
//!   makes of it, or else two.
//! - `is_heading`, `is_bare`, `squeezed`: a text line of a table by itself (`specs/Table.antt`).
#![tactic(auto)]

mod key;
mod key_places;
mod sections;
mod walk;

pub use key::{Key, key_named};
pub use key_places::{Mark, Spot};
pub use sections::{Section, is_bare, is_blank, is_heading, squeezed, without_mark};
pub use walk::spots_of;
