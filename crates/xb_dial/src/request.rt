// What the words of the command line ask for.

use crate::bouncing::Bouncing;
use xb_calls::RowOrder;
use xb_model::Plan;
use xb_worn::{Fault, Wear};

/// What is printed.
#[derive(Clone, Copy, Debug, PartialEq, Eq)]
pub enum Form {
    /// Loop rows.
    Rows,
    /// The contact of one line as a value change dump, with such bounces.
    Trace(Bouncing),
}

/// How a dial is, and what is printed of its calls.
#[derive(Clone, Copy, Debug, PartialEq, Eq)]
pub struct Manner {
    /// How long makes and breaks last, and how the dial is worn.
    pub wear: Wear,
    /// Whether times beyond the standard limits are taken too.
    pub beyond: bool,
    /// In which order the lines stand.
    pub order: RowOrder,
    /// The plan by which each number has to be complete; `None` takes any digits.
    pub whole: Option<Plan>,
    /// What is printed.
    pub form: Form,
}

/// How calls are dialled.
#[derive(Debug, Drop)]
pub struct Request {
    /// How the dial is, and what is printed.
    pub manner: Manner,
    /// What is wrong at single places.
    pub faults: Vec<Fault>,
}

/// What the words ask for.
#[derive(Debug, Drop)]
pub struct Asked<'a> {
    /// The file of the calls; without it, or with `-`, the input.
    pub calls: Option<&'a str>,
    /// How they are dialled.
    pub request: Request,
}
