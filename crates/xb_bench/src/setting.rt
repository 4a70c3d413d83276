// What holds for all lines.
use std::alloc::Global;
use xb_model::Limits;
use xb_turns::Windows;

/// As what it is told.
#[derive(Clone, Copy, Debug, PartialEq, Eq)]
pub enum Form {
    /// A table, with a line for each digit.
    Lines,
    /// JSON, an object in each text line.
    Objects,
    /// A page of HTML: a plot of the digits of each line, and a text line for each of them.
    Page,
    /// A plot in SVG.
    Picture,
}

/// What holds for all lines.
#[derive(Clone, Copy)]
pub struct Setting {
    /// Where memory is taken.
    pub alloc: Global,
    /// By what pulses are told from pauses and from hanging up.
    pub limits: Limits,
    /// By what a dial is judged.
    pub windows: Windows,
    /// As what it is told.
    pub form: Form,
}
