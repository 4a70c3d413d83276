//! Tests, a module for each program or part.
#![tactic(auto)]

#[cfg(test)]
mod rx;
#[cfg(test)]
mod tandem;
#[cfg(test)]
mod tone;
