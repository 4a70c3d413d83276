//! Tests, a module for each program or part.
#![tactic(auto)]

#[cfg(test)]
mod rings;
#[cfg(test)]
mod rows;
#[cfg(test)]
mod stages;
