//! Tests, a module for each program or part.
#![tactic(auto)]

#[cfg(test)]
mod bench;
#[cfg(test)]
mod live;
#[cfg(test)]
mod loops;
