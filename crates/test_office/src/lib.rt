//! Tests, a module for each program or part.
#![tactic(auto)]

#[cfg(test)]
mod bank;
#[cfg(test)]
mod office;
#[cfg(test)]
mod split;
