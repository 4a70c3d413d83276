//! Tests, a module for each program or part.
#![tactic(auto)]

#[cfg(test)]
mod check;
#[cfg(test)]
mod dial;
#[cfg(test)]
mod hear;
#[cfg(test)]
mod route;
