//! Cases of the turnstile: two threads that take turns at one value.
//!
//! It has tests alone. They stand here, and not beside the code, since a crate with tests is proved twice.
#![tactic(auto)]

#[cfg(test)]
mod tally;
#[cfg(test)]
mod threads;
