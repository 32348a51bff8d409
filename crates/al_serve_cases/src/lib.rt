//! Cases of serving: connections of one worker and of two, over a small service of its own.
//!
//! It has tests alone. They stand here, and not beside the code, since a crate with tests is proved twice.
#![tactic(auto)]

#[cfg(test)]
mod gated;
#[cfg(test)]
mod serving;
#[cfg(test)]
mod tally;
