//! Cases of the office over its journal, whose answers were worked out by hand.
//!
//! It has tests alone. They stand here, and not beside the code, since a crate with tests is proved twice.
#![tactic(auto)]

#[cfg(test)]
mod changes;
#[cfg(test)]
mod journals;
#[cfg(test)]
mod openings;
