//! Cases of the crates of the vocabulary, patterns and matches, whose answers were worked out by hand.
//!
//! It has tests alone. They stand here, and not beside the code, since a crate with tests is proved twice. Each walks
//! tables, with one assertion for a row.
#![tactic(auto)]

#[cfg(test)]
mod base;
#[cfg(test)]
mod matches;
#[cfg(test)]
mod outside;
#[cfg(test)]
mod pattern;
#[cfg(test)]
mod record;
#[cfg(test)]
mod resource;
#[cfg(test)]
mod types;
