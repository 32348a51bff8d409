//! Cases of the disk in memory and of the journal, whose answers were worked out by hand.
//!
//! It has tests alone. They stand here, and not beside the code, since a crate with tests is proved twice.
#![tactic(auto)]

#[cfg(test)]
mod births;
#[cfg(test)]
mod commits;
#[cfg(test)]
mod counted;
#[cfg(test)]
mod disks;
#[cfg(test)]
mod openings;
