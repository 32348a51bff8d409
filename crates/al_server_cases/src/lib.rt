//! Cases of serving with the whole of RESTCONF, over doors, a disk, clocks and a sink in memory.
//!
//! It has tests alone. They stand here, and not beside the code, since a crate with tests is proved twice.
#![tactic(auto)]

#[cfg(test)]
mod gated;
#[cfg(test)]
mod made;
#[cfg(test)]
mod rows;
#[cfg(test)]
mod together;
