//! The gated journal: payloads on a disk, where a crash at any moment leaves those that were acknowledged, with the one under way or without it.
#![tactic(auto)]

mod block;
mod durable;
pub mod faults;
pub mod journal;
pub mod laws;
pub mod making;
pub mod record;
mod walking;

pub use faults::{BirthFault, CommitFault, OpenFault};
pub use journal::Journal;
pub use making::birth;
pub use record::Record;
