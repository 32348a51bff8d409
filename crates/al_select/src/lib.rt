//! What an operator chooses alarms by: which ones a purge removes and which ones a compression shortens.
#![tactic(auto)]

pub mod compress;
pub mod facts;
pub mod purge;

pub use compress::CompressFilter;
pub use facts::AlarmFacts;
pub use purge::{Clearance, Compare, PurgeFilter};
