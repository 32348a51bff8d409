//! All alarms in the order of their keys, with the places of those of each side, and changes of them that can't fail.
#![tactic(auto)]

pub mod alarm;
pub mod change;
pub mod contents;
mod edits;
pub mod places;

pub use alarm::Alarm;
pub use change::Change;
pub use contents::Contents;
pub use places::if_at;
