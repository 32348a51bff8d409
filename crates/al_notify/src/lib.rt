//! Notifications: which changes of an alarm are told, and the log of those that were.
#![tactic(auto)]

pub mod log;
pub mod note;
pub mod rule;

pub use log::{NoteLog, Page};
pub use note::{Note, NoteBody};
pub use rule::{Mode, NotifyRule};
