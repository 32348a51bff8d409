//! What resources look like in JSON: the tree of each, its text without a tree, and the text's length.
#![tactic(auto)]

mod alarm;
mod alarms;
mod container;
mod control;
mod found;
mod history;
mod inner;
mod inventory;
mod note;
mod notes;
mod outer;
pub mod output;
mod section;
mod shelf;
mod summary;
pub mod trees;

pub use output::append_output;
pub use trees::Showing;
