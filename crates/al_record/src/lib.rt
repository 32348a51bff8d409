//! Bounded histories: lists, newest first, that keep no more than the newest of their items.
#![tactic(auto)]

pub mod history;

pub use history::History;
