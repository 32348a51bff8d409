//! `serve`: workers answer the connections of their doors, at the same time, over the one history of a journal.
#![tactic(auto)]

mod crew;
pub mod serve_words;
pub mod serving;

pub use serve_words::{Address, ServeWords};
pub use serving::run_serve;
