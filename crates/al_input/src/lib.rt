//! What the body of a request asks of the alarm list.
#![tactic(auto)]

mod action;
pub mod asked;
mod body;
mod compress;
pub mod fault;
pub mod inputs;
mod inventory;
pub mod laws;
mod list;
mod member;
mod number;
mod plain;
mod purge;
mod reader;
mod report;
mod rules;
mod shelf;
mod text;
mod word;

pub use asked::Asked;
pub use fault::{BodyFault, InputFault};
pub use inputs::ask;
