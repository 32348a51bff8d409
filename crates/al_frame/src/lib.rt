//! Frames: how an entry of the history stands in the journal, as bytes.
//!
//! The grammar is in `specs/Frames`, made of the formats of `specs/Formats`; the code has a type for each format.
#![tactic(auto)]

mod criteria;
mod entry;
mod event;
pub mod fault;
mod field;
mod filter;
pub mod frame;
mod inventory;
pub mod laws;
mod list;
mod number;
mod report;
mod rules;
mod text;
mod word;

pub use fault::FrameFault;
pub use frame::{decode, encode};
