//! Serving: the conversation of one connection over turns at a history, the door that connections come by, and the worker that serves them.
#![tactic(auto)]

pub mod conversation;
pub mod doors;
pub mod laws;
pub mod mem_doors;
pub mod worker;

pub use conversation::{Cause, Ending, converse};
pub use doors::{DoorFault, Doors};
pub use mem_doors::MemDoors;
pub use worker::{Worker, work, work_all};
