//! The alarm list: what is asked of it, what happens to it, and what stands after it.
//!
//! The state and its steps are definitions in `specs/`, which everything above cites; the code has the values that they speak of.
#![tactic(auto)]

pub mod decision;
pub mod entry;
pub mod event;
pub mod kept;
pub mod laws;
pub mod request;

pub use decision::{Decision, Refusal, Reply};
pub use entry::{Entry, OperatorEntry, StatusEntry};
pub use event::{Event, Side};
pub use kept::{Fixed, Kept, Mark};
pub use request::Request;
