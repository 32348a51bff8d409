//! Shelves: which alarms the operator wants out of the list, in order.
#![tactic(auto)]

pub mod fault;
pub mod laws;
pub mod shelf;
pub mod shelves;
pub mod spot;

pub use fault::ShelfFault;
pub use shelf::{Shelf, TypeMatch};
pub use shelves::Shelves;
pub use spot::{Placed, Spot};
