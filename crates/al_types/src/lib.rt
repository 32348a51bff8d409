//! What a device may raise alarms of: the declared alarm types and the rows of the alarm inventory.
#![tactic(auto)]

pub mod fault;
pub mod inventory;
pub mod laws;
mod place;
mod repeats;
pub mod row;

pub use fault::InventoryFault;
pub use inventory::Inventory;
pub use row::{Identity, Row};
