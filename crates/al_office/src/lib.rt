//! The office: the history, its journal on a disk and the tables that it leaves, changed as one.
#![tactic(auto)]

mod deciding;
pub mod fault;
pub mod journaled;
pub mod laws;
mod ledger;
mod opened;
mod reading;
mod taking;
mod writing;

pub use fault::OfficeFault;
pub use journaled::Office;
