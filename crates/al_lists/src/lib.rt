//! The tables of the alarm list: what is known after a history, kept so that reads are quick and a change can't fail half way.
#![tactic(auto)]

mod decide;
mod fits;
mod prepare;
pub mod prepared;
pub mod summary;
pub mod tables;
mod verdict;

pub use al_contents::Alarm;
pub use prepared::Prepared;
pub use summary::Summary;
pub use tables::Tables;
