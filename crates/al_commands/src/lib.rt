//! The commands of the program, over any disk, source, sink and clock.
#![tactic(auto)]

mod answer;
pub mod checking;
pub mod command;
mod draw;
pub mod drill;
pub mod line;
pub mod making;
pub mod program;
pub mod session;
pub mod status;

pub use command::Command;
pub use program::run;
