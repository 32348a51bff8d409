//! The pattern language of shelves and resource matches: a profile of XML Schema regular expressions.
#![tactic(auto)]

mod bits;
mod builder;
mod class;
mod fault;
pub mod laws;
mod letter;
mod node;
mod pattern;
mod program;
mod token;
mod walk;

pub use fault::PatternFault;
pub use pattern::Pattern;
