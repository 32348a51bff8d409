//! The whole answer of RESTCONF: what each request gets, over a history (RFC 8040, for the resources of RFC 8632).
#![tactic(auto)]

mod body;
mod change;
pub mod fault;
mod fields;
pub mod machine;
mod method;
mod operator;
mod page;
mod read;
mod receipt;
pub mod restconf;
mod target;

pub use machine::answer;
pub use restconf::Restconf;
