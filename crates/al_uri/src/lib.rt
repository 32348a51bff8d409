//! What a path and a query of RESTCONF name: the resources of the alarm list, each with its keys.
#![tactic(auto)]

mod escape;
pub mod fault;
mod keys;
mod path;
mod place;
mod query;
pub mod target;
pub mod type_name;

pub use fault::UriFault;
pub use target::Target;
pub use type_name::read_type;
