//! What names an alarm: its resource, its type and a qualifier; and what resources are matched by.
#![tactic(auto)]

pub mod form;
pub mod key;
pub mod laws;
mod oid;
mod path;
pub mod resource;
pub mod resource_match;
mod steps;
mod utf8;
mod xpath;

pub use form::{read_match, read_pattern, read_resource};
pub use key::AlarmKey;
pub use resource::{Kind, Resource, ResourceFault};
pub use resource_match::{MatchFault, ResourceMatch};
