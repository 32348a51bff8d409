//! Values as tables of fields: one table for each struct gives its tree, its text and the text's length.
#![tactic(auto)]

pub mod field;
pub mod leaf;
mod length;
pub mod list;
pub mod object;
pub mod shown;
mod tables;
mod whole;
mod writer;

pub use field::Field;
pub use leaf::Leaf;
pub use list::{Items, Series};
pub use object::{Object, Table};
pub use shown::{Held, Shown};
pub use whole::{put_whole, whole_len, whole_value};
