//! What every crate of alarmd speaks in: the outside, texts, stamps, lists and severities.
#![tactic(auto)]

pub mod copied;
pub mod cut;
pub mod event_type;
pub mod form;
pub mod laws;
pub mod limits;
pub mod list;
pub mod memory;
pub mod operator;
pub mod outside;
pub mod repeats;
pub mod severity;
pub mod stamp;
pub mod standard;
pub mod text;
pub mod type_id;

pub use copied::Copied;
pub use event_type::EventType;
pub use form::{FormFault, read_operator_name, read_text};
pub use list::List;
pub use memory::{MemClock, MemSink, MemSource, Plan};
pub use operator::OperatorState;
pub use outside::{Clock, ReadFault, Sink, Source, WriteFault};
pub use severity::{Severity, Status};
pub use stamp::Stamp;
pub use standard::{Reading, SystemClock, Writing};
pub use text::{Text, TextFault};
pub use type_id::TypeId;
