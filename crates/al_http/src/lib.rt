//! HTTP/1.1 over a source and a sink: requests out of bytes (RFC 9112), responses into bytes.
#![tactic(auto)]

mod body;
mod error_row;
mod escape;
mod fields;
pub mod framer;
mod head;
mod input_buffer;
pub mod member;
mod output_buffer;
mod phrase;
pub mod rejection;
pub mod request;
pub mod response;
mod scan;
mod sending;
pub mod service;
pub mod stream;

pub use framer::{Framer, Stop};
pub use member::{has_member, trimmed};
pub use rejection::Rejection;
pub use request::HttpRequest;
pub use response::{Content, Response};
pub use sending::{respond, write_all};
pub use service::Service;
pub use stream::{End, REQUEST_LIMIT, take_all};
