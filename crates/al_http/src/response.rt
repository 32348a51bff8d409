//! Responses and their text.

ghost use Rattle.std.specs.Prelude.{◌≡◌};
ghost use Rattle.al_http.specs.ErrorRows.{IsErrorRow};

use crate::error_row::error_row;
use crate::rejection::Rejection;
use al_base::{List, Text};

/// What a response's body is made of.
#[derive(Debug, Drop)]
pub enum Content {
    /// No body: of 201, 204, 406, 415 and 503.
    Empty,
    /// The body of a refusal, by its number from 1 to 29.
    Row(u8),
    /// The host's metadata, which names the root of RESTCONF (RFC 8040, section 3.1).
    HostMeta,
    /// JSON text.
    Tree(List<u8>),
}

/// What is answered to a request.
#[derive(Debug, Drop)]
pub struct Response {
    pub status: u16,
    /// The length of the history that the request was answered over, None where the input was rejected.
    pub place: Option<u64>,
    /// The methods that a resource has, which 405 tells: bits 0 to 4 are DELETE, GET, HEAD, POST, PUT.
    pub allow: u8,
    /// The name of the shelf that a POST made.
    pub location: Option<Text>,
    pub content: Content,
    /// Whether the body is left out, as HEAD asks (RFC 9110, section 9.3.2).
    pub bare: bool,
}

impl Response {
    ghost use Rattle.al_http.specs.Phrases.{HasPhrase};
    ghost use Rattle.al_http.specs.Responses.{HasText, refusal, bodiless, rejection_response, out_of_memory_response};

    /// The refusal of a number from 1 to 29.
    pub fn of_row(row: u8, place: Option<u64>) -> Response
        requires { IsErrorRow row }
        ensures value { result ≡ refusal row place }
        ensures text { HasText result }
    {
        Response {
            status: error_row(row).status,
            place,
            allow: 0,
            location: None,
            content: Content::Row(row),
            bare: false,
        }
    }

    /// An answer that has a status and no body.
    pub fn bodiless(status: u16, place: Option<u64>) -> Response
        requires { HasPhrase status }
        ensures value { result ≡ bodiless status place }
        ensures text { HasText result }
    {
        Response {
            status,
            place,
            allow: 0,
            location: None,
            content: Content::Empty,
            bare: false,
        }
    }

    /// The answer to a request for which there was no memory.
    pub fn out_of_memory(place: u64) -> Response
        ensures value { result ≡ out_of_memory_response place }
        ensures text { HasText result }
    {
        Response::bodiless(503, Some(place))
    }

    /// The answer to bytes that are rejected, which is always the last.
    pub fn of_rejection(rejection: Rejection) -> Response
        ensures value { result ≡ rejection_response rejection }
        ensures text { HasText result }
    {
        Response::of_row(rejection.row(), None)
    }
}
