//! Requests and responses, made of their parts.

use crate::fault::Fault;
use crate::phrase::phrase_of;
use std::alloc::Global;

/// What a response is made of, beside its fields.
#[derive(Clone, Copy)]
pub struct Answer<'a> {
    pub status: &'a str,
    /// `-` for none.
    pub place: &'a str,
    pub body: &'a [u8],
    /// Whether the body is left out.
    pub bare: bool,
}

fn add(to: &mut Vec<u8>, text: &str) -> Result<(), Fault> {
    to.extend_from_slice(text.as_bytes())?;
    Ok(())
}

/// Adds a line of a message's head.
pub fn add_field(to: &mut Vec<u8>, name: &str, value: &[u8]) -> Result<(), Fault> {
    add(to, name)?;
    to.extend_from_slice(value)?;
    add(to, "\r\n")
}

fn add_length(alloc: Global, to: &mut Vec<u8>, length: usize) -> Result<(), Fault> {
    let line = format!(in alloc; "Content-Length: {length}\r\n")?;
    add(to, line.as_str())
}

/// Adds a request with these fields, and with its length where it has a body.
pub fn add_request(
    alloc: Global,
    to: &mut Vec<u8>,
    method: &str,
    target: &[u8],
    fields: &[u8],
    body: &[u8],
) -> Result<(), Fault> {
    add(to, method)?;
    add(to, " ")?;
    to.extend_from_slice(target)?;
    add(to, " HTTP/1.1\r\n")?;
    to.extend_from_slice(fields)?;
    if !body.is_empty() {
        add_length(alloc, to, body.len())?;
    }
    add(to, "\r\n")?;
    to.extend_from_slice(body)?;
    Ok(())
}

fn add_status(to: &mut Vec<u8>, answer: &Answer) -> Result<(), Fault> {
    let Some(phrase) = phrase_of(answer.status) else {
        return Err(Fault::Form);
    };
    add(to, "HTTP/1.1 ")?;
    add(to, answer.status)?;
    add(to, " ")?;
    add_field(to, phrase, b"")?;
    if answer.place != "-" {
        add_field(to, "Alarm-Place: ", answer.place.as_bytes())?;
    }
    Ok(())
}

/// Adds a response with these fields, some above its length and some below its type.
pub fn add_response(
    alloc: Global,
    to: &mut Vec<u8>,
    answer: &Answer,
    above: &[u8],
    below: &[u8],
) -> Result<(), Fault> {
    add_status(to, answer)?;
    to.extend_from_slice(above)?;
    if answer.status != "204" {
        add_length(alloc, to, answer.body.len())?;
    }
    if !answer.body.is_empty() {
        add_field(to, "Content-Type: ", b"application/yang-data+json")?;
    }
    to.extend_from_slice(below)?;
    add(to, "\r\n")?;
    if !answer.bare {
        to.extend_from_slice(answer.body)?;
    }
    Ok(())
}

/// The body of a refusal (RFC 8040, section 7.1).
pub fn refusal(alloc: Global, kind: &str, tag: &str, message: &str) -> Result<String, Fault> {
    Ok(format!(in alloc;
        "{{\"ietf-restconf:errors\":{{\"error\":[{{\"error-message\":\"{message}\",\"error-tag\":\"{tag}\",\"error-type\":\"{kind}\"}}]}}}}"
    )?)
}
