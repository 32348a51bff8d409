//! The status line and the fields of a response.

ghost use Rattle.std.specs.Prelude.{◌≡◌, ◌+◌, ◌<◌, ◌≤◌, ◌++◌, ◌||◌, ◌==◌, if◌then◌else◌, [], codes, decimal, length};
ghost use Rattle.std.specs.Int.{bit_at};
ghost use Rattle.al_http.specs.Responses.{field, fields_text, status_line, place_field, method_list, allow_field, connection_field, media_type_of, HasText};
ghost use Rattle.al_http.specs.Phrases.{HasPhrase};
ghost use Rattle.al_http.specs.OutputBuffers.{output_room, most_field_bytes};

use crate::body::{body_len, media_type};
use crate::output_buffer::OutputBuffer;
use crate::phrase::phrase_of;
use crate::response::{Content, Response};
use itoa::Buffer as Digits;

fn push_field(buffer: &mut OutputBuffer, name: &str, value: &str)
    requires { length buffer.old + length name.now + length value.now + 4 ≤ output_room }
    ensures text { buffer.new ≡ buffer.old ++ field name.now value.now }
    ensures grown { length buffer.new ≡ length buffer.old + length name.now + length value.now + 4 }
{
    buffer.push_text(name);
    buffer.push_text(": ");
    buffer.push_text(value);
    buffer.push_text("\r\n");
}

fn push_number_field(buffer: &mut OutputBuffer, name: &str, number: u64)
    requires { length buffer.old + length name.now + 44 ≤ output_room }
    ensures text { buffer.new ≡ buffer.old ++ field name.now (decimal number) }
    ensures grown { length buffer.new ≤ length buffer.old + length name.now + 44 }
{
    let mut digits = Digits::new();
    push_field(buffer, name, digits.format(number));
}

#[tactic(auto, unfolding(crate::specs::Responses::status_line))]
fn push_status(buffer: &mut OutputBuffer, status: u16)
    requires phrase { HasPhrase status }
    requires room { length buffer.old + 80 ≤ output_room }
    ensures text { buffer.new ≡ buffer.old ++ status_line status }
    ensures grown { length buffer.new ≤ length buffer.old + 80 }
{
    let mut digits = Digits::new();
    buffer.push_text("HTTP/1.1 ");
    buffer.push_text(digits.format(status));
    buffer.push_text(" ");
    buffer.push_text(phrase_of(status));
    buffer.push_text("\r\n");
}

#[tactic(auto, unfolding(crate::specs::Responses::place_field))]
fn push_place(buffer: &mut OutputBuffer, place: Option<u64>)
    requires { length buffer.old + 60 ≤ output_room }
    ensures text { buffer.new ≡ buffer.old ++ place_field place }
    ensures grown { length buffer.new ≤ length buffer.old + 60 }
{
    match place {
        Some(place) => push_number_field(buffer, "Alarm-Place", place),
        None => {}
    }
}

fn is_set(allow: u8, bit: u32) -> bool
    requires { bit < 8 }
    ensures { result ≡ (bit_at allow bit == 1) }
{
    (allow >> bit) % 2 == 1
}

/// Adds a method to the list where its bit is set, and answers whether the list has one now.
fn push_method(buffer: &mut OutputBuffer, has_one: bool, is_allowed: bool, method: &str) -> bool
    requires { length buffer.old + 2 + length method.now ≤ output_room }
    ensures text { buffer.new
        ≡ buffer.old ++ (if is_allowed then (if has_one then codes ", "
        ++ method.now else method.now) else []) }
    ensures grown { length buffer.new ≤ length buffer.old + 2 + length method.now }
    ensures one { result ≡ (has_one || is_allowed) }
{
    if !is_allowed {
        return has_one;
    }
    if has_one {
        buffer.push_text(", ");
    }
    buffer.push_text(method);
    true
}

fn push_methods(buffer: &mut OutputBuffer, allow: u8)
    requires { length buffer.old + 40 ≤ output_room }
    ensures text { buffer.new ≡ buffer.old ++ method_list allow }
    ensures grown { length buffer.new ≤ length buffer.old + 40 }
{
    let has_one = push_method(buffer, false, is_set(allow, 0), "DELETE");
    let has_one = push_method(buffer, has_one, is_set(allow, 1), "GET");
    let has_one = push_method(buffer, has_one, is_set(allow, 2), "HEAD");
    let has_one = push_method(buffer, has_one, is_set(allow, 3), "POST");
    push_method(buffer, has_one, is_set(allow, 4), "PUT");
}

#[tactic(auto, unfolding(crate::specs::Responses::allow_field))]
fn push_allow(buffer: &mut OutputBuffer, status: u16, allow: u8)
    requires { length buffer.old + 60 ≤ output_room }
    ensures text { buffer.new ≡ buffer.old ++ allow_field status allow }
    ensures grown { length buffer.new ≤ length buffer.old + 60 }
{
    if status == 405 {
        buffer.push_text("Allow: ");
        push_methods(buffer, allow);
        buffer.push_text("\r\n");
    }
}

#[tactic(auto, unfolding(crate::specs::Responses::connection_field))]
fn push_connection(buffer: &mut OutputBuffer, last: bool)
    requires { length buffer.old + 20 ≤ output_room }
    ensures text { buffer.new ≡ buffer.old ++ connection_field last }
    ensures grown { length buffer.new ≤ length buffer.old + 20 }
{
    if last {
        push_field(buffer, "Connection", "close");
    }
}

fn push_length(buffer: &mut OutputBuffer, status: u16, len: u64)
    requires { length buffer.old + 60 ≤ output_room }
    ensures text { buffer.new
        ≡ buffer.old ++ (if status
        == 204 then [] else field (codes "Content-Length") (decimal len)) }
    ensures grown { length buffer.new ≤ length buffer.old + 60 }
{
    if status != 204 {
        push_number_field(buffer, "Content-Length", len);
    }
}

fn push_type(buffer: &mut OutputBuffer, content: &Content, len: usize)
    requires { length buffer.old + 60 ≤ output_room }
    ensures text { buffer.new
        ≡ buffer.old ++ (if len
        == 0 then [] else field (codes "Content-Type") (media_type_of content.now)) }
    ensures grown { length buffer.new ≤ length buffer.old + 60 }
{
    if len != 0 {
        push_field(buffer, "Content-Type", media_type(content));
    }
}

/// All of a head's lines but Location and the empty one.
#[tactic(auto, unfolding(crate::specs::Responses::fields_text, crate::specs::Responses::length_field, crate::specs::Responses::type_field))]
pub fn push_fields(buffer: &mut OutputBuffer, response: &Response, last: bool)
    requires empty { buffer.old ≡ [] }
    requires response { HasText response.now }
    ensures text { buffer.new ≡ fields_text response.now last }
    ensures grown { length buffer.new ≤ most_field_bytes }
{
    let len = body_len(&response.content);
    push_status(buffer, response.status);
    push_place(buffer, response.place);
    push_allow(buffer, response.status, response.allow);
    push_connection(buffer, last);
    push_length(buffer, response.status, len as u64);
    push_type(buffer, &response.content, len);
}
