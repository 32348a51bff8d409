//! Bytes that go to a sink whole.

ghost use Rattle.std.specs.Prelude.{◌≡◌, ◌+◌, ◌≤◌, ◌++◌, [], length, if◌then◌else◌, IfOk, OnOk, OnErr};
ghost use Rattle.std.specs.Io.KnownBytes.{Appends};
ghost use Rattle.al_base.specs.Outside.{Rose};
ghost use Rattle.al_http.specs.Fronts.{AppendsFront, Gathers};
ghost use Rattle.al_http.specs.Responses.{escaped, location_field, crlf, body_of, HasRow, HasText, response_text};
ghost use Rattle.al_http.specs.Laws.{WholeThenWhole, WholeThenFront};
ghost use Rattle.al_http.specs.OutputBuffers.{gather_limit, most_field_bytes};

use crate::body::{HOST_META, push_row};
use crate::escape::push_escape;
use crate::fields::push_fields;
use crate::output_buffer::{OutputBuffer, ROOM};
use crate::response::{Content, Response};
use al_base::{Sink, Text, WriteFault};

/// How many bytes are gathered before they are sent while there are more to come.
const GATHERED: usize = 700;

/// Writes all of the bytes, or after a fault only a front of them.
pub fn write_all<O: Sink>(sink: &mut O, bytes: &[u8]) -> Result<(), WriteFault>
    ensures ok { OnOk result (Appends (O.held sink.old) (O.held sink.new) bytes.now) }
    ensures fault { OnErr result (AppendsFront (O.held sink.old) (O.held sink.new) bytes.now) }
    ensures later { O.faults sink.old ≤ O.faults sink.new }
    ensures cause { OnErr result (Rose (O.faults sink.old) (O.faults sink.new)) }
{
    let mut taken = 0;
    while taken < bytes.len() {
        taken += sink.write(&bytes[taken..])?;
    }
    Ok(())
}

/// Sends what was gathered where it is much.
fn make_room<O: Sink>(sink: &mut O, buffer: &mut OutputBuffer) -> Result<(), WriteFault>
    ensures ok { OnOk result (Gathers (O.held sink.old) (O.held sink.new) buffer.old buffer.new
        []) }
    ensures room { OnOk result (length buffer.new ≤ gather_limit) }
    ensures fault { OnErr result (AppendsFront (O.held sink.old) (O.held sink.new) buffer.old) }
    ensures later { O.faults sink.old ≤ O.faults sink.new }
    ensures cause { OnErr result (Rose (O.faults sink.old) (O.faults sink.new)) }
{
    if buffer.len() <= GATHERED {
        return Ok(());
    }
    write_all(sink, buffer.bytes())?;
    buffer.clear();
    Ok(())
}

/// Sends the name of a shelf as it stands in a path, and leaves the last of it gathered.
fn send_escaped<O: Sink>(
    sink: &mut O,
    buffer: &mut OutputBuffer,
    name: &[u8],
) -> Result<(), WriteFault>
    requires { length buffer.old ≤ gather_limit + 3 }
    ensures ok { OnOk result (Gathers (O.held sink.old) (O.held sink.new) buffer.old buffer.new
        (escaped name.now)) }
    ensures room { OnOk result (length buffer.new ≤ gather_limit + 3) }
    ensures fault { OnErr result
        (AppendsFront (O.held sink.old) (O.held sink.new) (buffer.old ++ escaped name.now)) }
    ensures later { O.faults sink.old ≤ O.faults sink.new }
    ensures cause { OnErr result (Rose (O.faults sink.old) (O.faults sink.new)) }
{
    for byte in name {
        make_room(sink, buffer)?;
        push_escape(buffer, *byte);
    }
    Ok(())
}

/// Sends the field that tells where a new shelf is, and leaves the last of it gathered.
#[tactic(auto, unfolding(crate::specs::Responses::location_field))]
fn send_location<O: Sink>(
    sink: &mut O,
    buffer: &mut OutputBuffer,
    location: &Option<Text>,
) -> Result<(), WriteFault>
    requires { length buffer.old ≤ most_field_bytes }
    ensures ok { OnOk result (Gathers (O.held sink.old) (O.held sink.new) buffer.old buffer.new
        (location_field location.now)) }
    ensures room { OnOk result (length buffer.new ≤ gather_limit + 5) }
    ensures fault { OnErr result
        (AppendsFront (O.held sink.old) (O.held sink.new) (buffer.old
        ++ location_field location.now)) }
    ensures later { O.faults sink.old ≤ O.faults sink.new }
    ensures cause { OnErr result (Rose (O.faults sink.old) (O.faults sink.new)) }
{
    let Some(name) = location else {
        return Ok(());
    };
    buffer.push_text("Location: ");
    buffer.push_text("/restconf/data/ietf-alarms:alarms/control/alarm-shelving/shelf=");
    send_escaped(sink, buffer, name.bytes())?;
    buffer.push_text("\r\n");
    Ok(())
}

/// Sends what was gathered and then a text, together where both fit.
fn send_with<O: Sink>(
    sink: &mut O,
    buffer: &mut OutputBuffer,
    text: &[u8],
) -> Result<(), WriteFault>
    ensures ok { OnOk result (Appends (O.held sink.old) (O.held sink.new) (buffer.old
        ++ text.now)) }
    ensures fault { OnErr result
        (AppendsFront (O.held sink.old) (O.held sink.new) (buffer.old ++ text.now)) }
    ensures later { O.faults sink.old ≤ O.faults sink.new }
    ensures cause { OnErr result (Rose (O.faults sink.old) (O.faults sink.new)) }
{
    if text.len() <= ROOM - buffer.len() {
        buffer.push(text);
        return write_all(sink, buffer.bytes());
    }
    write_all(sink, buffer.bytes())?;
    write_all(sink, text)
}

/// Sends what was gathered, the empty line and the body.
#[tactic(auto, unfolding(crate::specs::Responses::body_of))]
fn send_body<O: Sink>(
    sink: &mut O,
    buffer: &mut OutputBuffer,
    response: &Response,
) -> Result<(), WriteFault>
    requires room { length buffer.old ≤ gather_limit + 5 }
    requires body { HasRow response.now.content }
    ensures ok { OnOk result (Appends (O.held sink.old) (O.held sink.new) (buffer.old ++ crlf
        ++ (if response.now.bare then [] else body_of response.now.content))) }
    ensures fault { OnErr result
        (AppendsFront (O.held sink.old) (O.held sink.new) (buffer.old ++ crlf
        ++ (if response.now.bare then [] else body_of response.now.content))) }
    ensures later { O.faults sink.old ≤ O.faults sink.new }
    ensures cause { OnErr result (Rose (O.faults sink.old) (O.faults sink.new)) }
{
    buffer.push_text("\r\n");
    if response.bare {
        return write_all(sink, buffer.bytes());
    }
    match &response.content {
        Content::Empty => write_all(sink, buffer.bytes()),
        Content::Row(number) => {
            push_row(buffer, *number);
            write_all(sink, buffer.bytes())
        }
        Content::HostMeta => send_with(sink, buffer, HOST_META.as_bytes()),
        Content::Tree(text) => send_with(sink, buffer, text.as_slice()),
    }
}

/// Writes the text of the response, in one or two pieces where the sink takes them whole. After a fault a front of it was written.
#[tactic(auto, unfolding(crate::specs::Responses::response_text))]
pub fn respond<O: Sink>(sink: &mut O, response: &Response, last: bool) -> Result<(), WriteFault>
    requires { HasText response.now }
    ensures ok { OnOk result (Appends (O.held sink.old) (O.held sink.new)
        (response_text response.now last)) }
    ensures fault { OnErr result
        (AppendsFront (O.held sink.old) (O.held sink.new) (response_text response.now last)) }
    ensures later { O.faults sink.old ≤ O.faults sink.new }
    ensures cause { OnErr result (Rose (O.faults sink.old) (O.faults sink.new)) }
{
    let mut buffer = OutputBuffer::new();
    push_fields(&mut buffer, response, last);
    send_location(sink, &mut buffer, &response.location)?;
    send_body(sink, &mut buffer, response)
}

/// Laws of writes: what stands in a sink after one and then another.
pub fn writes_add_up()
    ensures whole { WholeThenWhole }
    ensures front { WholeThenFront }
{}
