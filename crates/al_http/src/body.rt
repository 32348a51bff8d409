//! The bodies of responses.

ghost use Rattle.std.specs.Prelude.{◌≡◌, ◌+◌, ◌≤◌, ◌++◌, length};
ghost use Rattle.al_http.specs.ErrorRows.{IsErrorRow, error_row as row_of, error_text};
ghost use Rattle.al_http.specs.Responses.{body_of, media_type_of, HasRow};
ghost use Rattle.al_http.specs.Told.{told};
ghost use Rattle.al_http.specs.OutputBuffers.{output_room};

use crate::error_row::{ErrorRow, error_row};
use crate::output_buffer::OutputBuffer;
use crate::response::Content;

/// The body that names the root of RESTCONF (RFC 8040, section 3.1).
pub const HOST_META: &str =
    "<XRD xmlns='http://docs.oasis-open.org/ns/xri/xrd-1.0'><Link rel='restconf' href='/restconf'/></XRD>";

/// The length of the body.
#[tactic(auto, unfolding(crate::specs::Responses::body_of))]
pub fn body_len(content: &Content) -> usize
    requires { HasRow content.now }
    ensures { result ≡ length (body_of content.now) }
{
    match content {
        Content::Empty => 0,
        Content::Row(number) => {
            let row = error_row(*number);
            88 + row.message.len() + row.tag.len() + row.error_type.len()
        }
        Content::HostMeta => HOST_META.len(),
        Content::Tree(text) => text.as_slice().len(),
    }
}

/// What the Content-Type field tells of the body.
pub fn media_type(content: &Content) -> &'static str
    ensures text { result.now ≡ media_type_of content.now }
    ensures short { length result.now ≤ 26 }
{
    match content {
        Content::HostMeta => "application/xrd+xml",
        Content::Empty | Content::Row(_) | Content::Tree(_) => "application/yang-data+json",
    }
}

/// The error list with one error.
fn push_error(buffer: &mut OutputBuffer, row: &ErrorRow)
    requires { length buffer.old + length row.now.message.now + length row.now.tag.now
        + length row.now.error_type.now + 100 ≤ output_room }
    ensures { buffer.new ≡ buffer.old ++ error_text (told row.now) }
{
    buffer.push_text("{\"ietf-restconf:errors\":{\"error\":[{\"error-message\":\"");
    buffer.push_text(row.message);
    buffer.push_text("\",\"error-tag\":\"");
    buffer.push_text(row.tag);
    buffer.push_text("\",\"error-type\":\"");
    buffer.push_text(row.error_type);
    buffer.push_text("\"}]}}");
}

/// The body of a refusal.
pub fn push_row(buffer: &mut OutputBuffer, number: u8)
    requires row { IsErrorRow number }
    requires room { length buffer.old + 200 ≤ output_room }
    ensures { buffer.new ≡ buffer.old ++ error_text (row_of number) }
{
    push_error(buffer, &error_row(number));
}
