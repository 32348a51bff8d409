//! Bytes in a path (RFC 3986, section 2.1).

ghost use Rattle.std.specs.Prelude.{◌≡◌, ◌+◌, ◌≤◌, ◌++◌, false, length};
ghost use Rattle.al_http.specs.Responses.{is_unreserved as unreserved, escape_of};
ghost use Rattle.al_http.specs.OutputBuffers.{output_room};

use crate::output_buffer::OutputBuffer;
use percent_encoding::percent_encode_byte;

/// Whether the byte stands for itself in a path (RFC 3986, section 2.3).
fn is_unreserved(byte: u8) -> bool
    ensures { result ≡ unreserved byte }
{
    byte.is_ascii_alphanumeric() || byte == b'-' || byte == b'.' || byte == b'_' || byte == b'~'
}

/// A byte as it stands in a path where it doesn't stand for itself.
#[tactic(auto, using(crate::proofs::EscapeLemmas::escape_is))]
fn escape(byte: u8) -> &'static str
    requires { unreserved byte ≡ false }
    ensures text { result.now ≡ escape_of byte }
    ensures short { length result.now ≤ 3 }
{
    percent_encode_byte(byte)
}

/// Appends a byte as it stands in a path.
pub fn push_escape(buffer: &mut OutputBuffer, byte: u8)
    requires { length buffer.old + 3 ≤ output_room }
    ensures text { buffer.new ≡ buffer.old ++ escape_of byte }
    ensures grown { length buffer.new ≤ length buffer.old + 3 }
{
    if is_unreserved(byte) {
        buffer.push(&[byte]);
    } else {
        buffer.push_text(escape(byte));
    }
}
