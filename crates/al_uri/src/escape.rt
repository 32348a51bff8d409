//! Percent-encoded parts of paths and queries (RFC 3986, section 2.1).

ghost use Rattle.al_uri.specs.Escapes.{begins_with_digits, decoded, has_whole_escapes};
ghost use Rattle.al_uri.specs.Faults.{Answers};
ghost use Rattle.std.specs.Prelude.{◌≡◌};

use crate::fault::UriFault;
use al_base::{Text, TextFault};
use percent_encoding::{DecodeError, percent_decode};
use std::alloc::Global;

/// The part with each escape replaced by its byte. BadEscape where a `%` isn't followed by two hexadecimal digits, or where the bytes
/// aren't UTF-8.
#[tactic(auto, unfolding(crate::specs::Escapes::decoded), using(crate::proofs::Texts::tested_text, crate::proofs::Texts::text_tested))]
pub fn read_decoded(alloc: Global, part: &[u8]) -> Result<Text, UriFault>
    ensures { Answers (decoded part.now) result }
{
    if !has_whole_escapes(part) {
        return Err(UriFault::BadEscape);
    }
    match percent_decode(part).decode_utf8(alloc) {
        Ok(text) => owned(alloc, text.as_str()),
        Err(DecodeError::OutOfMemory) => Err(UriFault::Memory),
        Err(DecodeError::Utf8(_)) => Err(UriFault::BadEscape),
    }
}

/// The text, copied.
fn owned(alloc: Global, text: &str) -> Result<Text, UriFault>
    ensures { Answers (Ok text.now) result }
{
    match Text::read(alloc, text.as_bytes()) {
        Ok(text) => Ok(text),
        Err(TextFault::Memory) => Err(UriFault::Memory),
        Err(TextFault::NotUtf8) => unreachable!(),
    }
}

/// Whether two hexadecimal digits stand behind each `%`.
fn has_whole_escapes(part: &[u8]) -> bool
    ensures { result ≡ has_whole_escapes part.now }
{
    for (i, byte) in part.iter().enumerate() {
        if *byte == b'%' && !begins_with_digits(&part[i + 1..]) {
            return false;
        }
    }
    true
}

fn begins_with_digits(bytes: &[u8]) -> bool
    ensures { result ≡ begins_with_digits bytes.now }
{
    match bytes {
        [high, low, ..] => high.is_ascii_hexdigit() && low.is_ascii_hexdigit(),
        _ => false,
    }
}
