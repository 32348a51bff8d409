//! Where bytes stop being UTF-8.

ghost use Rattle.al_ids.specs.TextStops.{IsTextStop};
ghost use Rattle.std.specs.Int.{is_in_range};
ghost use Rattle.std.specs.Prelude.{◌≡◌, IsUtf8, MatchOption};

use std::str;

/// The first byte that no text in UTF-8 has there, or the length where the bytes end inside a character; None where the
/// bytes are a text.
pub fn text_stop(bytes: &[u8]) -> Option<usize>
    ensures { MatchOption result (IsUtf8 bytes.now) (IsTextStop bytes.now) }
{
    let Err(error) = str::from_utf8(bytes) else {
        return None;
    };
    let valid = error.valid_up_to();
    if !begins_character(bytes[valid]) {
        return Some(valid);
    }
    match error.error_len() {
        Some(len) => Some(valid + len),
        None => Some(bytes.len()),
    }
}

/// Whether a character that isn't ASCII may begin with the byte.
fn begins_character(byte: u8) -> bool
    ensures { result ≡ is_in_range 0xC2 0xF4 byte }
{
    matches!(byte, 0xC2..=0xF4)
}
