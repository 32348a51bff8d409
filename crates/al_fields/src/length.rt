//! Lengths of texts, which stop at the greatest number of 64 bits.

ghost use Rattle.al_base.specs.Times.{stamp_text};
ghost use Rattle.al_fields.specs.Lengths.{saturated};
ghost use Rattle.json.specs.Print.{escape, escape_byte, quoted};
ghost use Rattle.std.specs.Prelude.{◌≡◌, decimal, length};

use crate::writer::{escape_letter, escapes_in};
use al_base::Stamp;
use itoa::Buffer;

/// How long what stands in a string for the byte is.
#[tactic(auto, unfolding(json::specs::Print::escape_byte))]
fn escaped_byte_len(byte: u8) -> u64
    ensures { result ≡ length (escape_byte byte) }
{
    if escape_letter(byte) > 0 {
        2
    } else if byte < 32 {
        6
    } else {
        1
    }
}

#[tactic(auto, using(crate::proofs::Escapes::escape_plain))]
fn escaped_len(text: &[u8]) -> u64
    ensures { result ≡ saturated (length (escape text.now)) }
{
    if escapes_in(text) == 0 {
        text.len() as u64
    } else {
        each_len(text)
    }
}

fn each_len(text: &[u8]) -> u64
    ensures { result ≡ saturated (length (escape text.now)) }
{
    let mut total: u64 = 0;
    for byte in text {
        total = total.saturating_add(escaped_byte_len(*byte));
    }
    total
}

pub(crate) fn quoted_len(text: &[u8]) -> u64
    ensures { result ≡ saturated (length (quoted text.now)) }
{
    escaped_len(text).saturating_add(2)
}

pub(crate) fn number_len(n: u64) -> u64
    ensures { result ≡ saturated (length (decimal n)) }
{
    let mut buffer = Buffer::new();
    buffer.format(n).len() as u64
}

pub(crate) fn time_len(time: Stamp) -> u64
    ensures { result ≡ saturated (length (quoted (stamp_text time))) }
{
    let mut text = [0; 24];
    time.print(&mut text);
    quoted_len(text.as_slice())
}
