//! Texts into room that is there. Nothing here can fail.

ghost use Rattle.al_base.specs.Times.{stamp_text};
ghost use Rattle.al_fields.specs.Texts.{is_escaped};
ghost use Rattle.json.specs.Print.{escape, escape_byte, escape_letter as letter_of, quoted};
ghost use Rattle.serde_json.specs.Written.{comma_if};
ghost use Rattle.std.specs.Char.{digit_char};
ghost use Rattle.std.specs.Prelude.{◌≡◌, ◌+◌, ◌++◌, ◌<◌, ◌≤◌, [], ◌∷◌, count_by, decimal, length, vec_capacity, vec_len};

use al_base::Stamp;
use itoa::Buffer;

pub(crate) fn put_bytes(out: &mut Vec<u8>, bytes: &[u8])
    requires { vec_len out.old + length bytes.now ≤ vec_capacity out.old }
    ensures items { out.new.items ≡ out.old.items ++ bytes.now }
    ensures len { vec_len out.new ≡ vec_len out.old + length bytes.now }
    ensures room { vec_capacity out.old ≤ vec_capacity out.new }
{
    if out.extend_from_slice(bytes).is_err() {
        unreachable!();
    }
}

pub(crate) fn put_byte(out: &mut Vec<u8>, byte: u8)
    requires { vec_len out.old < vec_capacity out.old }
    ensures items { out.new.items ≡ out.old.items ++ byte ∷ [] }
    ensures len { vec_len out.new ≡ vec_len out.old + 1 }
    ensures room { vec_capacity out.old ≤ vec_capacity out.new }
{
    out.push_reserved(byte);
}

/// The letter of the byte's short escape, 0 where it has none.
pub(crate) fn escape_letter(byte: u8) -> u8
    ensures { result ≡ letter_of byte }
{
    match byte {
        b'"' | b'\\' => byte,
        8 => b'b',
        12 => b'f',
        b'\n' => b'n',
        b'\r' => b'r',
        b'\t' => b't',
        _ => 0,
    }
}

fn hex(nibble: u8) -> u8
    requires { nibble < 16 }
    ensures { result ≡ digit_char nibble }
{
    if nibble < 10 {
        b'0' + nibble
    } else {
        b'a' + (nibble - 10)
    }
}

/// Writes what stands in a string for the byte.
#[tactic(auto, unfolding(json::specs::Print::escape_byte))]
fn put_escaped_byte(out: &mut Vec<u8>, byte: u8)
    requires { vec_len out.old + length (escape_byte byte) ≤ vec_capacity out.old }
    ensures items { out.new.items ≡ out.old.items ++ escape_byte byte }
    ensures len { vec_len out.new ≡ vec_len out.old + length (escape_byte byte) }
    ensures room { vec_capacity out.old ≤ vec_capacity out.new }
{
    let letter = escape_letter(byte);
    if letter > 0 {
        put_bytes(out, [b'\\', letter].as_slice());
    } else if byte < 32 {
        put_bytes(
            out,
            [b'\\', b'u', b'0', b'0', hex(byte / 16), hex(byte % 16)].as_slice(),
        );
    } else {
        put_byte(out, byte);
    }
}

/// How many bytes of the text don't stand in a string as they are.
pub(crate) fn escapes_in(text: &[u8]) -> usize
    ensures { result ≡ count_by is_escaped text.now }
{
    text.iter()
        .filter(|byte| **byte < 32 || **byte == 34 || **byte == 92)
        .count()
}

/// Writes what stands in a string for the text. Most texts stand there as they are.
#[tactic(auto, using(crate::proofs::Escapes::escape_plain))]
fn put_escaped(out: &mut Vec<u8>, text: &[u8])
    requires { vec_len out.old + length (escape text.now) ≤ vec_capacity out.old }
    ensures items { out.new.items ≡ out.old.items ++ escape text.now }
    ensures len { vec_len out.new ≡ vec_len out.old + length (escape text.now) }
    ensures room { vec_capacity out.old ≤ vec_capacity out.new }
{
    if escapes_in(text) == 0 {
        put_bytes(out, text);
    } else {
        put_each(out, text);
    }
}

/// Writes what stands in a string for each byte.
fn put_each(out: &mut Vec<u8>, text: &[u8])
    requires { vec_len out.old + length (escape text.now) ≤ vec_capacity out.old }
    ensures items { out.new.items ≡ out.old.items ++ escape text.now }
    ensures len { vec_len out.new ≡ vec_len out.old + length (escape text.now) }
    ensures room { vec_capacity out.old ≤ vec_capacity out.new }
{
    for byte in text {
        put_escaped_byte(out, *byte);
    }
}

/// Writes the text as a string of JSON.
pub(crate) fn put_quoted(out: &mut Vec<u8>, text: &[u8])
    requires { vec_len out.old + length (quoted text.now) ≤ vec_capacity out.old }
    ensures items { out.new.items ≡ out.old.items ++ quoted text.now }
    ensures len { vec_len out.new ≡ vec_len out.old + length (quoted text.now) }
    ensures room { vec_capacity out.old ≤ vec_capacity out.new }
{
    put_byte(out, b'"');
    put_escaped(out, text);
    put_byte(out, b'"');
}

pub(crate) fn put_comma(out: &mut Vec<u8>, later: bool)
    requires { vec_len out.old + length (comma_if later) ≤ vec_capacity out.old }
    ensures items { out.new.items ≡ out.old.items ++ comma_if later }
    ensures len { vec_len out.new ≡ vec_len out.old + length (comma_if later) }
    ensures room { vec_capacity out.old ≤ vec_capacity out.new }
{
    if later {
        put_byte(out, b',');
    }
}

pub(crate) fn put_number(out: &mut Vec<u8>, n: u64)
    requires { vec_len out.old + length (decimal n) ≤ vec_capacity out.old }
    ensures items { out.new.items ≡ out.old.items ++ decimal n }
    ensures len { vec_len out.new ≡ vec_len out.old + length (decimal n) }
    ensures room { vec_capacity out.old ≤ vec_capacity out.new }
{
    let mut buffer = Buffer::new();
    put_bytes(out, buffer.format(n).as_bytes());
}

pub(crate) fn put_time(out: &mut Vec<u8>, time: Stamp)
    requires { vec_len out.old + length (quoted (stamp_text time)) ≤ vec_capacity out.old }
    ensures items { out.new.items ≡ out.old.items ++ quoted (stamp_text time) }
    ensures len { vec_len out.new ≡ vec_len out.old + length (quoted (stamp_text time)) }
    ensures room { vec_capacity out.old ≤ vec_capacity out.new }
{
    let mut text = [0; 24];
    time.print(&mut text);
    put_quoted(out, text.as_slice());
}
