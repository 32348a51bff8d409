//! Bytes as a line writes them.

use crate::constants::Constants;
use crate::fault::Fault;
use std::alloc::{AllocError, Global};

/// What the byte before says of the next one.
#[derive(Clone, Copy)]
enum Place {
    Plain,
    /// Behind a backslash.
    Escape,
    /// At the first of two hexadecimal digits.
    High,
    /// At the second one, behind the first one's value.
    Low(u8),
    /// Inside the name of a constant, or at its beginning.
    Name,
}

#[derive(Drop)]
struct Reader {
    place: Place,
    /// What there is of a name.
    name: Vec<u8>,
}

/// Adds the bytes that the text stands for.
pub fn add_bytes(
    alloc: Global,
    constants: &Constants,
    text: &[u8],
    to: &mut Vec<u8>,
) -> Result<(), Fault> {
    let mut reader = Reader {
        place: Place::Plain,
        name: Vec::new(alloc),
    };
    for byte in text {
        take(constants, &mut reader, *byte, to)?;
    }
    end(constants, &mut reader, to)
}

fn take(
    constants: &Constants,
    reader: &mut Reader,
    byte: u8,
    to: &mut Vec<u8>,
) -> Result<(), Fault> {
    match reader.place {
        Place::Plain => take_plain(reader, byte, to),
        Place::Escape => take_escape(reader, byte, to),
        Place::High => {
            reader.place = Place::Low(digit(byte)?);
            Ok(())
        }
        Place::Low(high) => {
            reader.place = Place::Plain;
            push(to, (high << 4) | digit(byte)?)
        }
        Place::Name => take_name(constants, reader, byte, to),
    }
}

fn push(to: &mut Vec<u8>, byte: u8) -> Result<(), Fault> {
    to.extend_from_slice(&[byte])?;
    Ok(())
}

/// The value of a hexadecimal digit.
fn digit(byte: u8) -> Result<u8, Fault> {
    match byte {
        b'0'..=b'9' => Ok(byte - b'0'),
        b'a'..=b'f' => Ok(byte - b'a' + 10),
        _ => Err(Fault::Form),
    }
}

fn take_plain(reader: &mut Reader, byte: u8, to: &mut Vec<u8>) -> Result<(), Fault> {
    match byte {
        b'\\' => reader.place = Place::Escape,
        b'$' => reader.place = Place::Name,
        _ => push(to, byte)?,
    }
    Ok(())
}

fn take_escape(reader: &mut Reader, byte: u8, to: &mut Vec<u8>) -> Result<(), Fault> {
    reader.place = Place::Plain;
    match byte {
        b'n' => push(to, b'\n'),
        b'r' => push(to, b'\r'),
        b't' => push(to, b'\t'),
        b'0' => push(to, 0),
        b'\\' | b'$' => push(to, byte),
        b'x' => {
            reader.place = Place::High;
            Ok(())
        }
        _ => Err(Fault::Form),
    }
}

/// Whether the byte goes on with a name, which begins with a letter.
fn is_of_name(byte: u8, begins: bool) -> bool {
    match byte {
        b'A'..=b'Z' => true,
        b'0'..=b'9' | b'_' => !begins,
        _ => false,
    }
}

fn take_name(
    constants: &Constants,
    reader: &mut Reader,
    byte: u8,
    to: &mut Vec<u8>,
) -> Result<(), Fault> {
    if is_of_name(byte, reader.name.is_empty()) {
        return push(&mut reader.name, byte);
    }
    end_name(constants, reader, to)?;
    take_plain(reader, byte, to)
}

/// Adds the constant of the name; where there is no name, the dollar.
fn end_name(constants: &Constants, reader: &mut Reader, to: &mut Vec<u8>) -> Result<(), Fault> {
    reader.place = Place::Plain;
    if reader.name.is_empty() {
        return push(to, b'$');
    }
    to.extend_from_slice(constants.of(reader.name.as_slice())?)?;
    reader.name.clear();
    Ok(())
}

fn end(constants: &Constants, reader: &mut Reader, to: &mut Vec<u8>) -> Result<(), Fault> {
    match reader.place {
        Place::Plain => Ok(()),
        Place::Name => end_name(constants, reader, to),
        Place::Escape | Place::High | Place::Low(_) => Err(Fault::Form),
    }
}

/// Adds bytes as a line writes them.
pub fn add_escaped(bytes: &[u8], to: &mut String) -> Result<(), AllocError> {
    for byte in bytes {
        add_escape(*byte, to)?;
    }
    Ok(())
}

fn add_escape(byte: u8, to: &mut String) -> Result<(), AllocError> {
    match byte {
        b'\n' => to.push_str("\\n"),
        b'\r' => to.push_str("\\r"),
        b'\\' => to.push_str("\\\\"),
        b' '..=b'~' => to.push(char::from(byte)),
        _ => {
            to.push_str("\\x")?;
            to.push(hex_digit(byte / 16))?;
            to.push(hex_digit(byte % 16))
        }
    }
}

/// The hexadecimal digit of this value.
pub fn hex_digit(value: u8) -> char {
    match value % 16 {
        low @ 0..=9 => char::from(b'0' + low),
        high => char::from(b'a' + (high - 10)),
    }
}
