//! Lines that are done for each of some numbers.

use crate::escapes::hex_digit;
use crate::fault::Fault;
use std::alloc::{AllocError, Global};

/// What the byte before says of the next one.
#[derive(Clone, Copy)]
enum Place {
    Plain,
    /// Behind `%` and a width, which is 0 where there is none yet.
    Mark(u8),
    /// In the text for even numbers.
    Even,
    /// In the text for odd ones.
    Odd,
}

/// The text with the number in place of its marks.
pub fn numbered(alloc: Global, text: &str, number: u64) -> Result<String, Fault> {
    let mut to = String::new(alloc);
    let mut place = Place::Plain;
    for ch in text.chars() {
        place = next(alloc, place, ch, number, &mut to)?;
    }
    match place {
        Place::Plain => Ok(to),
        Place::Mark(_) | Place::Even | Place::Odd => Err(Fault::Form),
    }
}

fn next(
    alloc: Global,
    place: Place,
    ch: char,
    number: u64,
    to: &mut String,
) -> Result<Place, Fault> {
    match place {
        Place::Plain => plain(ch, to),
        Place::Mark(width) => mark(alloc, width, ch, number, to),
        Place::Even => Ok(even(ch, number, to)?),
        Place::Odd => Ok(odd(ch, number, to)?),
    }
}

fn plain(ch: char, to: &mut String) -> Result<Place, Fault> {
    if ch == '%' {
        return Ok(Place::Mark(0));
    }
    to.push(ch)?;
    Ok(Place::Plain)
}

fn even(ch: char, number: u64, to: &mut String) -> Result<Place, AllocError> {
    if ch == '|' {
        return Ok(Place::Odd);
    }
    if number % 2 == 0 {
        to.push(ch)?;
    }
    Ok(Place::Even)
}

fn odd(ch: char, number: u64, to: &mut String) -> Result<Place, AllocError> {
    if ch == ']' {
        return Ok(Place::Plain);
    }
    if number % 2 == 1 {
        to.push(ch)?;
    }
    Ok(Place::Odd)
}

fn mark(alloc: Global, width: u8, ch: char, number: u64, to: &mut String) -> Result<Place, Fault> {
    match ch {
        '%' => to.push('%')?,
        'd' => add_decimal(alloc, width, number, to)?,
        'x' => add_hex(width, number, to)?,
        'b' => add_binary(width, number, to)?,
        '[' => return Ok(Place::Even),
        _ => return Ok(Place::Mark(wider(width, ch)?)),
    }
    Ok(Place::Plain)
}

/// The width with one more digit.
fn wider(width: u8, ch: char) -> Result<u8, Fault> {
    match ch.to_digit(10) {
        Some(digit) => Ok(width.saturating_mul(10).saturating_add(low_digit(digit))),
        None => Err(Fault::Form),
    }
}

fn low_digit(digit: u32) -> u8 {
    u8::try_from(digit).unwrap_or(u8::MAX)
}

/// Adds the number, with zeros before it up to the width.
fn add_decimal(alloc: Global, width: u8, number: u64, to: &mut String) -> Result<(), AllocError> {
    let digits = format!(in alloc; "{number}")?;
    for _ in digits.len()..usize::from(width) {
        to.push('0')?;
    }
    to.push_str(digits.as_str())
}

/// Adds so many hexadecimal digits of the number, the last ones.
fn add_hex(width: u8, number: u64, to: &mut String) -> Result<(), AllocError> {
    for place in 0..16_u8 {
        if place >= 16_u8.saturating_sub(width) {
            to.push(nibble(number, place))?;
        }
    }
    Ok(())
}

/// Adds so many bytes of the number, the last ones, each as an escape.
fn add_binary(width: u8, number: u64, to: &mut String) -> Result<(), AllocError> {
    for place in 0..8_u8 {
        if place >= 8_u8.saturating_sub(width) {
            to.push_str("\\x")?;
            to.push(nibble(number, place * 2))?;
            to.push(nibble(number, place * 2 + 1))?;
        }
    }
    Ok(())
}

/// The hexadecimal digit at this place of 16.
fn nibble(number: u64, place: u8) -> char {
    let bytes = number.to_be_bytes();
    let byte = match bytes.get(usize::from(place / 2)) {
        Some(byte) => *byte,
        None => 0,
    };
    hex_digit(if place % 2 == 0 { byte / 16 } else { byte % 16 })
}
