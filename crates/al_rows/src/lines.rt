//! What the lines of a row say.

use crate::constants::Constants;
use crate::escapes::add_bytes;
use crate::fault::Fault;
use crate::messages::{Answer, add_field, add_request, add_response, refusal};
use crate::row::{Image, Output, Row};
use al_base::Stamp;
use std::alloc::{AllocError, Global};

/// A line: its first word, and the rest.
#[derive(Clone, Copy)]
pub struct Line<'a> {
    pub verb: &'a str,
    pub rest: &'a str,
}

impl<'a> Line<'a> {
    pub fn of(text: &'a str) -> Line<'a> {
        let (verb, rest) = parted(text);
        Line { verb, rest }
    }
}

/// The text up to a space, and what is behind it.
fn parted(text: &str) -> (&str, &str) {
    match text.split_once(' ') {
        Some((front, rest)) => (front, rest),
        None => (text, ""),
    }
}

fn number(text: &str) -> Result<u64, Fault> {
    match text.parse::<u64>() {
        Ok(number) => Ok(number),
        Err(_) => Err(Fault::Form),
    }
}

/// Two numbers.
pub fn numbers(text: &str) -> Result<(u64, u64), Fault> {
    let (first, last) = parted(text);
    Ok((number(first)?, number(last)?))
}

/// Does what a line says of constants or of a row.
pub fn take_line(
    alloc: Global,
    constants: &mut Constants,
    row: &mut Row,
    line: Line,
) -> Result<(), Fault> {
    match line.verb {
        "let" => make(alloc, constants, line.rest),
        "add" => add(alloc, constants, line.rest),
        "save" => constants.make(alloc, line.rest.as_bytes(), row.input.as_slice()),
        _ => take_of_row(alloc, constants, row, line),
    }
}

fn bytes_of(alloc: Global, constants: &Constants, text: &str) -> Result<Vec<u8>, Fault> {
    let mut bytes = Vec::new(alloc);
    add_bytes(alloc, constants, text.as_bytes(), &mut bytes)?;
    Ok(bytes)
}

fn make(alloc: Global, constants: &mut Constants, rest: &str) -> Result<(), Fault> {
    let (name, text) = parted(rest);
    let bytes = bytes_of(alloc, constants, text)?;
    constants.make(alloc, name.as_bytes(), bytes.as_slice())
}

fn add(alloc: Global, constants: &mut Constants, rest: &str) -> Result<(), Fault> {
    let (name, text) = parted(rest);
    let bytes = bytes_of(alloc, constants, text)?;
    constants.add(alloc, name.as_bytes(), bytes.as_slice())
}

/// Does what a line says of what is run.
fn take_of_row(
    alloc: Global,
    constants: &Constants,
    row: &mut Row,
    line: Line,
) -> Result<(), Fault> {
    let text = line.rest.as_bytes();
    match line.verb {
        "word" => word(alloc, constants, row, line.rest),
        "journal" => add_bytes(alloc, constants, text, &mut row.journal),
        "in" => add_bytes(alloc, constants, text, &mut row.input),
        "ask" => ask(alloc, constants, row, line.rest),
        "with" => add_field(&mut row.with, line.rest, b""),
        _ => take_outcome(alloc, constants, row, line),
    }
}

fn word(alloc: Global, constants: &Constants, row: &mut Row, rest: &str) -> Result<(), Fault> {
    let bytes = bytes_of(alloc, constants, rest)?;
    row.add_word(alloc, bytes.as_slice())
}

fn ask(alloc: Global, constants: &Constants, row: &mut Row, rest: &str) -> Result<(), Fault> {
    let (method, rest) = parted(rest);
    let (target, body) = parted(rest);
    let target = bytes_of(alloc, constants, target)?;
    let body = bytes_of(alloc, constants, body)?;
    add_request(
        alloc,
        &mut row.input,
        method,
        target.as_slice(),
        row.with.as_slice(),
        body.as_slice(),
    )?;
    row.with.clear();
    Ok(())
}

/// Does what a line says of what comes out.
fn take_outcome(
    alloc: Global,
    constants: &Constants,
    row: &mut Row,
    line: Line,
) -> Result<(), Fault> {
    let text = line.rest.as_bytes();
    match line.verb {
        "out" => add_bytes(alloc, constants, text, &mut row.output),
        "begins" => {
            row.has_output = Output::Begins;
            add_bytes(alloc, constants, text, &mut row.output)
        }
        "image" => {
            row.has_image = Image::Bytes;
            add_bytes(alloc, constants, text, &mut row.image)
        }
        _ => take_answer(alloc, constants, row, line),
    }
}

fn take_answer(
    alloc: Global,
    constants: &Constants,
    row: &mut Row,
    line: Line,
) -> Result<(), Fault> {
    match line.verb {
        "answer" => answer(alloc, constants, row, line.rest, false),
        "head" => answer(alloc, constants, row, line.rest, true),
        "error" => error(alloc, row, line.rest),
        "allow" => add_field(&mut row.above, "Allow: ", line.rest.as_bytes()),
        "last" => add_field(&mut row.above, "Connection: close", b""),
        "location" => add_field(&mut row.below, "Location: ", line.rest.as_bytes()),
        _ => take_setting(row, line),
    }
}

fn answer(
    alloc: Global,
    constants: &Constants,
    row: &mut Row,
    rest: &str,
    bare: bool,
) -> Result<(), Fault> {
    let (status, rest) = parted(rest);
    let (place, text) = parted(rest);
    let body = bytes_of(alloc, constants, text)?;
    let body = body.as_slice();
    respond(
        alloc,
        row,
        &Answer {
            status,
            place,
            body,
            bare,
        },
    )
}

fn error(alloc: Global, row: &mut Row, rest: &str) -> Result<(), Fault> {
    let (status, rest) = parted(rest);
    let (place, rest) = parted(rest);
    let (kind, rest) = parted(rest);
    let (tag, message) = parted(rest);
    let body = refusal(alloc, kind, tag, message)?;
    let body = body.as_str().as_bytes();
    let bare = false;
    respond(
        alloc,
        row,
        &Answer {
            status,
            place,
            body,
            bare,
        },
    )
}

fn respond(alloc: Global, row: &mut Row, answer: &Answer) -> Result<(), Fault> {
    add_response(
        alloc,
        &mut row.output,
        answer,
        row.above.as_slice(),
        row.below.as_slice(),
    )?;
    row.above.clear();
    row.below.clear();
    Ok(())
}

fn take_setting(row: &mut Row, line: Line) -> Result<(), Fault> {
    match line.verb {
        "like" => row.has_output = Output::Like,
        "same" => row.has_image = Image::Same,
        "pieces" => {
            let (first, last) = numbers(line.rest)?;
            row.piece = first as usize;
            row.runs = last.saturating_sub(first).saturating_add(1) as usize;
        }
        "status" => row.status = status(line.rest)?,
        _ => take_number(row, line.verb, number(line.rest)?)?,
    }
    Ok(())
}

fn status(text: &str) -> Result<u8, Fault> {
    match text.parse::<u8>() {
        Ok(status) => Ok(status),
        Err(_) => Err(Fault::Form),
    }
}

fn take_number(row: &mut Row, verb: &str, number: u64) -> Result<(), Fault> {
    match verb {
        "clock" => add_reading(row, number)?,
        "read" => row.reads.push(number).map_err(AllocError::from)?,
        "write" => row.writes.push(number).map_err(AllocError::from)?,
        "fail" => row.fails.push(number).map_err(AllocError::from)?,
        "calls" => row.calls = number as usize,
        "room" => row.room = number as usize,
        "piece" => row.piece = number as usize,
        _ => return Err(Fault::Form),
    }
    Ok(())
}

fn add_reading(row: &mut Row, number: u64) -> Result<(), Fault> {
    let Some(stamp) = Stamp::of(number) else {
        return Err(Fault::Form);
    };
    row.readings.push(stamp).map_err(AllocError::from)?;
    Ok(())
}
