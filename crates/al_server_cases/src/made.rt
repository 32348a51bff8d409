//! The words, disks and requests of the cases.

ghost use Rattle.std.specs.Prelude.{◌≡◌, IfOk, vec_len};
ghost use Rattle.al_server.specs.ServeWords.{IsServe};
ghost use Rattle.al_server.specs.declared.serve_words.ServeWords.{ServeWords};

use al_base::{MemClock, Text, TextFault};
use al_disk::MemDisk;
use al_server::ServeWords;
use std::alloc::{AllocError, Global};

/// A journal of capacity 1,048,576 without entries.
pub const EMPTY: &[u8] = b"\x01ALJ1\0\0\0\0\0\x10\0\0\0";

/// How many bytes a disk of these cases holds.
const ROOM: usize = 2_097_152;

/// How many calls a disk of these cases takes.
const CALLS: usize = 100_000;

pub fn words_of(alloc: Global, words: &[&[u8]]) -> Result<Vec<Text>, AllocError> {
    let mut texts = Vec::new(alloc);
    for word in words {
        match Text::read(alloc, word) {
            Ok(text) => texts.push(text)?,
            Err(TextFault::NotUtf8 | TextFault::Memory) => return Err(AllocError),
        }
    }
    Ok(texts)
}

/// How many workers there are, where the words ask for any.
pub fn workers_of(words: &[Text]) -> u16
    ensures { (serve : ServeWords) → IsServe words.now serve → serve.workers ≡ result }
{
    match ServeWords::of(words) {
        Some(serve) => serve.workers,
        None => 0,
    }
}

/// A clock that reads 0, for each of so many workers.
pub fn clocks_of(alloc: Global, count: u16) -> Result<Vec<MemClock>, AllocError>
    ensures { IfOk result (λ made. vec_len made ≡ count) }
{
    let mut made = Vec::new(alloc);
    for _ in 0..count {
        made.push(MemClock::new(alloc, &[])?)?;
    }
    Ok(made)
}

/// A disk with these bytes, whose call of this number fails.
pub fn disk_of(alloc: Global, bytes: &[u8], fails: u64) -> Result<MemDisk, AllocError> {
    if bytes.len() > ROOM {
        return Err(AllocError);
    }
    MemDisk::new(alloc, bytes, ROOM, CALLS, &[fails])
}

/// A request with a body, whose line and further fields are its head.
fn with_body(alloc: Global, head: &str, body: &str) -> Result<String, AllocError> {
    let len = body.len();
    format!(in alloc; "{head}Content-Length: {len}\r\n\r\n{body}")
}

/// What installs an inventory of so many types of alarms: `ex:t0` and so on.
pub fn inventory(alloc: Global, count: u64) -> Result<String, AllocError> {
    let mut types = String::new(alloc);
    let mut identities = String::new(alloc);
    for i in 0..count {
        let comma = if i == 0 { "" } else { "," };
        let one = format!(in alloc;
            "{comma}{{\"alarm-type-id\":\"ex:t{i}\",\"description\":\"T\",\"ietf-alarms-x733:event-type\":\"communications-alarm\",\"will-clear\":true}}"
        )?;
        types.push_str(one.as_str())?;
        let one = format!(in alloc;
            "{comma}{{\"base\":\"ietf-alarms:alarm-type-id\",\"name\":\"ex:t{i}\"}}"
        )?;
        identities.push_str(one.as_str())?;
    }
    let body = format!(in alloc;
        "{{\"alarmd:inventory\":{{\"alarm-type\":[{types}],\"identity\":[{identities}]}}}}"
    )?;
    with_body(
        alloc,
        "PUT /restconf/data/alarmd:inventory HTTP/1.1\r\n",
        body.as_str(),
    )
}

/// A shelf for the ports whose number begins with 9 and this digit.
pub fn shelf(alloc: Global, digit: u64) -> Result<String, AllocError> {
    let head = format!(in alloc;
        "PUT /restconf/data/ietf-alarms:alarms/control/alarm-shelving/shelf=s{digit} HTTP/1.1\r\n"
    )?;
    let body = format!(in alloc;
        "{{\"ietf-alarms:shelf\":[{{\"name\":\"s{digit}\",\"resource\":[\"port9{digit}[0-9]*\"]}}]}}"
    )?;
    with_body(alloc, head.as_str(), body.as_str())
}

/// The report that a port of its own is down, by one of 40 types.
pub fn report(alloc: Global, number: u64) -> Result<String, AllocError> {
    let kind = number % 40;
    let body = format!(in alloc;
        "{{\"alarmd:input\":{{\"alarm-text\":\"down\",\"alarm-type-id\":\"ex:t{kind}\",\"perceived-severity\":\"major\",\"resource\":\"port{number}\"}}}}"
    )?;
    with_body(
        alloc,
        "POST /restconf/operations/alarmd:report HTTP/1.1\r\n",
        body.as_str(),
    )
}
