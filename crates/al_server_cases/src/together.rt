//! Two connections that are served at the same time, over a history of 300 alarms.

use crate::gated::{Count, CountedSink, GatedSource, Piece};
use crate::made::{EMPTY, clocks_of, disk_of, inventory, report, shelf, words_of, workers_of};
use al_base::MemSink;
use al_serve::MemDoors;
use al_server::run_serve;
use std::alloc::{AllocError, Global};
use std::sync::atomic::AtomicU64;
use std::sync::{Arc, Wait};
use std::test::Fail;
use std::thread::Threads;

type Door = MemDoors<GatedSource, CountedSink>;

const ALARMS: u64 = 300;

/// What the first connection is answered before the second one begins: to an inventory, five shelves and half of the reports.
const BEFORE: u64 = 156;

/// An acknowledgement of the alarm of port 7.
const ACKNOWLEDGE: &[u8] =
    b"POST /restconf/data/ietf-alarms:alarms/alarm-list/alarm=port7,ex:t7,/set-operator-state HTTP/1.1\r\nAlarm-Operator: kim\r\nContent-Length: 37\r\n\r\n{\"ietf-alarms:input\":{\"state\":\"ack\"}}";

/// A read of that alarm.
const READ: &[u8] =
    b"GET /restconf/data/ietf-alarms:alarms/alarm-list/alarm=port7,ex:t7, HTTP/1.1\r\n\r\n";

/// Pieces of an inventory of 40 types, five shelves and 300 reports. Half of the reports wait for the acknowledgement.
fn reports(alloc: Global) -> Result<Vec<Piece>, AllocError> {
    let mut pieces = Vec::new(alloc);
    pieces.push(Piece::new(0, inventory(alloc, 40)?))?;
    for digit in 0..5 {
        pieces.push(Piece::new(0, shelf(alloc, digit)?))?;
    }
    for number in 0..ALARMS {
        let writes = if number < ALARMS / 2 { 0 } else { 1 };
        pieces.push(Piece::new(writes, report(alloc, number)?))?;
    }
    Ok(pieces)
}

/// A door with one connection, which waits for the writes of the other one.
fn door_of(
    alloc: Global,
    pieces: Vec<Piece>,
    others: &Count,
    writes: &Count,
) -> Result<Door, AllocError> {
    let source = GatedSource::new(pieces, others)?;
    let sink = CountedSink::new(alloc, writes)?;
    MemDoors::new(alloc, vec![in alloc; (source, sink)]?, &[])
}

/// The place that the bytes tell, where they begin with one.
fn place_at(bytes: &[u8]) -> Option<u64> {
    let digits = bytes.strip_prefix(b"Alarm-Place: ".as_slice())?;
    let mut place: u64 = 0;
    for digit in digits {
        if !digit.is_ascii_digit() {
            break;
        }
        place = place
            .saturating_mul(10)
            .saturating_add(u64::from(*digit - b'0'));
    }
    Some(place)
}

/// Whether the places that the bytes tell never fall.
fn places_rise(bytes: &[u8]) -> bool {
    let mut last = 0;
    for i in 0..bytes.len() {
        if let Some(place) = place_at(&bytes[i..]) {
            if place < last {
                return false;
            }
            last = place;
        }
    }
    true
}

fn contains(bytes: &[u8], part: &[u8]) -> bool {
    for i in 0..bytes.len() {
        if bytes[i..].starts_with(part) {
            return true;
        }
    }
    false
}

/// What is written to the door's connection.
fn written(door: &Door) -> &[u8] {
    match door.finished(0) {
        Some((_, sink)) => sink.sink.bytes(),
        None => b"",
    }
}

/// The doors of two connections. The second one begins when the first has reported half of the alarms, and the first goes on when the second has acknowledged
/// one of them.
fn doors_of(alloc: Global) -> Result<(Door, Door), AllocError> {
    let first_writes = Arc::new(alloc, AtomicU64::new(0))?;
    let second_writes = Arc::new(alloc, AtomicU64::new(0))?;
    let first = door_of(alloc, reports(alloc)?, &second_writes, &first_writes)?;
    let mut pieces = Vec::new(alloc);
    pieces.push(Piece::of(alloc, BEFORE, ACKNOWLEDGE)?)?;
    pieces.push(Piece::of(alloc, BEFORE, READ)?)?;
    let second = door_of(alloc, pieces, &first_writes, &second_writes)?;
    Ok((first, second))
}

/// Whether the two are served as they are to be.
fn are_served<R: Threads + Wait + Sync>(rt: &R, alloc: Global) -> Result<bool, AllocError> {
    let words = words_of(alloc, &[b"serve", b"j", b"127.0.0.1:8080", b"2", b"1"])?;
    if workers_of(words.as_slice()) != 2 {
        return Ok(false);
    }
    let (first, second) = doors_of(alloc)?;
    let mut doors = Vec::new(alloc);
    doors.push(first)?;
    doors.push(second)?;
    let mut sink = MemSink::new(alloc, 4096, &[])?;
    let (status, _, doors) = run_serve(
        rt,
        alloc,
        words.as_slice(),
        disk_of(alloc, EMPTY, 0)?,
        doors,
        clocks_of(alloc, 2)?,
        &mut sink,
    );
    let [first, second] = doors.as_slice() else {
        return Ok(false);
    };
    Ok(
        status == 0
            && sink.bytes() == b"served 2 connections, 307 entries\n".as_slice()
            && is_answered(written(first))
            && is_answered(written(second))
            && contains(written(second), b"\"state\":\"ack\""),
    )
}

/// Whether every request was carried out, at places that never fall.
fn is_answered(bytes: &[u8]) -> bool {
    places_rise(bytes) && !contains(bytes, b"HTTP/1.1 4") && !contains(bytes, b"HTTP/1.1 5")
}

/// No request of the two is refused, the acknowledgement is read back, and the line counts the entries of both: an inventory, five shelves, 300 alarms and an
/// acknowledgement.
#[test]
fn two_are_served_together(rt: HostRuntime) -> Result<(), Fail> {
    assert!(rt; are_served(&rt, rt.alloc())?);
    Ok(())
}
