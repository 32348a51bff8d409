//! What `serve` answers, row by row.

ghost use Rattle.std.specs.Prelude.{◌≡◌, IfOk, vec_len};

use crate::made::{EMPTY, clocks_of, disk_of, words_of, workers_of};
use al_base::{MemSink, MemSource};
use al_serve::MemDoors;
use al_server::run_serve;
use std::alloc::{AllocError, Global};
use std::sync::Wait;
use std::test::Fail;
use std::thread::Threads;

/// The inputs of a door's connections, which of its calls fail, and all that is written to its connections.
#[derive(Clone, Copy)]
struct Door {
    inputs: &'static [&'static [u8]],
    fails: &'static [u64],
    answers: &'static [u8],
}

/// A run of `serve`: its words, the bytes of its disk and the number of the disk's call that fails, its doors, the number of the write that fails, its
/// status and its output.
#[derive(Clone, Copy)]
struct Row {
    words: &'static [&'static [u8]],
    journal: &'static [u8],
    disk_fault: u64,
    doors: &'static [Door],
    write_fault: u64,
    status: u8,
    output: &'static [u8],
}

/// A journal of capacity 4,096 with an entry at time 0, which is not later than the start.
const EARLY: &[u8] = b"\x01ALJ1\0\0\0\0\0\0\x10\0\x01\0\0\0\x0d\0\0\0\0\0\0\0\0\0\0\x03\0\x02\0";

const USAGE: &[u8] =
    b"usage: alarmd init JOURNAL CAPACITY / session JOURNAL / check JOURNAL / drill SEED COUNT / serve JOURNAL ADDRESS WORKERS CONNECTIONS\n";

const GET: &[u8] =
    b"GET /restconf/data/ietf-alarms:alarms/alarm-list/number-of-alarms HTTP/1.1\r\n\r\n";

/// What GET is answered while there is no entry.
const NONE: &[u8] =
    b"HTTP/1.1 200 OK\r\nAlarm-Place: 0\r\nContent-Length: 34\r\nContent-Type: application/yang-data+json\r\n\r\n{\"ietf-alarms:number-of-alarms\":0}";

const ONE_DOOR: &[Door] = &[Door {
    inputs: &[GET],
    fails: &[],
    answers: b"",
}];

const ROWS: [Row; 11] = [
    // A connection that is no request, one that ends inside a request, one with two changes, and one that isn't due.
    Row {
        words: &[b"serve", b"j", b"127.0.0.1:8080", b"1", b"3"],
        journal: EMPTY,
        disk_fault: 0,
        doors: &[Door {
            inputs: &[
                b"\0\r\n\r\nGET / HTTP/1.1\r\n\r\n",
                b"GET / HT",
                b"PUT /restconf/data/alarmd:inventory HTTP/1.1\r\nContent-Length: 224\r\n\r\n{\"alarmd:inventory\":{\"alarm-type\":[{\"alarm-type-id\":\"ex:link\",\"description\":\"Link\",\"ietf-alarms-x733:event-type\":\"communications-alarm\",\"will-clear\":true}],\"identity\":[{\"base\":\"ietf-alarms:alarm-type-id\",\"name\":\"ex:link\"}]}}POST /restconf/operations/alarmd:report HTTP/1.1\r\nContent-Length: 111\r\n\r\n{\"alarmd:input\":{\"alarm-text\":\"down\",\"alarm-type-id\":\"ex:link\",\"perceived-severity\":\"major\",\"resource\":\"eth1\"}}",
                GET,
            ],
            fails: &[],
            answers: b"HTTP/1.1 400 Bad Request\r\nConnection: close\r\nContent-Length: 122\r\nContent-Type: application/yang-data+json\r\n\r\n{\"ietf-restconf:errors\":{\"error\":[{\"error-message\":\"bad head\",\"error-tag\":\"malformed-message\",\"error-type\":\"transport\"}]}}HTTP/1.1 201 Created\r\nAlarm-Place: 0\r\nContent-Length: 0\r\n\r\nHTTP/1.1 204 No Content\r\nAlarm-Place: 1\r\n\r\n",
        }],
        write_fault: 0,
        status: 0,
        output: b"served 3 connections, 2 entries\n",
    },
    // The bytes behind a request that is last are left, and the next connection begins afresh.
    Row {
        words: &[b"serve", b"j", b"0.0.0.0:0", b"1", b"2"],
        journal: EMPTY,
        disk_fault: 0,
        doors: &[Door {
            inputs: &[
                b"GET /restconf/data/ietf-alarms:alarms/alarm-list/number-of-alarms HTTP/1.1\r\n\r\nGET /restconf/data/ietf-alarms:alarms/alarm-list/number-of-alarms HTTP/1.1\r\n\r\nGET /restconf/data/ietf-alarms:alarms/alarm-list/number-of-alarms HTTP/1.1\r\nConnection: close\r\n\r\nxyz",
                GET,
            ],
            fails: &[],
            answers: b"HTTP/1.1 200 OK\r\nAlarm-Place: 0\r\nContent-Length: 34\r\nContent-Type: application/yang-data+json\r\n\r\n{\"ietf-alarms:number-of-alarms\":0}HTTP/1.1 200 OK\r\nAlarm-Place: 0\r\nContent-Length: 34\r\nContent-Type: application/yang-data+json\r\n\r\n{\"ietf-alarms:number-of-alarms\":0}HTTP/1.1 200 OK\r\nAlarm-Place: 0\r\nConnection: close\r\nContent-Length: 34\r\nContent-Type: application/yang-data+json\r\n\r\n{\"ietf-alarms:number-of-alarms\":0}HTTP/1.1 200 OK\r\nAlarm-Place: 0\r\nContent-Length: 34\r\nContent-Type: application/yang-data+json\r\n\r\n{\"ietf-alarms:number-of-alarms\":0}",
        }],
        write_fault: 0,
        status: 0,
        output: b"served 2 connections, 0 entries\n",
    },
    // A disk that fails at the second call of a report's entry: the opening takes three calls, an inventory's entry four.
    Row {
        words: &[b"serve", b"j", b"0.0.0.0:0", b"1", b"1"],
        journal: EMPTY,
        disk_fault: 9,
        doors: &[Door {
            inputs: &[
                b"PUT /restconf/data/alarmd:inventory HTTP/1.1\r\nContent-Length: 224\r\n\r\n{\"alarmd:inventory\":{\"alarm-type\":[{\"alarm-type-id\":\"ex:link\",\"description\":\"Link\",\"ietf-alarms-x733:event-type\":\"communications-alarm\",\"will-clear\":true}],\"identity\":[{\"base\":\"ietf-alarms:alarm-type-id\",\"name\":\"ex:link\"}]}}POST /restconf/operations/alarmd:report HTTP/1.1\r\nContent-Length: 108\r\n\r\n{\"alarmd:input\":{\"alarm-text\":\"p\",\"alarm-type-id\":\"ex:link\",\"perceived-severity\":\"major\",\"resource\":\"eth1\"}}GET /restconf/data/ietf-alarms:alarms/alarm-list/number-of-alarms HTTP/1.1\r\n\r\n",
            ],
            fails: &[],
            answers: b"HTTP/1.1 201 Created\r\nAlarm-Place: 0\r\nContent-Length: 0\r\n\r\nHTTP/1.1 500 Internal Server Error\r\nAlarm-Place: 1\r\nContent-Length: 125\r\nContent-Type: application/yang-data+json\r\n\r\n{\"ietf-restconf:errors\":{\"error\":[{\"error-message\":\"disk fault\",\"error-tag\":\"operation-failed\",\"error-type\":\"application\"}]}}HTTP/1.1 200 OK\r\nAlarm-Place: 1\r\nContent-Length: 34\r\nContent-Type: application/yang-data+json\r\n\r\n{\"ietf-alarms:number-of-alarms\":0}",
        }],
        write_fault: 0,
        status: 0,
        output: b"served 1 connections, 1 entries\n",
    },
    // Two doors that come to their ends.
    Row {
        words: &[b"serve", b"j", b"0.0.0.0:0", b"2", b"5"],
        journal: EMPTY,
        disk_fault: 0,
        doors: &[
            Door {
                inputs: &[GET],
                fails: &[],
                answers: NONE,
            },
            Door {
                inputs: &[GET],
                fails: &[],
                answers: NONE,
            },
        ],
        write_fault: 0,
        status: 0,
        output: b"served 2 connections, 0 entries\n",
    },
    // A door whose first call fails.
    Row {
        words: &[b"serve", b"j", b"0.0.0.0:0", b"1", b"5"],
        journal: EMPTY,
        disk_fault: 0,
        doors: &[Door {
            inputs: &[GET],
            fails: &[1],
            answers: b"",
        }],
        write_fault: 0,
        status: 11,
        output: b"served 0 connections, 0 entries\n",
    },
    // One of two doors fails, and the other one is served.
    Row {
        words: &[b"serve", b"j", b"0.0.0.0:0", b"2", b"1"],
        journal: EMPTY,
        disk_fault: 0,
        doors: &[
            Door {
                inputs: &[GET],
                fails: &[1],
                answers: b"",
            },
            Door {
                inputs: &[GET],
                fails: &[],
                answers: NONE,
            },
        ],
        write_fault: 0,
        status: 11,
        output: b"served 1 connections, 0 entries\n",
    },
    // A line that is not written.
    Row {
        words: &[b"serve", b"j", b"0.0.0.0:0", b"1", b"1"],
        journal: EMPTY,
        disk_fault: 0,
        doors: &[Door {
            inputs: &[GET],
            fails: &[],
            answers: NONE,
        }],
        write_fault: 1,
        status: 7,
        output: b"",
    },
    // No journal.
    Row {
        words: &[b"serve", b"j", b"0.0.0.0:0", b"1", b"1"],
        journal: b"\x01ALJ1",
        disk_fault: 0,
        doors: ONE_DOOR,
        write_fault: 0,
        status: 3,
        output: b"not a journal\n",
    },
    // An invalid journal.
    Row {
        words: &[b"serve", b"j", b"0.0.0.0:0", b"1", b"1"],
        journal: EARLY,
        disk_fault: 0,
        doors: ONE_DOOR,
        write_fault: 0,
        status: 4,
        output: b"invalid at 0\n",
    },
    // A disk that fails at once.
    Row {
        words: &[b"serve", b"j", b"0.0.0.0:0", b"1", b"1"],
        journal: EMPTY,
        disk_fault: 1,
        doors: ONE_DOOR,
        write_fault: 0,
        status: 5,
        output: b"disk fault\n",
    },
    // A usage line that is not written.
    Row {
        words: &[b"serve", b"j"],
        journal: EMPTY,
        disk_fault: 0,
        doors: &[],
        write_fault: 1,
        status: 7,
        output: b"",
    },
];

/// Words that are no row of `serve`.
const NO_ROWS: [&[&[u8]]; 16] = [
    &[b"session", b"j"],
    &[b"serve", b"j", b"0.0.0.0:0", b"1"],
    &[b"serve", b"", b"0.0.0.0:0", b"1", b"1"],
    &[b"serve", b"j", b"0.0.0.0", b"1", b"1"],
    &[b"serve", b"j", b"0.0.0.0:", b"1", b"1"],
    &[b"serve", b"j", b"0.0.0.0:080", b"1", b"1"],
    &[b"serve", b"j", b"0.0.0.0:65536", b"1", b"1"],
    &[b"serve", b"j", b"0.0.0.00:80", b"1", b"1"],
    &[b"serve", b"j", b"256.0.0.0:80", b"1", b"1"],
    &[b"serve", b"j", b"[::1]:80", b"1", b"1"],
    &[b"serve", b"j", b"0.0.0.0:80", b"0", b"1"],
    &[b"serve", b"j", b"0.0.0.0:80", b"65", b"1"],
    &[b"serve", b"j", b"0.0.0.0:80", b"01", b"1"],
    &[b"serve", b"j", b"0.0.0.0:80", b"1", b"0"],
    &[b"serve", b"j", b"0.0.0.0:80", b"1", b"1000001"],
    &[b"serve", b"j", b"0.0.0.0:80", b"1", b"1", b"1"],
];

fn door_of(alloc: Global, door: &Door) -> Result<MemDoors<MemSource, MemSink>, AllocError> {
    let mut connections = Vec::new(alloc);
    for input in door.inputs {
        let source = MemSource::new(alloc, input, &[], &[])?;
        connections.push((source, MemSink::new(alloc, 4096, &[])?))?;
    }
    MemDoors::new(alloc, connections, door.fails)
}

/// The door of each of so many workers. Where the row has no further one it has no connection.
fn doors_of(
    alloc: Global,
    doors: &[Door],
    count: u16,
) -> Result<Vec<MemDoors<MemSource, MemSink>>, AllocError>
    ensures { IfOk result (λ made. vec_len made ≡ count) }
{
    let none = Door {
        inputs: &[],
        fails: &[],
        answers: b"",
    };
    let mut made = Vec::new(alloc);
    for i in 0..count {
        made.push(door_of(alloc, doors.get(usize::from(i)).unwrap_or(&none))?)?;
    }
    Ok(made)
}

/// Whether the connections of the door were answered so.
fn is_answered(door: &Door, made: &MemDoors<MemSource, MemSink>) -> bool {
    let mut rest = door.answers;
    for i in 0..door.inputs.len() {
        let Some((_, sink)) = made.finished(i) else {
            return rest.is_empty();
        };
        let Some(behind) = rest.strip_prefix(sink.bytes()) else {
            return false;
        };
        rest = behind;
    }
    rest.is_empty()
}

fn are_answered(doors: &[Door], made: &[MemDoors<MemSource, MemSink>]) -> bool {
    for (door, made) in doors.iter().zip(made) {
        if !is_answered(door, made) {
            return false;
        }
    }
    doors.len() == made.len()
}

/// Whether the program ends so, with clocks that read 0.
fn ends_so<R: Threads + Wait + Sync>(rt: &R, alloc: Global, row: &Row) -> Result<bool, AllocError> {
    let words = words_of(alloc, row.words)?;
    let workers = workers_of(words.as_slice());
    let disk = disk_of(alloc, row.journal, row.disk_fault)?;
    let mut sink = MemSink::new(alloc, 4096, &[row.write_fault])?;
    let (status, _, doors) = run_serve(
        rt,
        alloc,
        words.as_slice(),
        disk,
        doors_of(alloc, row.doors, workers)?,
        clocks_of(alloc, workers)?,
        &mut sink,
    );
    Ok(
        status == row.status
            && sink.bytes() == row.output
            && are_answered(row.doors, doors.as_slice()),
    )
}

#[test]
fn rows_end_as_they_do(rt: HostRuntime) -> Result<(), Fail> {
    for row in &ROWS {
        assert!(rt; ends_so(&rt, rt.alloc(), row)?);
    }
    Ok(())
}

#[test]
fn other_words_are_no_row(rt: HostRuntime) -> Result<(), Fail> {
    for words in &NO_ROWS {
        let row = Row {
            words,
            journal: EMPTY,
            disk_fault: 0,
            doors: &[],
            write_fault: 0,
            status: 2,
            output: USAGE,
        };
        assert!(rt; ends_so(&rt, rt.alloc(), &row)?);
    }
    Ok(())
}
