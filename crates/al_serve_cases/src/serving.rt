//! Connections that workers serve.

ghost use Rattle.al_serve.specs.Workers.{IsReady, work_of};
ghost use Rattle.al_http.specs.Streams.{request_limit};
ghost use Rattle.std.specs.Prelude.{◌≡◌, ◌≤◌, ◌*◌, All, Some, IfOk, vec_len};

use crate::gated::{Count, CountedSink, GatedSource, Piece};
use crate::tally::{Adder, Tally};
use al_base::{MemClock, MemSink, MemSource};
use al_http::Framer;
use al_model::Kept;
use al_serve::{Cause, Doors, MemDoors, Worker, converse, work, work_all};
use al_turn::{Alone, Pass, Turnstile};
use std::alloc::Global;
use std::sync::atomic::AtomicU64;
use std::sync::{Arc, Wait};
use std::test::Fail;

const POST: &[u8] = b"POST / HTTP/1.1\r\nContent-Length: 0\r\n\r\n";

/// A worker of so many connections that has done nothing yet.
fn worker<N: Doors>(
    alloc: Global,
    turnstile: &Turnstile<Tally>,
    pass: Pass<Tally>,
    origin: u16,
    door: N,
    connections: u64,
) -> Result<Worker<Tally, N, Adder, MemClock>, Fail>
    requires table { pass.table ≡ turnstile.now.table }
    requires number { pass.view.number ≡ origin }
    requires turns { request_limit * connections ≤ pass.view.left }
    ensures { IfOk result (λ w. IsReady turnstile.now (work_of N.state (λ c. Some c) w)) }
{
    Ok(Worker {
        pass: Some(pass),
        origin,
        door,
        service: Adder,
        framer: Framer::new(alloc)?,
        clock: MemClock::new(alloc, &[])?,
        connections,
        served: 0,
        added: 0,
        faulted: false,
    })
}

/// Two workers that are ready.
fn both<N: Doors>(
    alloc: Global,
    turnstile: &Turnstile<Tally>,
    first: Worker<Tally, N, Adder, MemClock>,
    second: Worker<Tally, N, Adder, MemClock>,
) -> Result<Vec<Worker<Tally, N, Adder, MemClock>>, Fail>
    requires first { IsReady turnstile.now (work_of N.state (λ c. Some c) first) }
    requires second { IsReady turnstile.now (work_of N.state (λ c. Some c) second) }
    ensures len { IfOk result (λ workers. vec_len workers ≡ 2) }
    ensures ready { IfOk result (λ workers.
        All (λ w. IsReady turnstile.now (work_of N.state (λ c. Some c) w)) workers.items) }
{
    let mut workers = Vec::new(alloc);
    workers.push(first)?;
    workers.push(second)?;
    Ok(workers)
}

/// A door with one connection, which waits for the writes of the other one.
fn gated_door(
    alloc: Global,
    pieces: &[Piece],
    others: &Count,
    writes: &Count,
) -> Result<MemDoors<GatedSource, CountedSink>, Fail> {
    let source = GatedSource::new(alloc, pieces, others)?;
    let sink = CountedSink::new(alloc, writes)?;
    Ok(MemDoors::new(alloc, vec![in alloc; (source, sink)]?, &[])?)
}

#[test]
fn two_workers_wait_for_each_other(rt: HostRuntime) -> Result<(), Fail> {
    let alloc = rt.alloc();
    let Ok((turnstile, first)) = Turnstile::new(alloc, Tally::new(alloc)) else {
        panic!(rt; "there was no memory for the turnstile")
    };
    let (first, second) = turnstile.split(first);
    let first_writes = Arc::new(alloc, AtomicU64::new(0))?;
    let second_writes = Arc::new(alloc, AtomicU64::new(0))?;
    let first_door = gated_door(
        alloc,
        &[(0, POST), (1, POST)],
        &second_writes,
        &first_writes,
    )?;
    let second_door = gated_door(alloc, &[(1, POST)], &first_writes, &second_writes)?;
    let first = worker(alloc, &turnstile, first, 1, first_door, 1)?;
    let second = worker(alloc, &turnstile, second, 2, second_door, 1)?;
    let mut workers = both(alloc, &turnstile, first, second)?;
    work_all(&rt, &turnstile, workers.as_mut_slice());
    assert_eq!(rt; (workers[0].served, workers[0].added), (1, 2));
    assert_eq!(rt; (workers[1].served, workers[1].added), (1, 1));
    Ok(())
}

/// Inputs of the connections of a door, each with the number of its read that fails, 0 for none; which of the door's calls fail; what is served and added,
/// whether the door fails; and what is written, one output after the other.
type Case = (
    &'static [(&'static [u8], u64)],
    &'static [u64],
    (u64, u64, bool),
    &'static [u8],
);

/// Each worker has at most three connections.
const CASES: &[Case] = &[
    // The bytes behind a request that is last are left, and the next connection begins afresh.
    (
        &[
            (
                b"GET / HTTP/1.1\r\n\r\nGET / HTTP/1.1\r\nConnection: close\r\n\r\nxyz",
                0,
            ),
            (b"GET / HTTP/1.1\r\n\r\n", 0),
        ],
        &[],
        (2, 0, false),
        b"HTTP/1.1 204 No Content\r\nAlarm-Place: 0\r\n\r\nHTTP/1.1 204 No Content\r\nAlarm-Place: 0\r\nConnection: close\r\n\r\nHTTP/1.1 204 No Content\r\nAlarm-Place: 0\r\n\r\n",
    ),
    // An input that ends in garbage ends its own connection alone.
    (
        &[
            (b"GET / HT", 0),
            (b"POST / HTTP/1.1\r\nContent-Length: 0\r\n\r\n", 0),
            (b"GET / HTTP/1.1\r\n\r\n", 0),
            (b"GET / HTTP/1.1\r\n\r\n", 0),
        ],
        &[],
        (3, 1, false),
        b"HTTP/1.1 204 No Content\r\nAlarm-Place: 0\r\n\r\nHTTP/1.1 204 No Content\r\nAlarm-Place: 1\r\n\r\n",
    ),
    // A first read that fails ends its own connection alone, and nothing of it is answered.
    (
        &[
            (b"POST / HTTP/1.1\r\nContent-Length: 0\r\n\r\n", 1),
            (b"GET / HTTP/1.1\r\n\r\n", 0),
        ],
        &[],
        (2, 0, false),
        b"HTTP/1.1 204 No Content\r\nAlarm-Place: 0\r\n\r\n",
    ),
    // A door that fails at its second call.
    (
        &[
            (b"GET / HTTP/1.1\r\n\r\n", 0),
            (b"GET / HTTP/1.1\r\n\r\n", 0),
        ],
        &[2],
        (1, 0, true),
        b"HTTP/1.1 204 No Content\r\nAlarm-Place: 0\r\n\r\n",
    ),
    (&[], &[], (0, 0, false), b""),
    (&[(b"GET / HTTP/1.1\r\n\r\n", 0)], &[1], (0, 0, true), b""),
];

/// What a worker of three connections does with a door of these inputs, and all that it writes.
fn serve_one<R: Wait>(
    rt: &R,
    alloc: Global,
    inputs: &[(&[u8], u64)],
    fails: &[u64],
) -> Result<((u64, u64, bool), Vec<u8>), Fail> {
    let mut connections = Vec::new(alloc);
    for (input, failing) in inputs {
        let source = MemSource::new(alloc, input, &[], &[*failing])?;
        connections.push((source, MemSink::new(alloc, 1_000, &[])?))?;
    }
    let door = MemDoors::new(alloc, connections, fails)?;
    let (turnstile, pass) = match Turnstile::new(alloc, Tally::new(alloc)) {
        Ok(made) => made,
        Err((_, fault)) => return Err(Fail::from(fault)),
    };
    let mut worker = worker(alloc, &turnstile, pass, 1, door, 3)?;
    work(rt, &turnstile, &mut worker);
    let mut written = Vec::new(alloc);
    for i in 0..3 {
        if let Some((_, sink)) = worker.door.finished(i) {
            written.extend_from_slice(sink.bytes())?;
        }
    }
    Ok(((worker.served, worker.added, worker.faulted), written))
}

#[test]
fn one_worker_serves_its_door(rt: HostRuntime) -> Result<(), Fail> {
    for (inputs, fails, done, written) in CASES {
        let (did, wrote) = serve_one(&rt, rt.alloc(), inputs, fails)?;
        assert_eq!(rt; did, *done);
        assert_eq!(rt; wrote.as_slice(), *written);
    }
    Ok(())
}

#[test]
fn one_owner_converses(rt: HostRuntime) -> Result<(), Fail> {
    let alloc = rt.alloc();
    let mut alone = Alone::new(Tally::new(alloc));
    let mut framer = Framer::new(alloc)?;
    let input = b"POST / HTTP/1.1\r\nContent-Length: 0\r\n\r\nGET / HTTP/1.1\r\n\r\nGET / HT";
    let mut source = MemSource::new(alloc, input.as_slice(), &[], &[])?;
    let mut sink = MemSink::new(alloc, 1_000, &[])?;
    let mut clock = MemClock::new(alloc, &[])?;
    let ending = converse(
        &mut alone,
        &mut Adder,
        &mut framer,
        0,
        &mut source,
        &mut sink,
        &mut clock,
    );
    assert_eq!(rt;
        (ending.cause, ending.requests, ending.entries),
        (Cause::Cut, 2, 1)
    );
    assert_eq!(rt; alone.into_inner().entries(), 1);
    Ok(())
}
