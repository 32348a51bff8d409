//! The workers of a server: how they are made, and what they leave.

ghost use Rattle.std.specs.Prelude.{◌≡◌, ◌<◌, ◌≤◌, ◌^◌, [], IfOk, map, vec_capacity, vec_len};
ghost use Rattle.std.specs.VecDeque.{deque_capacity, deque_len};
ghost use Rattle.al_serve.specs.Workers.{work_of};
ghost use Rattle.al_turn.specs.Views.{first_view};
ghost use Rattle.al_server.specs.Crews.{AreDismissed, AreHired, ArePasses, HavePasses, IsRoom, served_of};

use al_base::Clock;
use al_http::Framer;
use al_model::Kept;
use al_restconf::Restconf;
use al_serve::{Doors, Worker};
use al_turn::{Pass, Turnstile};
use std::alloc::{AllocError, Global};
use std::collections::VecDeque;

/// The room for workers and their passes, and their framers: all the memory that serving takes before a connection comes.
#[derive(Drop)]
pub(crate) struct Room<T, N, K> {
    pub workers: Vec<Worker<T, N, Restconf, K>>,
    pub passes: VecDeque<Pass<T>>,
    pub framers: Vec<Framer>,
}

/// How many connections the workers have served, and whether one of their doors failed.
#[derive(Clone, Copy)]
pub(crate) struct Served {
    pub connections: u64,
    pub faulted: bool,
}

impl<T: Kept, N: Doors, K: Clock> Room<T, N, K> {
    /// The room for so many workers.
    pub fn new(alloc: Global, count: usize) -> Result<Room<T, N, K>, AllocError>
        ensures { IfOk result (λ room. IsRoom count room) }
    {
        let workers = Vec::with_capacity(alloc, count)?;
        let passes = VecDeque::with_capacity(alloc, count)?;
        let mut framers = Vec::with_capacity(alloc, count)?;
        for _ in 0..count {
            framers.push_reserved(Framer::new(alloc)?);
        }
        Ok(Room {
            workers,
            passes,
            framers,
        })
    }
}

/// All passes of the turnstile, by the first one.
pub(crate) fn all_passes<T: Kept>(
    turnstile: &Turnstile<T>,
    mut first: Pass<T>,
    count: usize,
    mut passes: VecDeque<Pass<T>>,
) -> VecDeque<Pass<T>>
    requires first { (first.table ≡ turnstile.now.table)
        × (first.view ≡ first_view turnstile.now.start) }
    requires few { (0 < count) × (count < 65536) }
    requires room { (passes.items ≡ []) × (count ≤ deque_capacity passes) }
    ensures all { ArePasses turnstile.now count result.items }
    ensures len { deque_len result ≡ count }
{
    for _ in 1..count {
        let (kept, next) = turnstile.split(first);
        first = kept;
        passes.push_back_reserved(next);
    }
    passes.push_front_reserved(first);
    passes
}

/// Makes a worker for each of the passes, with its door, its clock and its number as origin.
pub(crate) fn hire<T: Kept, N: Doors, K: Clock>(
    alloc: Global,
    connections: u64,
    passes: &mut VecDeque<Pass<T>>,
    doors: &mut VecDeque<N>,
    mut clocks: VecDeque<K>,
    mut framers: Vec<Framer>,
    mut workers: Vec<Worker<T, N, Restconf, K>>,
) -> Vec<Worker<T, N, Restconf, K>>
    requires few { deque_len passes.old < 65536 }
    requires doors { deque_len doors.old ≡ deque_len passes.old }
    requires clocks { deque_len clocks ≡ deque_len passes.old }
    requires framers { vec_len framers ≡ deque_len passes.old }
    requires room { (workers.items ≡ []) × (deque_len passes.old ≤ vec_capacity workers) }
    ensures hired { AreHired connections passes.old.items (map N.state doors.old.items)
        (map K.readings clocks.items) (map (work_of N.state K.readings) result.items) }
    ensures len { vec_len result ≡ deque_len passes.old }
    ensures passes { (passes.new.items ≡ [])
        × (deque_capacity passes.new ≡ deque_capacity passes.old) }
    ensures doors { (doors.new.items ≡ []) × (deque_capacity doors.new ≡ deque_capacity doors.old) }
{
    let mut origin = 0;
    while let Some(pass) = passes.pop_front() {
        origin += 1;
        let worker = Worker {
            pass: Some(pass),
            origin,
            door: doors.pop_front().unwrap(),
            service: Restconf::new(alloc),
            framer: framers.take_last(),
            clock: clocks.pop_front().unwrap(),
            connections,
            served: 0,
            added: 0,
            faulted: false,
        };
        workers.push_reserved(worker);
    }
    workers
}

/// Takes the passes and doors out of the workers, in order.
pub(crate) fn dismiss<T: Kept, N: Doors, V: Drop, K: Clock>(
    workers: Vec<Worker<T, N, V, K>>,
    passes: &mut VecDeque<Pass<T>>,
    doors: &mut VecDeque<N>,
) -> Served
    requires have { HavePasses (map (work_of N.state K.readings) workers.items) }
    requires few { served_of (map (work_of N.state K.readings) workers.items) < 2 ^ 64 }
    requires passes { (passes.old.items ≡ []) × (vec_len workers ≤ deque_capacity passes.old) }
    requires doors { (doors.old.items ≡ []) × (vec_len workers ≤ deque_capacity doors.old) }
    ensures { AreDismissed (map (work_of N.state K.readings) workers.items) passes.new.items
        (map N.state doors.new.items) result.connections result.faulted }
{
    let mut workers = VecDeque::from_vec(workers);
    let mut connections = 0;
    let mut faulted = false;
    while let Some(worker) = workers.pop_front() {
        let Worker {
            pass,
            origin: _,
            door,
            service: _,
            framer: _,
            clock: _,
            connections: _,
            served,
            added: _,
            faulted: failed,
        } = worker;
        passes.push_back_reserved(pass.unwrap());
        doors.push_back_reserved(door);
        connections += served;
        faulted |= failed;
    }
    Served {
        connections,
        faulted,
    }
}
