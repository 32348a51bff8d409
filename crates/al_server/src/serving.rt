//! `serve`: workers answer the connections of their doors over the history of a journal.

ghost use Rattle.std.specs.Prelude.{◌≡◌, ◌≢◌, ◌+◌, ◌++◌, ◌-◌, ◌<◌, ◌≤◌, ◌⊎◌, ◌^◌, [], IfErr, IfOk, OnErr, OnOk, length, map, vec_len};
ghost use Rattle.std.specs.Io.KnownBytes.{Appends};
ghost use Rattle.al_base.specs.Outside.{Rose};
ghost use Rattle.al_http.specs.Fronts.{AppendsFront};
ghost use Rattle.al_office.specs.Journaled.{journaled_mark};
ghost use Rattle.al_server.specs.Crews.{IsRoom};
ghost use Rattle.al_commands.specs.Lines.{Tells, usage_line};
ghost use Rattle.al_server.specs.ServeWords.{IsNoServe, IsServe};
ghost use Rattle.al_server.specs.Serving.{EndsShift, HasNotServed, HasServed, OneRose, served_line, status_by};
ghost use Rattle.al_commands.specs.Statuses.{status_bad_words, status_door_fault, status_write_fault};
ghost use Rattle.al_server.specs.declared.serve_words.ServeWords.{ServeWords};

use crate::crew::{Room, Served, all_passes, dismiss, hire};
use crate::serve_words::ServeWords;
use al_base::{Clock, Sink, Text, WriteFault};
use al_commands::checking::tell_fault;
use al_commands::line::{Count, write_count};
use al_commands::program::refuse_words;
use al_commands::status::{DONE, DOOR_FAULT, OUT_OF_MEMORY, SINK_FAULT};
use al_disk::Disk;
use al_http::write_all;
use al_office::journaled::Office;
use al_serve::{Doors, work_all};
use al_turn::Turnstile;
use std::alloc::Global;
use std::collections::VecDeque;
use std::sync::Wait;
use std::thread::Threads;

/// What all workers leave: the office, the doors in order, and what was served.
struct Shift<D: Disk, N: Doors> {
    office: Office<D>,
    doors: Vec<N>,
    served: Served,
}

/// Serves the doors over the history of the journal on the disk where the words ask for it, each by a worker of its own with its clock, and tells how many
/// connections and entries there were. It answers the status, and hands the disk and the doors back in their order.
///
/// All memory of its own is taken before the journal is opened or a connection comes.
pub fn run_serve<
    R: Threads + Wait + Sync,
    D: Disk + Send,
    N: Doors + Send,
    K: Clock + Send,
    O: Sink,
>(
    rt: &R,
    alloc: Global,
    words: &[Text],
    disk: D,
    doors: Vec<N>,
    clocks: Vec<K>,
    sink: &mut O,
) -> (u8, D, Vec<N>)
where
    N::In: Send,
    N::Out: Send,
    requires doors { (serve : ServeWords) → IsServe words.now serve
        → vec_len doors ≡ serve.workers }
    requires clocks { (serve : ServeWords) → IsServe words.now serve
        → vec_len clocks ≡ serve.workers }
    ensures usage { IsNoServe words.now
        → Tells usage_line status_bad_words (O.held sink.old) (O.held sink.new) result.0
        × (result.1 ≡ disk) × (result.2 ≡ doors) }
    ensures serve { (serve : ServeWords) → IsServe words.now serve →
        (HasNotServed (record {
          old_disk = D.told disk;
          new_disk = D.told result.1;
          old_faults = D.faults disk;
          new_faults = D.faults result.1;
        }) (O.held sink.old)
        (O.held sink.new) result.0 × (result.2 ≡ doors))
        ⊎ HasServed serve.connections (record {
          old_doors = map N.state doors.items;
          new_doors = map N.state result.2.items;
          clocks = map K.readings clocks.items;
        })
        (record {
          old_disk = D.told disk;
          new_disk = D.told result.1;
          old_faults = D.faults disk;
          new_faults = D.faults result.1;
        }) (O.held sink.old) (O.held sink.new) result.0 }
    ensures write_fault { result.0 ≡ status_write_fault
        → Rose (O.faults sink.old) (O.faults sink.new) }
    ensures door_fault { result.0 ≡ status_door_fault
        → OneRose (map N.state doors.items) (map N.state result.2.items) }
    ensures later_sink { O.faults sink.old ≤ O.faults sink.new }
    ensures later_disk { D.faults disk ≤ D.faults result.1 }
{
    let Some(serve) = ServeWords::of(words) else {
        return (refuse_words(sink), disk, doors);
    };
    let Ok(room) = Room::new(alloc, usize::from(serve.workers)) else {
        return (OUT_OF_MEMORY, disk, doors);
    };
    let office = match Office::open(alloc, disk) {
        Ok(office) => office,
        Err((disk, fault)) => return (tell_fault(sink, fault), disk, doors),
    };
    office.keeps_its_history();
    let before = office.len() as u64;
    match serve_all(rt, alloc, office, serve.connections, room, doors, clocks) {
        Ok(shift) => {
            shift.office.keeps_its_history();
            conclude(sink, before, shift)
        }
        Err((office, doors)) => (OUT_OF_MEMORY, office.into_disk(), doors),
    }
}

/// Serves the doors over the office, each by a worker of its own.
///
/// # Errors
/// There was no memory for the turnstile: the office and the doors come back.
fn serve_all<R: Threads + Wait + Sync, D: Disk + Send, N: Doors + Send, K: Clock + Send>(
    rt: &R,
    alloc: Global,
    office: Office<D>,
    connections: u64,
    room: Room<Office<D>, N, K>,
    doors: Vec<N>,
    clocks: Vec<K>,
) -> Result<Shift<D, N>, (Office<D>, Vec<N>)>
where
    N::In: Send,
    N::Out: Send,
    requires some { (0 < vec_len doors) × (vec_len doors < 65) }
    requires clocks { vec_len clocks ≡ vec_len doors }
    requires room { IsRoom (vec_len doors) room }
    requires connections { connections ≤ 1000000 }
    ensures ok { IfOk result (λ shift.
        EndsShift connections (record {
          old_doors = map N.state doors.items;
          new_doors = map N.state shift.doors.items;
          clocks = map K.readings clocks.items;
        })
        (journaled_mark (D.faults office.journal.disk) office)
        (journaled_mark (D.faults shift.office.journal.disk) shift.office)
        shift.served.connections shift.served.faulted) }
    ensures err { IfErr result (λ back. (back.0 ≡ office) × (back.1 ≡ doors)) }
{
    let Room {
        workers,
        passes,
        framers,
    } = room;
    let (turnstile, first) = match Turnstile::new(alloc, office) {
        Ok(made) => made,
        Err((office, _)) => return Err((office, doors)),
    };
    let mut passes = all_passes(&turnstile, first, doors.len(), passes);
    let mut doors = VecDeque::from_vec(doors);
    let clocks = VecDeque::from_vec(clocks);
    let mut workers = hire(
        alloc,
        connections,
        &mut passes,
        &mut doors,
        clocks,
        framers,
        workers,
    );
    work_all(rt, &turnstile, workers.as_mut_slice());
    let served = dismiss(workers, &mut passes, &mut doors);
    Ok(Shift {
        office: turnstile.close(passes.into_vec()),
        doors: doors.into_vec(),
        served,
    })
}

/// Tells what was served, and gives back the disk and the doors.
fn conclude<D: Disk, N: Doors, O: Sink>(
    sink: &mut O,
    before: u64,
    shift: Shift<D, N>,
) -> (u8, D, Vec<N>)
    requires { before ≤ length shift.office.entries }
    ensures told { Tells (served_line shift.served.connections (length shift.office.entries
        - before)) (status_by shift.served.faulted) (O.held sink.old) (O.held sink.new) result.0 }
    ensures disk { result.1 ≡ shift.office.journal.disk }
    ensures doors { result.2 ≡ shift.doors }
    ensures write_fault { result.0 ≡ status_write_fault
        → Rose (O.faults sink.old) (O.faults sink.new) }
    ensures later { O.faults sink.old ≤ O.faults sink.new }
{
    let Shift {
        office,
        doors,
        served,
    } = shift;
    let entries = office.len() as u64 - before;
    let done = status_by(served.faulted);
    let status = tell_served(sink, served.connections, entries, done);
    (status, office.into_disk(), doors)
}

/// The status of the work, by whether a door failed.
fn status_by(failed: bool) -> u8
    ensures { result ≡ status_by failed }
{
    if failed { DOOR_FAULT } else { DONE }
}

/// Tells what was served. The status is the given one, or that of a fault of the sink.
fn tell_served<O: Sink>(sink: &mut O, connections: u64, entries: u64, done: u8) -> u8
    ensures told { Tells (served_line connections entries) done (O.held sink.old) (O.held sink.new)
        result }
    ensures write_fault { result ≢ done → Rose (O.faults sink.old) (O.faults sink.new) }
    ensures later { O.faults sink.old ≤ O.faults sink.new }
{
    match write_served(sink, connections, entries) {
        Ok(()) => done,
        Err(WriteFault) => SINK_FAULT,
    }
}

fn write_served<O: Sink>(sink: &mut O, connections: u64, entries: u64) -> Result<(), WriteFault>
    ensures ok { OnOk result (Appends (O.held sink.old) (O.held sink.new)
        (served_line connections entries)) }
    ensures fault { OnErr result
        (AppendsFront (O.held sink.old) (O.held sink.new) (served_line connections entries)) }
    ensures later { O.faults sink.old ≤ O.faults sink.new }
    ensures cause { OnErr result (Rose (O.faults sink.old) (O.faults sink.new)) }
{
    let connections = Count {
        words: b"served ",
        number: connections,
    };
    let entries = Count {
        words: b" connections, ",
        number: entries,
    };
    write_count(sink, &connections)?;
    write_count(sink, &entries)?;
    write_all(sink, b" entries\n")
}
