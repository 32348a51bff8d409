//! `drill`: made-up requests are answered over a journal in memory.

ghost use Rattle.std.specs.Prelude.{◌≡◌, ◌≢◌, ◌≤◌, ◌+◌, ◌++◌, [], false, IfOk, OnOk, if◌then◌else◌};
ghost use Rattle.al_base.specs.Outside.{Rose};
ghost use Rattle.al_commands.specs.Draws.{drill_texts};
ghost use Rattle.al_commands.specs.Drills.{Drills, Sends, SendsAll, SendsOne, drill_capacity, drill_lines, is_success, no_tally, tally_of};
ghost use Rattle.al_commands.specs.Lines.{counts_text, line_end};
ghost use Rattle.al_commands.specs.Statuses.{status_read_fault, status_write_fault};

use crate::answer::status_in;
use crate::draw::{Draws, install};
use crate::line::{Count, tell_counts};
use crate::status::{DONE, OUT_OF_MEMORY};
use al_base::{MemClock, MemSink, MemSource, Sink};
use al_disk::MemDisk;
use al_http::Framer;
use al_journal::birth;
use al_journal::laws::bytes_show_one_list;
use al_office::journaled::Office;
use al_restconf::Restconf;
use al_serve::{Cause, converse};
use al_turn::Alone;
use std::alloc::{AllocError, Global};
use std::marker::Model;

/// The room of the disk and the capacity of its journal.
const ROOM: usize = 16_777_216;

/// How many calls the disk takes.
const CALLS: usize = 100_000;

/// The room for an answer.
const ANSWER: usize = 4096;

/// The origin of the entries of a drill.
const ORIGIN: u16 = 0;

/// An office over a journal in memory, what it answers with, and how many answers were of success and how many not.
///
/// Contracts see the history and the two counts. It has no `Drop`: it is taken apart at its end.
struct Drill {
    turns: Alone<Office<MemDisk>>,
    restconf: Restconf,
    framer: Framer,
    ok: u64,
    refused: u64,
}

impl Model for Drill {
    ghost use Rattle.std.specs.Prelude.{◌≡◌, false};
    ghost use Rattle.al_commands.specs.Drills.{Tally, drill_capacity, tally_of};

    ghost Value = { Tally };

    ghost view = { λ d. tally_of d.turns.seen.entries d.ok d.refused };

    ghost invariant = { λ d. (d.turns.taken ≡ false)
        × (d.turns.seen.fixed.capacity ≡ drill_capacity) };
}

/// Answers so many requests that the seed gives, behind one that installs an inventory, and tells what came of them.
pub fn run_drill<O: Sink>(alloc: Global, seed: u64, count: u64, sink: &mut O) -> u8
    requires seed { seed ≤ 2147483647 }
    requires count { count ≤ 20000 }
    ensures drilled { Drills seed count (O.held sink.old) (O.held sink.new) result }
    ensures write_fault { result ≡ status_write_fault
        → Rose (O.faults sink.old) (O.faults sink.new) }
    ensures other { result ≢ status_read_fault }
    ensures later { O.faults sink.old ≤ O.faults sink.new }
{
    let Ok(mut drill) = Drill::new(alloc) else {
        return OUT_OF_MEMORY;
    };
    let sent = drill.send_all(alloc, seed, count);
    let counts = drill.into_counts(count);
    match sent {
        Ok(()) => tell_counts(sink, &counts, DONE),
        Err(AllocError) => OUT_OF_MEMORY,
    }
}

/// An office over a new journal in memory.
fn new_office(alloc: Global) -> Result<Office<MemDisk>, AllocError>
    ensures empty { IfOk result (λ office. office.entries ≡ []) }
    ensures capacity { IfOk result (λ office. office.fixed.capacity ≡ drill_capacity) }
{
    let mut disk = MemDisk::new(alloc, &[], ROOM, CALLS, &[])?;
    let Ok(()) = birth(&mut disk, ROOM as u64) else {
        return Err(AllocError);
    };
    bytes_show_one_list();
    match Office::open(alloc, disk) {
        Ok(office) => {
            office.keeps_its_history();
            Ok(office)
        }
        Err((_, _)) => Err(AllocError),
    }
}

/// Sends the text of a request to the office: the status of its answer.
///
/// # Errors
/// There was no memory, or the disk failed, or the text wasn't one request.
fn exchange(
    alloc: Global,
    turns: &mut Alone<Office<MemDisk>>,
    restconf: &mut Restconf,
    framer: &mut Framer,
    text: &[u8],
) -> Result<u16, AllocError>
    requires idle { turns.old.taken ≡ false }
    requires capacity { turns.old.seen.fixed.capacity ≡ drill_capacity }
    ensures sends { IfOk result (λ status.
        SendsOne text.now turns.old.seen.entries turns.new.seen.entries status) }
    ensures idle { turns.new.taken ≡ false }
    ensures fixed { turns.new.seen.fixed ≡ turns.old.seen.fixed }
{
    let mut source = MemSource::new(alloc, text, &[], &[])?;
    let mut sink = MemSink::new(alloc, ANSWER, &[])?;
    let mut clock = MemClock::new(alloc, &[])?;
    let ending = converse(
        turns,
        restconf,
        framer,
        ORIGIN,
        &mut source,
        &mut sink,
        &mut clock,
    );
    let Cause::Ended = ending.cause else {
        return Err(AllocError);
    };
    let status = status_in(sink.bytes());
    if ending.requests != 1 || status == 500 || status == 503 {
        return Err(AllocError);
    }
    Ok(status)
}

/// The counts of answers of success and of others, with an answer of this status.
fn counted(status: u16, ok: u64, refused: u64) -> (u64, u64)
    requires { ok + refused ≤ 20000 }
    ensures ok { result.0 ≡ (if is_success status then ok + 1 else ok) }
    ensures refused { result.1 ≡ (if is_success status then refused else refused + 1) }
    ensures one { result.0 + result.1 ≡ ok + refused + 1 }
{
    if status / 100 == 2 {
        (ok + 1, refused)
    } else {
        (ok, refused + 1)
    }
}

impl Drill {
    fn new(alloc: Global) -> Result<Drill, AllocError>
        ensures { IfOk result (λ drill. drill ≡ no_tally) }
    {
        let framer = Framer::new(alloc)?;
        let office = new_office(alloc)?;
        Ok(Drill {
            turns: Alone::new(office),
            restconf: Restconf::new(alloc),
            framer,
            ok: 0,
            refused: 0,
        })
    }

    /// Sends all requests of the drill, and counts their answers.
    fn send_all(&mut self, alloc: Global, seed: u64, count: u64) -> Result<(), AllocError>
        requires fresh { self.old ≡ no_tally }
        requires seed { seed ≤ 2147483647 }
        requires count { count ≤ 20000 }
        ensures { OnOk result (SendsAll (drill_texts seed count) no_tally self.new) }
    {
        let mut draws = Draws { number: seed };
        self.send(alloc, install())?;
        for sent in 0..count {
            let request = draws.request(alloc)?;
            self.send(alloc, request.as_bytes())?;
        }
        Ok(())
    }

    /// Sends the text of a request, and counts its answer. An answer of want of memory, or of a fault of the disk, ends the drill.
    fn send(&mut self, alloc: Global, text: &[u8]) -> Result<(), AllocError>
        requires { self.old.ok + self.old.refused ≤ 20000 }
        ensures sends { OnOk result (Sends text.now self.old self.new) }
        ensures counted { OnOk result (self.new.ok + self.new.refused
            ≡ self.old.ok + self.old.refused + 1) }
    {
        let status = exchange(
            alloc,
            &mut self.turns,
            &mut self.restconf,
            &mut self.framer,
            text,
        )?;
        let (ok, refused) = counted(status, self.ok, self.refused);
        self.ok = ok;
        self.refused = refused;
        Ok(())
    }

    /// What came of the requests, of which there were so many behind the first. It ends the drill.
    fn into_counts(self, count: u64) -> [Count; 8]
        requires { count ≤ 20000 }
        ensures { counts_text result ++ line_end ≡ drill_lines count self }
    {
        let Drill {
            turns,
            restconf: _,
            framer: _,
            ok,
            refused,
        } = self;
        let office = turns.into_inner();
        let counts = counts_of(&office, count, ok, refused);
        let _disk = office.into_disk();
        counts
    }
}

/// What there is in the journal, and what was counted.
fn counts_of(office: &Office<MemDisk>, count: u64, ok: u64, refused: u64) -> [Count; 8]
    requires { count ≤ 20000 }
    ensures { counts_text result ++ line_end
        ≡ drill_lines count (tally_of office.now.entries ok refused) }
{
    office.keeps_its_history();
    let tables = office.look();
    [
        Count {
            words: b"requests ",
            number: count + 1,
        },
        Count {
            words: b"\nok ",
            number: ok,
        },
        Count {
            words: b"\nrefused ",
            number: refused,
        },
        Count {
            words: b"\nentries ",
            number: office.len() as u64,
        },
        Count {
            words: b"\nalarms ",
            number: tables.alarms() as u64,
        },
        Count {
            words: b"\nshelved ",
            number: tables.shelved_count() as u64,
        },
        Count {
            words: b"\nnotes ",
            number: u64::from(tables.log().sent()),
        },
        Count {
            words: b"\nbytes ",
            number: office.journal().used(),
        },
    ]
}
