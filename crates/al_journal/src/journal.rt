//! The journal: payloads behind gates, of which the last is shut.

ghost use Rattle.std.specs.Prelude.{◌≡◌, ◌<◌, ◌≤◌, ◌+◌, ℕ, List, true, false, length, take, Ok, Err, IsOk, IfOk, IfErr, MatchResult, OnErr, ◌↔◌};
ghost use Rattle.al_base.specs.Outside.{Rose};
ghost use Rattle.al_disk.specs.States.{Told, Goes};
ghost use Rattle.al_journal.specs.Format.{IsCapacity, gate_of};
ghost use Rattle.al_journal.specs.Images.{Shows};
ghost use Rattle.al_journal.specs.Walks.{Opens, Refuses, LeavesAsBefore, IsNext};
ghost use Rattle.al_journal.specs.Views.{Stands, InDoubt};
ghost use Rattle.al_journal.specs.Calls.{Commits, Settles};

use crate::block::Block;
use crate::durable::write_durably;
use crate::faults::{CommitFault, OpenFault};
use crate::record::Record;
use crate::walking::{FIRST_GATE, Opened, Step, find, read_frame};
use al_disk::Disk;
use std::alloc::Global;
use std::marker::Model;

/// A journal on its disk.
#[derive(Drop)]
pub struct Journal<D: Disk> {
    disk: D,
    block: Block,
    capacity: u64,
    gate: u64,
    next: u64,
    count: u64,
    doubt: bool,
}

impl<D: Disk> Model for Journal<D> {
    ghost use Rattle.std.specs.Prelude.{◌≡◌, ◌<◌, ◌≤◌};
    ghost use Rattle.al_disk.specs.States.{Told};
    ghost use Rattle.al_journal.specs.Blocks.{Holds};
    ghost use Rattle.al_journal.specs.Format.{IsCapacity};
    ghost use Rattle.al_journal.specs.Views.{JournalView};

    ghost Value = { JournalView D };

    ghost view = { λ j. record {
      disk = j.disk;
      capacity = j.capacity;
      gate = j.gate;
      next = j.next;
      count = j.count;
      doubt = j.doubt;
    } };

    ghost invariant = { λ j. Told (D.told j.disk) (λ s. Holds j.block s.content)
        × IsCapacity j.capacity × (j.gate < j.capacity) × (j.next < j.capacity)
        × (j.count ≤ j.next) };
}

impl<D: Disk> Journal<D> {
    /// Opens the journal that a disk has. It takes memory for a block, syncs, asks the size, reads the birth and walks over the lengths to the shut
    /// gate. `NotAJournal` comes exactly where the disk begins with no whole birth, `TornLength` exactly where its walk ends so. The disk comes back.
    pub fn open(alloc: Global, disk: D) -> Result<Journal<D>, (D, OpenFault)>
        ensures opens { IfOk result (λ journal.
            Goes (λ s t. Opens journal.capacity journal.gate s t) (D.told disk)
            (D.told journal.disk)) }
        ensures allowed { IfOk result (λ journal. IsCapacity journal.capacity
            × (journal.gate < journal.capacity)) }
        ensures start { IfOk result (λ journal. (journal.next ≡ 13) × (journal.count ≡ 0)
            × (journal.doubt ≡ false)) }
        ensures refuses { IfErr result (λ refusal.
            Goes (λ s t. Refuses refusal.1 s t) (D.told disk) (D.told refusal.0)) }
        ensures moments { MatchResult result (λ journal.
            Goes LeavesAsBefore (D.told disk) (D.told journal.disk)) (λ refusal.
            Goes LeavesAsBefore (D.told disk) (D.told refusal.0)) }
        ensures untouched { IfErr result (λ refusal. refusal.1 ≡ OpenFault.Memory
            → refusal.0 ≡ disk) }
        ensures later { MatchResult result (λ journal.
            D.faults disk ≤ D.faults journal.disk) (λ refusal. D.faults disk ≤ D.faults refusal.0) }
        ensures cause { IfErr result (λ refusal. refusal.1 ≡ OpenFault.Disk
            → Rose (D.faults disk) (D.faults refusal.0)) }
    {
        let Ok(mut block) = Block::new(alloc) else {
            return Err((disk, OpenFault::Memory));
        };
        let mut disk = disk;
        match find(&mut disk, &mut block) {
            Ok(Opened { capacity, gate }) => Ok(Journal {
                disk,
                block,
                capacity,
                gate,
                next: FIRST_GATE,
                count: 0,
                doubt: false,
            }),
            Err(fault) => Err((disk, fault)),
        }
    }

    /// Reads the next payload of the walk into `buf`; false at the shut gate, which ends the walk.
    /// `TornLength` comes only where a disk that tells nothing gives other bytes than it gave at opening.
    pub fn next(&mut self, buf: &mut Vec<u8>) -> Result<bool, OpenFault>
        ensures next { Told (D.told self.old.disk) (λ s. (payloads : List (List ℕ)) (count : ℕ)
            → Shows self.old.capacity payloads s.content → count ≤ length payloads
            → self.old.next ≡ gate_of (take count payloads)
            → IsNext payloads count self.old.next result buf.new.items self.new.next) }
        ensures more { result ≡ Ok true
            → self.new ≡ record self.old {
              disk = self.new.disk;
              next = self.old.next + 5 + length buf.new.items;
              count = self.old.count + 1;
            } }
        ensures end { result ≡ Ok false
            → self.new ≡ record self.old { disk = self.new.disk; gate = self.old.next } }
        ensures refused { OnErr result (self.new ≡ record self.old { disk = self.new.disk }) }
        ensures torn { (count : ℕ) → result ≡ Err (OpenFault.TornLength count)
            → count ≡ self.old.count }
        ensures no_birth { result ≡ Err OpenFault.NotAJournal → ⊥ }
        ensures room { self.new.next < self.new.capacity }
        ensures same { D.told self.new.disk ≡ D.told self.old.disk }
        ensures later { D.faults self.old.disk ≤ D.faults self.new.disk }
        ensures cause { result ≡ Err OpenFault.Disk
            → Rose (D.faults self.old.disk) (D.faults self.new.disk) }
    {
        match read_frame(
            &mut self.disk,
            &mut self.block,
            self.next,
            self.capacity,
            buf,
        )? {
            Step::Closed => {
                self.gate = self.next;
                Ok(false)
            }
            Step::Whole(len) => {
                self.next += len + 5;
                self.count += 1;
                Ok(true)
            }
            Step::Cut => Err(OpenFault::TornLength(self.count)),
        }
    }

    /// Adds a payload behind the others. It writes the record behind the gate, syncs, opens the gate and syncs.
    /// After a fault in the first two calls of the disk the payloads are as they were; after one in the last two the journal is in doubt.
    pub fn commit(&mut self, piece: &Record) -> Result<(), CommitFault>
        requires sure { self.old.doubt ≡ false }
        requires walked { self.old.next ≡ self.old.gate }
        requires stands { Told (D.told self.old.disk) (λ s. (payloads : List (List ℕ))
            × Stands self.old.capacity self.old.gate payloads s) }
        ensures leaves { Goes (λ s t. (payloads : List (List ℕ))
            → Stands self.old.capacity self.old.gate payloads s
            → Commits self.old.capacity self.old.gate piece.now result self.new.doubt payloads s t)
            (D.told self.old.disk) (D.told self.new.disk) }
        ensures ok { result ≡ Ok tt → (self.new.gate ≡ self.old.gate + 5 + length piece.now)
            × (self.new.doubt ≡ false) }
        ensures refused { OnErr result (self.new.gate ≡ self.old.gate) }
        ensures full { (result ≡ Err CommitFault.Full)
            ↔ (self.old.capacity < self.old.gate + 6 + length piece.now) }
        ensures untouched { result ≡ Err CommitFault.Full → self.new ≡ self.old }
        ensures walked { self.new.next ≡ self.new.gate }
        ensures capacity { self.new.capacity ≡ self.old.capacity }
        ensures later { D.faults self.old.disk ≤ D.faults self.new.disk }
        ensures cause { result ≡ Err CommitFault.Disk
            → Rose (D.faults self.old.disk) (D.faults self.new.disk) }
    {
        let end = self.gate + 5 + piece.payload_len();
        if end >= self.capacity {
            return Err(CommitFault::Full);
        }
        let bytes = piece.piece();
        self.block.forget();
        // The gate is opened only when the record, and with it the closed gate behind, is on the disk
        // for sure: a crash in between leaves the gate closed, and so the payloads as they were.
        write_durably(&mut self.disk, self.gate + 1, bytes)?;
        // From here on a fault leaves the gate open or closed, and the disk alone could tell.
        self.doubt = true;
        write_durably(&mut self.disk, self.gate, &[1])?;
        self.doubt = false;
        self.gate = end;
        self.next = end;
        Ok(())
    }

    /// Ends a doubt: shuts the gate and syncs. Without a doubt it does nothing.
    pub fn settle(&mut self) -> Result<(), CommitFault>
        requires { self.old.doubt ≡ true
            → Told (D.told self.old.disk) (λ s. (payloads : List (List ℕ)) × (payload : List ℕ)
            × InDoubt self.old.capacity self.old.gate payloads payload s) }
        ensures leaves { self.old.doubt ≡ true
            → Goes (λ s t. (payloads : List (List ℕ)) (payload : List ℕ)
            → InDoubt self.old.capacity self.old.gate payloads payload s
            → Settles self.old.capacity self.old.gate result self.new.doubt payloads payload s t)
            (D.told self.old.disk) (D.told self.new.disk) }
        ensures idle { self.old.doubt ≡ false → IsOk result × (self.new ≡ self.old) }
        ensures ok { result ≡ Ok tt → self.new.doubt ≡ false }
        ensures same { self.new ≡ record self.old { disk = self.new.disk; doubt = self.new.doubt } }
        ensures refused { OnErr result (self.new.doubt ≡ self.old.doubt) }
        ensures only_disk { result ≡ Err CommitFault.Full → ⊥ }
        ensures later { D.faults self.old.disk ≤ D.faults self.new.disk }
        ensures cause { OnErr result (Rose (D.faults self.old.disk) (D.faults self.new.disk)) }
    {
        if !self.doubt {
            return Ok(());
        }
        self.block.forget();
        write_durably(&mut self.disk, self.gate, &[0])?;
        self.doubt = false;
        Ok(())
    }

    /// The disk again.
    pub fn into_disk(self) -> D
        ensures { result ≡ self.disk }
    {
        let Journal {
            disk,
            block: _,
            capacity: _,
            gate: _,
            next: _,
            count: _,
            doubt: _,
        } = self;
        disk
    }

    /// Whether a commit left it open if its payload is there.
    pub fn in_doubt(&self) -> bool
        ensures { result ≡ self.now.doubt }
    {
        self.doubt
    }

    /// How many bytes of the capacity are used: all up to the gate, and the gate.
    pub fn used(&self) -> u64
        ensures used { result ≡ self.now.gate + 1 }
        ensures within { result ≤ self.now.capacity }
    {
        self.gate + 1
    }

    /// How many bytes birth, records and gates may have together.
    pub fn capacity(&self) -> u64
        ensures capacity { result ≡ self.now.capacity }
        ensures allowed { IsCapacity result }
    {
        self.capacity
    }
}
