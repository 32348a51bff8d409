//! The office over its journal: the history, its journal and the tables that it leaves, changed as one.

ghost use Rattle.std.specs.Option.{option_copied};
ghost use Rattle.std.specs.Prelude.{◌≡◌, ◌↔◌, ◌+◌, ◌≤◌, ◌∷◌, [], ◌++◌, Err, IfErr, IfOk, IsTrue, MatchResult, false, length, slice_get};
ghost use Rattle.al_base.specs.Outside.{Rose};
ghost use Rattle.al_disk.specs.Moments.{Since};
ghost use Rattle.al_disk.specs.States.{Goes, Told};
ghost use Rattle.al_journal.specs.Format.{IsCapacity};
ghost use Rattle.al_journal.specs.Walks.{LeavesAsBefore};
ghost use Rattle.al_model.specs.History.{Fits, IsLegal, replay};
ghost use Rattle.al_model.specs.Limits.{IsRequestWithin};

use crate::fault::OfficeFault;
use crate::ledger::Ledger;
use crate::opened::Opened;
use crate::reading::read_history;
use crate::taking::{Taken, take};
use crate::writing::write;
use al_base::Stamp;
use al_disk::Disk;
use al_journal::{CommitFault, Journal};
use al_lists::Tables;
use al_model::{Entry, Kept, Refusal, Reply, Request};
use std::alloc::Global;
use std::marker::Model;

/// The history on a disk, and what is known after it.
#[derive(Drop)]
pub struct Office<D: Disk> {
    alloc: Global,
    journal: Journal<D>,
    ledger: Ledger,
    opened: Opened<D>,
}

impl<D: Disk> Model for Office<D> {
    ghost use Rattle.al_office.specs.Journaled.{IsKeptOn, JournaledView};

    ghost Value = { JournaledView D };

    ghost view = { λ o. record {
      entries = o.ledger.entries;
      journal = o.journal;
      fixed = o.opened;
    } };

    ghost invariant = { λ o. IsKeptOn (D.told o.journal.disk) (record {
      entries = o.ledger.entries;
      journal = o.journal;
      fixed = o.opened;
    }) };
}

impl<D: Disk> Office<D> {
    ghost use Rattle.al_office.specs.Changing.{Ended, IsAnswer, IsCrashSafe, Writes};
    ghost use Rattle.al_office.specs.Images.{ShowsFront, used_by};
    ghost use Rattle.al_office.specs.Journaled.{LeavesHistory};
    ghost use Rattle.al_office.specs.Opening.{OpensOffice, RefusesOffice};

    /// Opens the office of the history that a disk's journal shows. It syncs, walks over the journal, and builds the tables from its frames.
    /// The disk comes back where it is refused.
    pub fn open(alloc: Global, disk: D) -> Result<Office<D>, (D, OfficeFault)>
        ensures opens { IfOk result (λ office.
            Goes (OpensOffice office) (D.told disk) (D.told office.journal.disk)) }
        ensures start { IfOk result (λ office. (office.journal.doubt ≡ false)
            × (office.fixed.length ≡ length office.entries)) }
        ensures refuses { IfErr result (λ refusal.
            Goes (RefusesOffice refusal.1) (D.told disk) (D.told refusal.0)) }
        ensures moments { MatchResult result (λ office.
            Goes LeavesAsBefore (D.told disk) (D.told office.journal.disk)) (λ refusal.
            Goes LeavesAsBefore (D.told disk) (D.told refusal.0)) }
        ensures later { MatchResult result (λ office.
            D.faults disk ≤ D.faults office.journal.disk) (λ refusal.
            D.faults disk ≤ D.faults refusal.0) }
        ensures cause { IfErr result (λ refusal. refusal.1 ≡ OfficeFault.Disk
            → Rose (D.faults disk) (D.faults refusal.0)) }
    {
        let mut journal = match Journal::open(alloc, disk) {
            Ok(journal) => journal,
            Err((disk, fault)) => return Err((disk, OfficeFault::from(fault))),
        };
        match read_history(alloc, &mut journal) {
            Ok(ledger) => {
                let opened = Opened::of(&journal, &ledger);
                Ok(Office {
                    alloc,
                    journal,
                    ledger,
                    opened,
                })
            }
            Err(fault) => Err((journal.into_disk(), fault)),
        }
    }

    /// Decides on the request and carries it out, by an entry of this origin where it changes anything.
    ///
    /// Where it is a change, all memory is taken first; then a doubt that a fault of the disk left is settled; then the entry is committed; and only
    /// then it is in the history and the tables. A refusal leaves these as they were. Want of memory, a full journal and a fault of the disk refuse
    /// changes alone.
    pub fn change(&mut self, origin: u16, request: Request, now: Stamp) -> Result<Reply, Refusal>
        requires { IsRequestWithin request }
        ensures answer { IsAnswer self.old origin request now result self.new }
        ensures crash { Goes (IsCrashSafe self.old origin request now)
            (D.told self.old.journal.disk) (D.told self.new.journal.disk) }
        ensures fixed { self.new.fixed ≡ self.old.fixed }
        ensures later { D.faults self.old.journal.disk ≤ D.faults self.new.journal.disk }
        ensures cause { result ≡ Err Refusal.Disk
            → Rose (D.faults self.old.journal.disk) (D.faults self.new.journal.disk) }
    {
        match self.ledger.decide(origin, request, now) {
            Ok((entry, reply)) => {
                self.add(entry)?;
                Ok(reply)
            }
            Err(answer) => answer,
        }
    }

    /// Adds an entry: to the disk, then to the history and the tables.
    fn add(&mut self, entry: Entry) -> Result<(), Refusal>
        requires { Fits (replay self.old.entries) entry }
        ensures ended { Ended self.old entry tt result self.new }
        ensures writes { Goes (Writes self.old.journal self.old.entries entry)
            (D.told self.old.journal.disk) (D.told self.new.journal.disk) }
        ensures fixed { self.new.fixed ≡ self.old.fixed }
        ensures later { D.faults self.old.journal.disk ≤ D.faults self.new.journal.disk }
        ensures cause { result ≡ Err Refusal.Disk
            → Rose (D.faults self.old.journal.disk) (D.faults self.new.journal.disk) }
    {
        let Taken { record, prepared } = take(self.alloc, &self.journal, &mut self.ledger, &entry)?;
        match write(&mut self.journal, &record) {
            Ok(()) => {
                self.ledger.add(entry, prepared);
                Ok(())
            }
            Err(CommitFault::Full) => Err(Refusal::JournalFull),
            Err(CommitFault::Disk) => Err(Refusal::Disk),
        }
    }

    /// What every office keeps: its history is legal, a crash now leaves it, and a crash at no moment since it was opened left less than a front of it
    /// that is at least as long as it was then.
    pub fn keeps_its_history(&self)
        ensures legal { IsLegal self.now.entries }
        ensures capacity { self.now.fixed.capacity ≡ self.now.journal.capacity }
        ensures used { self.now.journal.gate + 1 ≡ used_by self.now.entries }
        ensures now { Told (D.told self.now.journal.disk) (LeavesHistory self.now) }
        ensures longer { self.now.fixed.length ≤ length self.now.entries }
        ensures since { Told (D.told self.now.journal.disk)
            (Since (ShowsFront self.now.fixed.capacity self.now.fixed.length self.now.entries)
            self.now.fixed.since) }
    {
        self.ledger.history_is_legal();
    }

    /// What is known after the history.
    pub fn look(&self) -> &Tables
        ensures { result.now.state ≡ replay self.now.entries }
    {
        self.ledger.tables()
    }

    /// How many entries there are.
    pub fn len(&self) -> usize
        ensures { result ≡ length self.now.entries }
    {
        self.ledger.len()
    }

    pub fn is_empty(&self) -> bool
        ensures { IsTrue result ↔ (self.now.entries ≡ []) }
    {
        self.ledger.len() == 0
    }

    /// The entry with this number, counted from 0.
    pub fn entry(&self, n: usize) -> Option<&Entry>
        ensures { option_copied result ≡ slice_get self.now.entries n }
    {
        self.ledger.entry(n)
    }

    /// The journal, for its used bytes, its capacity and its doubt.
    pub fn journal(&self) -> &Journal<D>
        ensures { result.now ≡ self.now.journal }
    {
        &self.journal
    }

    /// The disk again.
    pub fn into_disk(self) -> D
        ensures { result ≡ self.journal.disk }
    {
        let Office {
            alloc: _,
            journal,
            ledger: _,
            opened: _,
        } = self;
        journal.into_disk()
    }
}

impl<D: Disk> Kept for Office<D> {
    ghost use Rattle.al_office.specs.Journaled.{journaled_mark};

    ghost mark = { λ o. journaled_mark (D.faults o.journal.disk) o };

    fn entries(&self) -> u64 {
        self.len() as u64
    }
}
