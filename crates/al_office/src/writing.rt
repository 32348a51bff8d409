//! An entry's way to the disk.

ghost use Rattle.std.specs.Prelude.{◌≡◌, ◌≤◌, List, Err, false};
ghost use Rattle.al_base.specs.Outside.{Rose};
ghost use Rattle.al_disk.specs.States.{Goes};
ghost use Rattle.al_model.specs.History.{Fits, replay};
ghost use Rattle.al_model.specs.declared.entry.Entry.{Entry};
ghost use Rattle.al_office.specs.Changing.{Writes};
ghost use Rattle.al_office.specs.Journaled.{HoldsHistory};
ghost use Rattle.al_office.specs.Ledger.{IsRecord};
ghost use Rattle.al_office.specs.Writing.{HoldsAfter, SaysRoom};

use al_disk::Disk;
use al_journal::{CommitFault, Journal, Record};

/// Settles a doubt, and then commits the record, where there is room for it.
pub fn write<D: Disk>(journal: &mut Journal<D>, piece: &Option<Record>) -> Result<(), CommitFault>
    requires { (history : List Entry) × HoldsHistory (D.told journal.old.disk) journal.old history }
    ensures holds { (history : List Entry) (entry : Entry)
        → HoldsHistory (D.told journal.old.disk) journal.old history → Fits (replay history) entry
        → IsRecord journal.old entry piece.now
        → HoldsAfter (D.told journal.new.disk) journal.new history entry result }
    ensures writes { (history : List Entry) (entry : Entry)
        → HoldsHistory (D.told journal.old.disk) journal.old history → Fits (replay history) entry
        → IsRecord journal.old entry piece.now
        → Goes (Writes journal.old history entry) (D.told journal.old.disk)
        (D.told journal.new.disk) }
    ensures room { (entry : Entry) → IsRecord journal.old entry piece.now
        → SaysRoom journal.old entry result }
    ensures sure { (result ≡ Err CommitFault.Disk → ⊥) → journal.new.doubt ≡ false }
    ensures capacity { journal.new.capacity ≡ journal.old.capacity }
    ensures later { D.faults journal.old.disk ≤ D.faults journal.new.disk }
    ensures cause { result ≡ Err CommitFault.Disk
        → Rose (D.faults journal.old.disk) (D.faults journal.new.disk) }
{
    journal.settle()?;
    let Some(piece) = piece else {
        return Err(CommitFault::Full);
    };
    journal.commit(piece)
}
