//! The history that a journal holds, read when the office is opened.

ghost use Rattle.std.specs.Prelude.{◌≡◌, ◌<◌, ◌≤◌, ◌+◌, ◌++◌, ℕ, List, true, false, Ok, Err, IfOk};
ghost use Rattle.al_base.specs.Outside.{Rose};
ghost use Rattle.al_disk.specs.States.{Told};
ghost use Rattle.al_journal.specs.Format.{IsCapacity};
ghost use Rattle.al_journal.specs.Images.{Shows};
ghost use Rattle.al_office.specs.Images.{frames_of, used_by};
ghost use Rattle.al_office.specs.Reading.{IsEntryIn, IsHistoryIn, IsRead};

use crate::fault::OfficeFault;
use crate::ledger::Ledger;
use al_disk::Disk;
use al_frame::{FrameFault, decode};
use al_journal::Journal;
use al_model::Entry;
use std::alloc::Global;

/// Reads the next frame and adds its entry; false where none is left.
fn read_next<D: Disk>(
    alloc: Global,
    journal: &mut Journal<D>,
    frame: &mut Vec<u8>,
    ledger: &mut Ledger,
) -> Result<bool, OfficeFault>
    requires allowed { IsCapacity journal.old.capacity }
    requires place { journal.old.next + 1 ≡ used_by ledger.old.entries }
    requires within { journal.old.next < journal.old.capacity }
    ensures read { Told (D.told journal.old.disk) (λ s. (left : List (List ℕ))
        → Shows journal.old.capacity (frames_of ledger.old.entries ++ left) s.content
        → IsRead ledger.old.entries left result ledger.new.entries) }
    ensures more { result ≡ Ok true → (journal.new.next + 1 ≡ used_by ledger.new.entries)
        × (journal.old.next < journal.new.next) }
    ensures end { result ≡ Ok false → (journal.new.gate ≡ journal.new.next)
        × (journal.new.next ≡ journal.old.next) × (ledger.new.entries ≡ ledger.old.entries) }
    ensures capacity { journal.new.capacity ≡ journal.old.capacity }
    ensures within { journal.new.next < journal.new.capacity }
    ensures doubt { journal.new.doubt ≡ journal.old.doubt }
    ensures same { D.told journal.new.disk ≡ D.told journal.old.disk }
    ensures later { D.faults journal.old.disk ≤ D.faults journal.new.disk }
    ensures cause { result ≡ Err OfficeFault.Disk
        → Rose (D.faults journal.old.disk) (D.faults journal.new.disk) }
    ensures no_birth { result ≡ Err OfficeFault.NotAJournal → ⊥ }
{
    if !journal.next(frame)? {
        return Ok(false);
    }
    let entry = entry_in(alloc, frame, ledger)?;
    let prepared = ledger.prepare(&entry)?;
    ledger.add(entry, prepared);
    Ok(true)
}

/// The entry of a frame, which may come next.
fn entry_in(alloc: Global, frame: &[u8], ledger: &Ledger) -> Result<Entry, OfficeFault>
    ensures { IsEntryIn ledger.now.entries frame.now result }
{
    let count = ledger.len() as u64;
    ledger.history_is_legal();
    let entry = match decode(alloc, frame) {
        Ok(entry) => entry,
        Err(FrameFault::Memory) => return Err(OfficeFault::Memory),
        Err(_) => return Err(OfficeFault::Invalid(count)),
    };
    if !ledger.fits(&entry) {
        return Err(OfficeFault::Invalid(count));
    }
    Ok(entry)
}

/// Walks over the frames of a journal, and builds the history and its tables from them.
pub fn read_history<D: Disk>(alloc: Global, journal: &mut Journal<D>) -> Result<Ledger, OfficeFault>
    requires allowed { IsCapacity journal.old.capacity }
    requires start { journal.old.next ≡ 13 }
    ensures read { Told (D.told journal.old.disk) (λ s. (payloads : List (List ℕ))
        → Shows journal.old.capacity payloads s.content → IsHistoryIn payloads s.content result) }
    ensures place { IfOk result (λ ledger. (journal.new.gate + 1 ≡ used_by ledger.entries)
        × (journal.new.next ≡ journal.new.gate)) }
    ensures capacity { journal.new.capacity ≡ journal.old.capacity }
    ensures doubt { journal.new.doubt ≡ journal.old.doubt }
    ensures same { D.told journal.new.disk ≡ D.told journal.old.disk }
    ensures later { D.faults journal.old.disk ≤ D.faults journal.new.disk }
    ensures cause { result ≡ Err OfficeFault.Disk
        → Rose (D.faults journal.old.disk) (D.faults journal.new.disk) }
    ensures no_birth { result ≡ Err OfficeFault.NotAJournal → ⊥ }
{
    let mut ledger = Ledger::new(alloc)?;
    let mut frame = Vec::new(alloc);
    'frames: while read_next(alloc, journal, &mut frame, &mut ledger)? {}
    Ok(ledger)
}
