//! The memory of a change, all of it taken before the disk is called.

ghost use Rattle.std.specs.Prelude.{◌≡◌, ◌+◌, ◌≤◌, IfOk, OnOk};
ghost use Rattle.al_model.specs.History.{Fits, replay};
ghost use Rattle.al_model.specs.Limits.{IsEntryWithin};
ghost use Rattle.al_office.specs.Images.{used_by};
ghost use Rattle.al_office.specs.Ledger.{IsRecord};
ghost use Rattle.al_office.specs.Taking.{IsTaken};

use crate::ledger::Ledger;
use al_disk::Disk;
use al_frame::encode;
use al_journal::{Journal, Record};
use al_lists::Prepared;
use al_model::Entry;
use std::alloc::{AllocError, Global};

/// What an entry needs: its record, unless the journal has no room for it, and its prepared change.
#[derive(Drop)]
pub struct Taken {
    pub record: Option<Record>,
    pub prepared: Prepared,
}

/// Takes all the memory that an entry needs.
pub fn take<D: Disk>(
    alloc: Global,
    journal: &Journal<D>,
    ledger: &mut Ledger,
    entry: &Entry,
) -> Result<Taken, AllocError>
    requires fits { Fits (replay ledger.old.entries) entry.now }
    requires used { journal.now.gate + 1 ≡ used_by ledger.old.entries }
    ensures entries { ledger.new.entries ≡ ledger.old.entries }
    ensures ok { IfOk result (IsTaken journal.now ledger.new entry.now) }
{
    let record = record_of(alloc, journal, entry)?;
    let prepared = ledger.prepare(entry)?;
    Ok(Taken { record, prepared })
}

/// The record of an entry's frame, where the journal has room for it.
fn record_of<D: Disk>(
    alloc: Global,
    journal: &Journal<D>,
    entry: &Entry,
) -> Result<Option<Record>, AllocError>
    requires { IsEntryWithin entry.now }
    ensures record_is { IfOk result (IsRecord journal.now entry.now) }
    ensures small { OnOk result (journal.now.gate + 1 ≤ 268435456) }
{
    let frame = encode(alloc, entry)?;
    let left = journal.capacity() - journal.used();
    if left < 5 || frame.len() as u64 > left - 5 {
        return Ok(None);
    }
    Ok(Some(Record::of(alloc, &frame)?))
}
