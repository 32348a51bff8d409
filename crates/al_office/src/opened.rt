//! What stays of an office since it was opened.

ghost use Rattle.std.specs.Prelude.{◌≡◌, length};
ghost use Rattle.al_office.specs.Journaled.{time_told};

use crate::ledger::Ledger;
use al_disk::Disk;
use al_journal::Journal;
use std::marker::Model;
use std::snapshot::Snapshot;

/// The journal and the history as they were when the office was opened. It has no bytes: contracts alone see it.
#[derive(Drop)]
pub struct Opened<D: Disk> {
    journal: Snapshot<Journal<D>>,
    ledger: Snapshot<Ledger>,
}

impl<D: Disk> Model for Opened<D> {
    ghost use Rattle.std.specs.Prelude.{length};
    ghost use Rattle.al_model.specs.declared.kept.Fixed.{Fixed};
    ghost use Rattle.al_office.specs.Journaled.{time_told};

    ghost Value = { Fixed };

    ghost view = { λ o. record {
      capacity = o.journal.value.capacity;
      length = length o.ledger.value.entries;
      since = time_told (D.told o.journal.value.disk);
    } };
}

impl<D: Disk> Opened<D> {
    pub fn of(journal: &Journal<D>, ledger: &Ledger) -> Opened<D>
        ensures { result ≡ record {
          capacity = journal.now.capacity;
          length = length ledger.now.entries;
          since = time_told (D.told journal.now.disk);
        } }
    {
        Opened {
            journal: Snapshot::of(journal),
            ledger: Snapshot::of(ledger),
        }
    }
}
