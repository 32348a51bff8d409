//! The one way in which a journal changes its disk: a write, and a sync behind it.

ghost use Rattle.std.specs.Prelude.{◌≡◌, ◌≤◌, length, OnErr};
ghost use Rattle.al_base.specs.Outside.{Rose};
ghost use Rattle.al_disk.specs.States.{Told, Goes, ReadsAsAnImage};
ghost use Rattle.al_journal.specs.Calls.{WritesDurably};

use al_disk::{Disk, DiskFault};

/// Writes bytes at a place, and syncs.
pub fn write_durably<D: Disk>(disk: &mut D, place: u64, bytes: &[u8]) -> Result<(), DiskFault>
    requires { Told (D.told disk.old) (λ s. place ≤ length s.content) }
    ensures wrote { Goes (λ s t.
        WritesDurably place bytes.now result s t) (D.told disk.old) (D.told disk.new) }
    ensures as_it_reads { Told (D.told disk.new) ReadsAsAnImage }
    ensures later { D.faults disk.old ≤ D.faults disk.new }
    ensures cause { OnErr result (Rose (D.faults disk.old) (D.faults disk.new)) }
{
    disk.write_at(place, bytes)?;
    disk.sync()
}
