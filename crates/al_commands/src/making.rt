//! `init`: a journal is made.

ghost use Rattle.std.specs.Prelude.{◌≡◌, ◌≢◌, ◌≤◌, ℕ, Err, Ok};
ghost use Rattle.al_base.specs.Outside.{Rose};
ghost use Rattle.al_journal.specs.Format.{IsCapacity};
ghost use Rattle.al_commands.specs.Commands.{HasMade};
ghost use Rattle.al_commands.specs.Lines.{Tells, birth_line};
ghost use Rattle.al_commands.specs.Statuses.{status_done, status_of_birth, status_read_fault, status_write_fault};

use crate::line::{Count, tell, tell_counts};
use crate::status::{DISK_FAULT, DONE, JOURNAL};
use al_base::Sink;
use al_disk::Disk;
use al_journal::{BirthFault, birth};

/// Makes an empty journal of this capacity on the disk, and tells how that ended.
pub fn run_init<D: Disk, O: Sink>(capacity: u64, mut disk: D, sink: &mut O) -> (u8, D)
    requires { IsCapacity capacity }
    ensures made { HasMade capacity (record {
      old_disk = D.told disk;
      new_disk = D.told result.1;
      old_faults = D.faults disk;
      new_faults = D.faults result.1;
      old_output = O.held sink.old;
      new_output = O.held sink.new;
    }) result.0 }
    ensures write_fault { result.0 ≡ status_write_fault
        → Rose (O.faults sink.old) (O.faults sink.new) }
    ensures other { result.0 ≢ status_read_fault }
    ensures later_sink { O.faults sink.old ≤ O.faults sink.new }
    ensures later_disk { D.faults disk ≤ D.faults result.1 }
{
    let born = birth(&mut disk, capacity);
    let status = tell_birth(sink, capacity, born);
    (status, disk)
}

/// Tells how the making of a journal ended.
fn tell_birth<O: Sink>(sink: &mut O, capacity: u64, born: Result<(), BirthFault>) -> u8
    requires { born ≢ Err BirthFault.BadCapacity }
    ensures told { Tells (birth_line capacity born) (status_of_birth born) (O.held sink.old)
        (O.held sink.new) result }
    ensures write_fault { result ≡ status_write_fault
        → Rose (O.faults sink.old) (O.faults sink.new) }
    ensures other { result ≢ status_read_fault }
    ensures later { O.faults sink.old ≤ O.faults sink.new }
{
    match born {
        Ok(()) => tell_made(sink, capacity),
        Err(fault) => tell_refusal(sink, fault),
    }
}

/// Tells why no journal was made.
fn tell_refusal<O: Sink>(sink: &mut O, fault: BirthFault) -> u8
    requires { fault ≢ BirthFault.BadCapacity }
    ensures told { (capacity : ℕ)
        → Tells (birth_line {A = Unit {0}} capacity (Err fault))
        (status_of_birth {A = Unit {0}} (Err fault)) (O.held sink.old) (O.held sink.new) result }
    ensures write_fault { result ≡ status_write_fault
        → Rose (O.faults sink.old) (O.faults sink.new) }
    ensures other { result ≢ status_read_fault }
    ensures later { O.faults sink.old ≤ O.faults sink.new }
{
    match fault {
        BirthFault::AlreadyMade => tell(sink, b"already a journal\n", JOURNAL),
        BirthFault::Disk => tell(sink, b"disk fault\n", DISK_FAULT),
        BirthFault::BadCapacity => unreachable!(),
    }
}

fn tell_made<O: Sink>(sink: &mut O, capacity: u64) -> u8
    ensures told { Tells (birth_line {A = Unit {0}} capacity (Ok tt)) status_done (O.held sink.old)
        (O.held sink.new) result }
    ensures write_fault { result ≡ status_write_fault
        → Rose (O.faults sink.old) (O.faults sink.new) }
    ensures other { result ≢ status_read_fault }
    ensures later { O.faults sink.old ≤ O.faults sink.new }
{
    let made = Count {
        words: b"made ",
        number: capacity,
    };
    tell_counts(sink, &[made], DONE)
}
