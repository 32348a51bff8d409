//! `check`: what there is in a journal is told.

ghost use Rattle.std.specs.Prelude.{◌≡◌, ◌≢◌, ◌≤◌, ◌++◌};
ghost use Rattle.al_base.specs.Outside.{Rose};
ghost use Rattle.al_commands.specs.Commands.{HasChecked};
ghost use Rattle.al_commands.specs.Lines.{Tells, check_lines, counts_text, fault_line, line_end};
ghost use Rattle.al_commands.specs.Statuses.{status_done, status_of_fault, status_read_fault, status_write_fault};

use crate::line::{Count, tell, tell_counts};
use crate::status::{DISK_FAULT, DONE, INVALID, JOURNAL, OUT_OF_MEMORY};
use al_base::Sink;
use al_disk::Disk;
use al_office::OfficeFault;
use al_office::journaled::Office;
use std::alloc::Global;

/// Opens the journal on the disk and tells what there is in it, or why it isn't opened.
pub fn run_check<D: Disk, O: Sink>(alloc: Global, disk: D, sink: &mut O) -> (u8, D)
    ensures checked { HasChecked (record {
      old_disk = D.told disk;
      new_disk = D.told result.1;
      old_faults = D.faults disk;
      new_faults = D.faults result.1;
      old_output = O.held sink.old;
      new_output = O.held sink.new;
    }) result.0 }
    ensures write_fault { result.0 ≡ status_write_fault
        → Rose (O.faults sink.old) (O.faults sink.new) }
    ensures other { result.0 ≢ status_read_fault }
    ensures later_sink { O.faults sink.old ≤ O.faults sink.new }
    ensures later_disk { D.faults disk ≤ D.faults result.1 }
{
    match Office::open(alloc, disk) {
        Ok(office) => {
            office.keeps_its_history();
            let status = tell_counts(sink, &counts_of(&office), DONE);
            (status, office.into_disk())
        }
        Err((disk, fault)) => (tell_fault(sink, fault), disk),
    }
}

/// What there is in the journal.
fn counts_of<D: Disk>(office: &Office<D>) -> [Count; 6]
    ensures { counts_text result ++ line_end
        ≡ check_lines office.now.journal.capacity office.now.entries }
{
    office.keeps_its_history();
    let tables = office.look();
    let journal = office.journal();
    [
        Count {
            words: b"entries ",
            number: office.len() as u64,
        },
        Count {
            words: b"\nalarms ",
            number: tables.alarms() as u64,
        },
        Count {
            words: b"\nshelved ",
            number: tables.shelved_count() as u64,
        },
        Count {
            words: b"\nnotes ",
            number: u64::from(tables.log().sent()),
        },
        Count {
            words: b"\nbytes ",
            number: journal.used(),
        },
        Count {
            words: b" of ",
            number: journal.capacity(),
        },
    ]
}

/// Tells why the journal isn't opened, but for want of memory.
pub fn tell_fault<O: Sink>(sink: &mut O, fault: OfficeFault) -> u8
    ensures told { Tells (fault_line fault) (status_of_fault fault) (O.held sink.old)
        (O.held sink.new) result }
    ensures write_fault { result ≡ status_write_fault
        → Rose (O.faults sink.old) (O.faults sink.new) }
    ensures other { result ≢ status_read_fault }
    ensures later { O.faults sink.old ≤ O.faults sink.new }
{
    match fault {
        OfficeFault::NotAJournal => tell(sink, b"not a journal\n", JOURNAL),
        OfficeFault::Invalid(count) => tell_invalid(sink, count),
        OfficeFault::Disk => tell(sink, b"disk fault\n", DISK_FAULT),
        OfficeFault::Memory => OUT_OF_MEMORY,
    }
}

fn tell_invalid<O: Sink>(sink: &mut O, count: u64) -> u8
    ensures told { Tells (fault_line (OfficeFault.Invalid count))
        (status_of_fault (OfficeFault.Invalid count)) (O.held sink.old) (O.held sink.new) result }
    ensures write_fault { result ≡ status_write_fault
        → Rose (O.faults sink.old) (O.faults sink.new) }
    ensures other { result ≢ status_read_fault }
    ensures later { O.faults sink.old ≤ O.faults sink.new }
{
    let invalid = Count {
        words: b"invalid at ",
        number: count,
    };
    tell_counts(sink, &[invalid], INVALID)
}
