//! `session`: the requests of a source are answered over the history of a journal.

ghost use Rattle.std.specs.Prelude.{◌≡◌, ◌≤◌, ◌⊎◌};
ghost use Rattle.al_base.specs.Outside.{Rose};
ghost use Rattle.al_commands.specs.Sessions.{HasConversed, HasNotBegun, HasNotTalked};
ghost use Rattle.al_commands.specs.Statuses.{status_read_fault, status_write_fault};

use crate::status::{OUT_OF_MEMORY, of_cause, of_fault};
use al_base::{Clock, Sink, Source};
use al_disk::Disk;
use al_http::Framer;
use al_office::journaled::Office;
use al_restconf::Restconf;
use al_serve::converse;
use al_turn::Alone;
use std::alloc::Global;

/// The origin of the entries of a session.
const SESSION_ORIGIN: u16 = 0;

/// Opens the journal on the disk and answers the requests of the source over its history. Where it isn't opened nothing is read or written.
pub fn run_session<D: Disk, S: Source, O: Sink, K: Clock>(
    alloc: Global,
    disk: D,
    source: &mut S,
    sink: &mut O,
    clock: &mut K,
) -> (u8, D)
    ensures session { (HasNotBegun (record {
      old_disk = D.told disk;
      new_disk = D.told result.1;
      old_faults = D.faults disk;
      new_faults = D.faults result.1;
    }) result.0
        × HasNotTalked source.old source.new sink.old sink.new clock.old clock.new)
        ⊎ HasConversed (S.left source.old) (record {
          old_output = O.held sink.old;
          new_output = O.held sink.new;
          old_clock = K.readings clock.old;
          new_clock = K.readings clock.new;
        }) (record {
          old_disk = D.told disk;
          new_disk = D.told result.1;
          old_faults = D.faults disk;
          new_faults = D.faults result.1;
        }) result.0 }
    ensures read_fault { result.0 ≡ status_read_fault
        → Rose (S.faults source.old) (S.faults source.new) }
    ensures write_fault { result.0 ≡ status_write_fault
        → Rose (O.faults sink.old) (O.faults sink.new) }
    ensures later_source { S.faults source.old ≤ S.faults source.new }
    ensures later_sink { O.faults sink.old ≤ O.faults sink.new }
    ensures later_disk { D.faults disk ≤ D.faults result.1 }
{
    let Ok(mut framer) = Framer::new(alloc) else {
        return (OUT_OF_MEMORY, disk);
    };
    let office = match Office::open(alloc, disk) {
        Ok(office) => office,
        Err((disk, fault)) => return (of_fault(fault), disk),
    };
    office.keeps_its_history();
    let mut turns = Alone::new(office);
    let mut restconf = Restconf::new(alloc);
    let ending = converse(
        &mut turns,
        &mut restconf,
        &mut framer,
        SESSION_ORIGIN,
        source,
        sink,
        clock,
    );
    let office = turns.into_inner();
    office.keeps_its_history();
    (of_cause(ending.cause), office.into_disk())
}
