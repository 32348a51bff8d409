use crate::event::Event;
use std::alloc::AllocError;
use std::error::Error;
use std::fmt;

/// What a request that was carried out answers.
#[derive(Clone, Copy, Debug, PartialEq, Eq)]
pub enum Reply {
    Done,
    /// There is a new shelf.
    Made,
    /// A shelf stands in place of one of its name.
    Replaced,
    /// So many alarms went, or lost an entry.
    Count(u32),
}

/// Why a request wasn't carried out. It has changed nothing.
#[derive(Clone, Copy, Debug, PartialEq, Eq)]
pub enum Refusal {
    /// The list has no alarm of the key.
    NoAlarm,
    /// No shelf has the name.
    NoShelf,
    /// The shelf is to stand before or after one that isn't among the others.
    NoPoint,
    /// A shelf has the name of the one to be created.
    ShelfExists,
    /// An inventory is installed already.
    Installed,
    /// There is no inventory, or it has no row of the type and qualifier.
    NotInInventory,
    /// The row of the type and qualifier doesn't allow the severity.
    SeverityNotInInventory,
    /// There are 10,000 alarms.
    AlarmsFull,
    /// There are 64 shelves.
    ShelvesFull,
    /// The last entry has the last stamp, so no later entry can be.
    ClockEnd,
    /// The journal has no room for the entry.
    JournalFull,
    /// The disk failed.
    Disk,
    /// There was no memory for the change.
    Memory,
}

impl Refusal {
    ghost use Rattle.std.specs.Prelude.{◌≡◌};
    ghost use Rattle.al_model.specs.Refusals.{refusal_number};

    /// The number of the refusal's row in the table of error answers, and 30 for want of memory, which has no row.
    pub fn number(self) -> u8
        ensures { result ≡ refusal_number self }
    {
        match self {
            Refusal::NoAlarm => 16,
            Refusal::NoShelf => 17,
            Refusal::NoPoint => 18,
            Refusal::ShelfExists => 20,
            Refusal::Installed => 21,
            Refusal::NotInInventory => 22,
            Refusal::SeverityNotInInventory => 23,
            Refusal::AlarmsFull => 24,
            Refusal::ShelvesFull => 25,
            Refusal::ClockEnd => 26,
            Refusal::JournalFull => 27,
            Refusal::Disk => 28,
            Refusal::Memory => 30,
        }
    }
}

impl fmt::Display for Refusal {
    fn fmt<W: fmt::Write>(&self, f: &mut fmt::Formatter<W>) -> fmt::Result {
        f.write_str(match self {
            Refusal::NoAlarm => "no such alarm",
            Refusal::NoShelf => "no such shelf",
            Refusal::NoPoint => "no such point",
            Refusal::ShelfExists => "shelf exists",
            Refusal::Installed => "inventory installed",
            Refusal::NotInInventory => "not in the inventory",
            Refusal::SeverityNotInInventory => "severity not in the inventory",
            Refusal::AlarmsFull => "alarms full",
            Refusal::ShelvesFull => "shelves full",
            Refusal::ClockEnd => "clock at its end",
            Refusal::JournalFull => "journal full",
            Refusal::Disk => "disk fault",
            Refusal::Memory => "out of memory",
        })
    }
}

impl Error for Refusal {}

impl From<AllocError> for Refusal {
    ghost use Rattle.std.specs.Prelude.{◌≡◌};
    ghost use Rattle.al_model.specs.declared.decision.Refusal.TheVariants.{Memory};

    ghost from_gives = { λ _ refusal. refusal ≡ Memory };

    fn from(_error: AllocError) -> Refusal {
        Refusal::Memory
    }
}

/// What is to become of a request.
#[derive(Debug)]
pub enum Decision {
    /// It can't be carried out.
    Refuse(Refusal),
    /// It would change nothing, so it is answered without an entry.
    Same(Reply),
    /// It is carried out by an entry of this event.
    Change(Event, Reply),
}

// By hand, so that an early return has one call for the whole value.
impl Drop for Decision {
    fn drop(self) {
        match self {
            Decision::Refuse(_) | Decision::Same(_) | Decision::Change(_, _) => {}
        }
    }
}
