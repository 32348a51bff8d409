//! The exit statuses of the program.

ghost use Rattle.std.specs.Prelude.{◌≡◌};
ghost use Rattle.al_commands.specs.Statuses.{status_of, status_of_fault};

use al_office::OfficeFault;
use al_serve::Cause;

/// The work was done.
pub const DONE: u8 = 0;

/// The words are no row of the usage line.
pub const BAD_WORDS: u8 = 2;

/// There is a journal where one is to be made, or none where one is to be opened.
pub const JOURNAL: u8 = 3;

/// The journal is invalid.
pub const INVALID: u8 = 4;

/// The disk failed in making or opening the journal.
pub const DISK_FAULT: u8 = 5;

/// The source failed.
const SOURCE_FAULT: u8 = 6;

/// The sink failed.
pub const SINK_FAULT: u8 = 7;

/// There was no memory.
pub const OUT_OF_MEMORY: u8 = 8;

/// The input ended inside a request.
const CUT: u8 = 9;

/// The input was rejected.
const REJECTED: u8 = 10;

/// A door failed.
pub const DOOR_FAULT: u8 = 11;

/// The status that tells how a conversation ended.
pub fn of_cause(cause: Cause) -> u8
    ensures { result ≡ status_of cause }
{
    match cause {
        Cause::Ended | Cause::Closed | Cause::Limit => DONE,
        Cause::Cut => CUT,
        Cause::Rejected => REJECTED,
        Cause::ReadFault => SOURCE_FAULT,
        Cause::WriteFault => SINK_FAULT,
    }
}

/// The status that tells why a journal wasn't opened.
pub fn of_fault(fault: OfficeFault) -> u8
    ensures { result ≡ status_of_fault fault }
{
    match fault {
        OfficeFault::NotAJournal => JOURNAL,
        OfficeFault::Invalid(_) => INVALID,
        OfficeFault::Disk => DISK_FAULT,
        OfficeFault::Memory => OUT_OF_MEMORY,
    }
}
