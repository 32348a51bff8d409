//! Why an office wasn't opened.

use al_journal::OpenFault;
use std::alloc::AllocError;
use std::error::Error;
use std::fmt;

/// Why an office wasn't opened.
#[derive(Clone, Copy, Debug, PartialEq, Eq)]
pub enum OfficeFault {
    /// The disk begins with no whole birth.
    NotAJournal,
    /// So many frames are whole and a legal history. The next one is torn, or no frame, or its entry can't come next.
    Invalid(u64),
    /// The disk failed.
    Disk,
    /// There was no memory.
    Memory,
}

impl fmt::Display for OfficeFault {
    fn fmt<W: fmt::Write>(&self, f: &mut fmt::Formatter<W>) -> fmt::Result {
        match self {
            OfficeFault::NotAJournal => f.write_str("not a journal"),
            OfficeFault::Invalid(count) => write!(f, "invalid at {count}"),
            OfficeFault::Disk => f.write_str("disk fault"),
            OfficeFault::Memory => f.write_str("out of memory"),
        }
    }
}

impl Error for OfficeFault {}

impl From<OpenFault> for OfficeFault {
    ghost use Rattle.std.specs.Prelude.{◌≡◌};
    ghost use Rattle.al_office.specs.Faults.{office_fault};

    ghost from_gives = { λ fault said. said ≡ office_fault fault };

    fn from(fault: OpenFault) -> OfficeFault {
        match fault {
            OpenFault::NotAJournal => OfficeFault::NotAJournal,
            OpenFault::TornLength(count) => OfficeFault::Invalid(count),
            OpenFault::Disk => OfficeFault::Disk,
            OpenFault::Memory => OfficeFault::Memory,
        }
    }
}

impl From<AllocError> for OfficeFault {
    ghost use Rattle.std.specs.Prelude.{◌≡◌};
    ghost use Rattle.al_office.specs.declared.fault.OfficeFault.TheVariants.{Memory};

    ghost from_gives = { λ _ fault. fault ≡ Memory };

    fn from(_: AllocError) -> OfficeFault {
        OfficeFault::Memory
    }
}
