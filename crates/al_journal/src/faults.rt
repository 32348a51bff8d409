//! Why a call of a journal was refused.

use al_disk::DiskFault;
use std::alloc::AllocError;
use std::error::Error;
use std::fmt;

/// Why no journal was made.
#[derive(Clone, Copy, Debug, PartialEq, Eq)]
pub enum BirthFault {
    /// The capacity isn't from 4,096 to 268,435,456.
    BadCapacity,
    /// The disk begins with a whole birth.
    AlreadyMade,
    /// The disk failed.
    Disk,
}

impl fmt::Display for BirthFault {
    fn fmt<W: fmt::Write>(&self, f: &mut fmt::Formatter<W>) -> fmt::Result {
        f.write_str(match self {
            BirthFault::BadCapacity => "bad capacity",
            BirthFault::AlreadyMade => "already made",
            BirthFault::Disk => "the disk failed",
        })
    }
}

impl Error for BirthFault {}

impl From<DiskFault> for BirthFault {
    ghost use Rattle.std.specs.Prelude.{◌≡◌};
    ghost use Rattle.al_journal.specs.declared.faults.BirthFault.TheVariants.{Disk};

    ghost from_gives = { λ _ fault. fault ≡ Disk };

    fn from(_: DiskFault) -> Self {
        BirthFault::Disk
    }
}

/// Why a journal wasn't opened, or its next frame not read.
#[derive(Clone, Copy, Debug, PartialEq, Eq)]
pub enum OpenFault {
    /// The disk begins with no whole birth.
    NotAJournal,
    /// After so many whole frames an open gate's length, frame or next gate passes the end of the disk or the capacity.
    TornLength(u64),
    /// The disk failed.
    Disk,
    /// There was no memory.
    Memory,
}

impl fmt::Display for OpenFault {
    fn fmt<W: fmt::Write>(&self, f: &mut fmt::Formatter<W>) -> fmt::Result {
        match self {
            OpenFault::NotAJournal => f.write_str("not a journal"),
            OpenFault::TornLength(count) => write!(f, "torn after {count} frames"),
            OpenFault::Disk => f.write_str("the disk failed"),
            OpenFault::Memory => f.write_str("no memory"),
        }
    }
}

impl Error for OpenFault {}

impl From<DiskFault> for OpenFault {
    ghost use Rattle.std.specs.Prelude.{◌≡◌};
    ghost use Rattle.al_journal.specs.declared.faults.OpenFault.TheVariants.{Disk};

    ghost from_gives = { λ _ fault. fault ≡ Disk };

    fn from(_: DiskFault) -> Self {
        OpenFault::Disk
    }
}

impl From<AllocError> for OpenFault {
    ghost use Rattle.std.specs.Prelude.{◌≡◌};
    ghost use Rattle.al_journal.specs.declared.faults.OpenFault.TheVariants.{Memory};

    ghost from_gives = { λ _ fault. fault ≡ Memory };

    fn from(_: AllocError) -> Self {
        OpenFault::Memory
    }
}

/// Why a payload wasn't committed, or a doubt not settled.
#[derive(Clone, Copy, Debug, PartialEq, Eq)]
pub enum CommitFault {
    /// The record passes the capacity.
    Full,
    /// The disk failed.
    Disk,
}

impl fmt::Display for CommitFault {
    fn fmt<W: fmt::Write>(&self, f: &mut fmt::Formatter<W>) -> fmt::Result {
        f.write_str(match self {
            CommitFault::Full => "the journal is full",
            CommitFault::Disk => "the disk failed",
        })
    }
}

impl Error for CommitFault {}

impl From<DiskFault> for CommitFault {
    ghost use Rattle.std.specs.Prelude.{◌≡◌};
    ghost use Rattle.al_journal.specs.declared.faults.CommitFault.TheVariants.{Disk};

    ghost from_gives = { λ _ fault. fault ≡ Disk };

    fn from(_: DiskFault) -> Self {
        CommitFault::Disk
    }
}
