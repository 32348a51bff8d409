ghost use Rattle.al_frame.specs.Formats.{faulted};
ghost use Rattle.std.specs.Prelude.{◌≡◌};
ghost use Rattle.al_frame.specs.declared.fault.FrameFault.TheVariants.{Memory};

use al_base::FormFault;
use std::alloc::{AllocError, AllocFailed};
use std::error::Error;
use std::fmt;

/// Why bytes are no frame. Places are counted from 0.
#[derive(Clone, Copy, Debug, PartialEq, Eq)]
pub enum FrameFault {
    /// The bytes end inside a field. This is their length.
    Truncated(usize),
    /// The field that begins at this place is whole, and its value is outside its range, form or limit.
    Byte(usize),
    /// The entry ends at this place, and there are further bytes.
    Trailing(usize),
    /// There was no memory for the entry.
    Memory,
}

/// What was read for the field that begins at this place, with the field's fault.
pub(crate) fn at<T>(place: usize, read: Result<T, FormFault>) -> Result<T, FrameFault>
    ensures { result ≡ faulted place read }
{
    match read {
        Ok(value) => Ok(value),
        Err(FormFault::Form) => Err(FrameFault::Byte(place)),
        Err(FormFault::Memory) => Err(FrameFault::Memory),
    }
}

impl From<AllocError> for FrameFault {
    ghost from_gives = { λ _ fault. fault ≡ Memory };

    fn from(_error: AllocError) -> FrameFault {
        FrameFault::Memory
    }
}

impl<T: Drop> From<AllocFailed<T>> for FrameFault {
    ghost from_gives = { λ _ fault. fault ≡ Memory };

    fn from(_error: AllocFailed<T>) -> FrameFault {
        FrameFault::Memory
    }
}

impl fmt::Display for FrameFault {
    fn fmt<W: fmt::Write>(&self, f: &mut fmt::Formatter<W>) -> fmt::Result {
        match self {
            FrameFault::Truncated(place) => write!(f, "the frame is cut at byte {place}"),
            FrameFault::Byte(place) => write!(f, "the frame has a bad field at byte {place}"),
            FrameFault::Trailing(place) => write!(f, "the frame ends before byte {place}"),
            FrameFault::Memory => f.write_str("out of memory"),
        }
    }
}

impl Error for FrameFault {}
