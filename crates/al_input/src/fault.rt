use al_base::FormFault;
use std::alloc::{AllocError, AllocFailed};
use std::error::Error;
use std::fmt;

/// Why a body asks for nothing. The first that is due is answered.
#[derive(Clone, Copy, Debug, PartialEq, Eq)]
pub enum InputFault {
    /// An object has a member that isn't known there.
    Unknown,
    /// A member that is required is absent.
    Missing,
    /// A value is of another kind, or outside its limits or its form, or a member stands there in both its spellings.
    BadValue,
    /// There was no memory for what is asked.
    Memory,
}

/// Why a body has no tree.
#[derive(Clone, Copy, Debug, PartialEq, Eq)]
pub enum BodyFault {
    /// The body is no JSON.
    NotJson,
    /// There was no memory for its tree.
    Memory,
}

impl fmt::Display for BodyFault {
    fn fmt<W: fmt::Write>(&self, f: &mut fmt::Formatter<W>) -> fmt::Result {
        f.write_str(match self {
            BodyFault::NotJson => "the body is no JSON",
            BodyFault::Memory => "out of memory",
        })
    }
}

impl Error for BodyFault {}

impl From<FormFault> for InputFault {
    ghost use Rattle.std.specs.Prelude.{◌≡◌};
    ghost use Rattle.al_input.specs.Faults.{form_fault};

    ghost from_gives = { λ form fault. fault ≡ form_fault form };

    fn from(fault: FormFault) -> InputFault {
        match fault {
            FormFault::Form => InputFault::BadValue,
            FormFault::Memory => InputFault::Memory,
        }
    }
}

impl From<AllocError> for InputFault {
    ghost use Rattle.std.specs.Prelude.{◌≡◌};
    ghost use Rattle.al_input.specs.declared.fault.InputFault.TheVariants.{Memory};

    ghost from_gives = { λ _ fault. fault ≡ Memory };

    fn from(_error: AllocError) -> InputFault {
        InputFault::Memory
    }
}

impl<T: Drop> From<AllocFailed<T>> for InputFault {
    ghost use Rattle.std.specs.Prelude.{◌≡◌};
    ghost use Rattle.al_input.specs.declared.fault.InputFault.TheVariants.{Memory};

    ghost from_gives = { λ _ fault. fault ≡ Memory };

    fn from(_error: AllocFailed<T>) -> InputFault {
        InputFault::Memory
    }
}

impl fmt::Display for InputFault {
    fn fmt<W: fmt::Write>(&self, f: &mut fmt::Formatter<W>) -> fmt::Result {
        f.write_str(match self {
            InputFault::Unknown => "unknown member",
            InputFault::Missing => "missing member",
            InputFault::BadValue => "bad value",
            InputFault::Memory => "out of memory",
        })
    }
}

impl Error for InputFault {}
