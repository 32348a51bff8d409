use al_base::FormFault;
use std::alloc::{AllocError, AllocFailed};
use std::error::Error;
use std::fmt;

/// Why a path and a query name no resource. The first that is due is answered: those of the path, from left to right, then those of
/// the query.
#[derive(Clone, Copy, Debug, PartialEq, Eq)]
pub enum UriFault {
    /// A name isn't in the tree of names at its place, or the path ends where there is no resource.
    NoSuchPath,
    /// A `%` isn't followed by two hexadecimal digits, or what is decoded isn't UTF-8.
    BadEscape,
    /// A node has too few keys or too many, or one outside its limits or its form.
    BadKeys,
    /// A parameter is unknown or repeated, has another value, or stands without the one that it goes with.
    BadQuery,
    /// There was no memory for the target.
    Memory,
}

/// Of texts, keys alone have forms and limits of their own.
impl From<FormFault> for UriFault {
    ghost use Rattle.std.specs.Prelude.{◌≡◌};
    ghost use Rattle.al_uri.specs.Faults.{key_fault};

    ghost from_gives = { λ form fault. fault ≡ key_fault form };

    fn from(fault: FormFault) -> UriFault {
        match fault {
            FormFault::Form => UriFault::BadKeys,
            FormFault::Memory => UriFault::Memory,
        }
    }
}

impl From<AllocError> for UriFault {
    ghost use Rattle.std.specs.Prelude.{◌≡◌};
    ghost use Rattle.al_uri.specs.declared.fault.UriFault.TheVariants.{Memory};

    ghost from_gives = { λ _ fault. fault ≡ Memory };

    fn from(_error: AllocError) -> UriFault {
        UriFault::Memory
    }
}

impl<T: Drop> From<AllocFailed<T>> for UriFault {
    ghost use Rattle.std.specs.Prelude.{◌≡◌};
    ghost use Rattle.al_uri.specs.declared.fault.UriFault.TheVariants.{Memory};

    ghost from_gives = { λ _ fault. fault ≡ Memory };

    fn from(_error: AllocFailed<T>) -> UriFault {
        UriFault::Memory
    }
}

impl fmt::Display for UriFault {
    fn fmt<W: fmt::Write>(&self, f: &mut fmt::Formatter<W>) -> fmt::Result {
        f.write_str(match self {
            UriFault::NoSuchPath => "no such path",
            UriFault::BadEscape => "bad escape",
            UriFault::BadKeys => "bad keys",
            UriFault::BadQuery => "bad query",
            UriFault::Memory => "out of memory",
        })
    }
}

impl Error for UriFault {}
