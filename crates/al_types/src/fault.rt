use std::alloc::AllocError;
use std::error::Error;
use std::fmt;

/// Why lists of identities and rows are no inventory.
#[derive(Clone, Copy, Debug, PartialEq, Eq)]
pub enum InventoryFault {
    /// A list is longer than 2,000.
    TooMany,
    /// The name of the identity at this place is an earlier one's or the root's.
    DuplicateIdentity(usize),
    /// The base of the identity at this place is neither the root nor an earlier identity.
    UnknownBase(usize),
    /// The row at this place has the type and the qualifier of an earlier one.
    DuplicateRow(usize),
    /// There was no memory for the inventory.
    Memory,
}

impl From<AllocError> for InventoryFault {
    ghost use Rattle.std.specs.Prelude.{◌≡◌};
    ghost use Rattle.al_types.specs.declared.fault.InventoryFault.TheVariants.{Memory};

    ghost from_gives = { λ _ fault. fault ≡ Memory };

    fn from(_error: AllocError) -> InventoryFault {
        InventoryFault::Memory
    }
}

impl fmt::Display for InventoryFault {
    fn fmt<W: fmt::Write>(&self, f: &mut fmt::Formatter<W>) -> fmt::Result {
        match self {
            InventoryFault::TooMany => f.write_str("more than 2000 identities or rows"),
            InventoryFault::DuplicateIdentity(n) => {
                write!(f, "the name of identity {n} is declared before")
            }
            InventoryFault::UnknownBase(n) => {
                write!(f, "the base of identity {n} isn't declared before")
            }
            InventoryFault::DuplicateRow(n) => {
                write!(
                    f,
                    "row {n} repeats the type and qualifier of an earlier one"
                )
            }
            InventoryFault::Memory => f.write_str("out of memory"),
        }
    }
}

impl Error for InventoryFault {}
