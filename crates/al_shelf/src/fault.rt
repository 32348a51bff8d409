use std::error::Error;
use std::fmt;

/// Why a shelf isn't put.
#[derive(Clone, Copy, Debug, PartialEq, Eq)]
pub enum ShelfFault {
    /// The shelf is to stand before or after one that isn't among the others.
    NoPoint,
    /// There would be more than 64 shelves.
    TooMany,
    /// There was no memory for the shelf.
    Memory,
}

impl fmt::Display for ShelfFault {
    fn fmt<W: fmt::Write>(&self, f: &mut fmt::Formatter<W>) -> fmt::Result {
        f.write_str(match self {
            ShelfFault::NoPoint => "no other shelf has the name of the point",
            ShelfFault::TooMany => "more than 64 shelves",
            ShelfFault::Memory => "out of memory",
        })
    }
}

impl Error for ShelfFault {}
