ghost use Rattle.al_shelf.specs.Exact.{same_spot_decides};
ghost use Rattle.al_shelf.specs.Same.{same_spot};
ghost use Rattle.std.specs.Cmp.{decided, partial_equiv_from_equiv};
ghost use Rattle.std.specs.Prelude.{◌≡◌, ◌↔◌, IsTrue};

use al_base::{Copied, Text};
use std::alloc::{AllocError, Global};

/// Where a shelf is to stand (RFC 8040, sections 4.8.5 and 4.8.6: `insert` and `point`).
#[derive(Debug)]
pub enum Spot {
    First,
    Last,
    /// Right before the shelf of this name.
    Before(Text),
    /// Right after the shelf of this name.
    After(Text),
    /// Where the shelf of its name stands, and last if it is new.
    Keep,
}

/// Where a shelf was put.
#[derive(Clone, Copy, Debug, PartialEq, Eq)]
pub enum Placed {
    /// Its name is new, and it stands at this position.
    Made(usize),
    /// It stands at this position in place of the one that had its name.
    Replaced(usize),
}

impl PartialEq for Spot {
    ghost eq = { same_spot };

    ghost laws = { partial_equiv_from_equiv (decided same_spot same_spot_decides) };

    fn eq(&self, other: &Spot) -> bool
        ensures value { result ≡ same_spot self.now other.now }
        ensures exact { IsTrue result ↔ (self.now ≡ other.now) }
    {
        match (self, other) {
            (Spot::First, Spot::First) | (Spot::Last, Spot::Last) | (Spot::Keep, Spot::Keep) =>
                true,
            (Spot::Before(point), Spot::Before(other)) => point == other,
            (Spot::After(point), Spot::After(other)) => point == other,
            _ => false,
        }
    }
}

impl Eq for Spot {
    ghost laws = { decided same_spot same_spot_decides };
}

// Written out, so that a spot is dropped by one call.
impl Drop for Spot {
    fn drop(self) {
        match self {
            Spot::First | Spot::Last | Spot::Before(_) | Spot::After(_) | Spot::Keep => {}
        }
    }
}

impl Copied for Spot {
    fn copy(&self, alloc: Global) -> Result<Spot, AllocError> {
        Ok(match self {
            Spot::First => Spot::First,
            Spot::Last => Spot::Last,
            Spot::Before(point) => Spot::Before(point.copy(alloc)?),
            Spot::After(point) => Spot::After(point.copy(alloc)?),
            Spot::Keep => Spot::Keep,
        })
    }
}
