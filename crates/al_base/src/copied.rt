ghost use Rattle.std.specs.Prelude.{◌≡◌, IfOk};

use crate::event_type::EventType;
use crate::list::List;
use crate::operator::OperatorState;
use crate::severity::{Severity, Status};
use crate::stamp::Stamp;
use std::alloc::{AllocError, Global};

/// What can be copied, as far as there is memory for the copy.
pub trait Copied: Drop {
    /// An equal value, which owns memory of its own.
    fn copy(&self, alloc: Global) -> Result<Self, AllocError>
        ensures { IfOk result (λ copy. copy ≡ self.now) };
}

impl<T: Copied> Copied for Option<T> {
    fn copy(&self, alloc: Global) -> Result<Option<T>, AllocError> {
        match self {
            Some(value) => Ok(Some(value.copy(alloc)?)),
            None => Ok(None),
        }
    }
}

impl<T: Copied> Copied for List<T> {
    fn copy(&self, alloc: Global) -> Result<List<T>, AllocError> {
        let mut items = Vec::with_capacity(alloc, self.as_slice().len())?;
        for item in self.as_slice() {
            items.push(item.copy(alloc)?)?;
        }
        Ok(List::of(items))
    }
}

// Copies of stamps and words can't fail.

impl Copied for Stamp {
    fn copy(&self, _alloc: Global) -> Result<Stamp, AllocError>
        ensures { result ≡ Ok self.now }
    {
        Ok(*self)
    }
}

impl Copied for Severity {
    fn copy(&self, _alloc: Global) -> Result<Severity, AllocError>
        ensures { result ≡ Ok self.now }
    {
        Ok(*self)
    }
}

impl Copied for Status {
    fn copy(&self, _alloc: Global) -> Result<Status, AllocError>
        ensures { result ≡ Ok self.now }
    {
        Ok(*self)
    }
}

impl Copied for OperatorState {
    fn copy(&self, _alloc: Global) -> Result<OperatorState, AllocError>
        ensures { result ≡ Ok self.now }
    {
        Ok(*self)
    }
}

impl Copied for EventType {
    fn copy(&self, _alloc: Global) -> Result<EventType, AllocError>
        ensures { result ≡ Ok self.now }
    {
        Ok(*self)
    }
}
