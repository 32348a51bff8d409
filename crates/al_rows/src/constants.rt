//! Bytes that have a name.

use crate::fault::Fault;
use std::alloc::{AllocError, Global};

#[derive(Drop)]
struct Constant {
    name: Vec<u8>,
    bytes: Vec<u8>,
}

/// The constants that lines have made so far.
#[derive(Drop)]
pub struct Constants {
    constants: Vec<Constant>,
}

impl Constants {
    pub fn new(alloc: Global) -> Constants {
        Constants {
            constants: Vec::new(alloc),
        }
    }

    /// The bytes of this name.
    pub fn of(&self, name: &[u8]) -> Result<&[u8], Fault> {
        for constant in self.constants.as_slice() {
            if constant.name.as_slice() == name {
                return Ok(constant.bytes.as_slice());
            }
        }
        Err(Fault::Form)
    }

    /// Makes a constant, whose name must be new.
    pub fn make(&mut self, alloc: Global, name: &[u8], bytes: &[u8]) -> Result<(), Fault> {
        if self.of(name).is_ok() {
            return Err(Fault::Form);
        }
        let constant = made(alloc, name, bytes)?;
        self.constants.push(constant).map_err(AllocError::from)?;
        Ok(())
    }

    /// Adds to a constant; with none of the name makes it.
    pub fn add(&mut self, alloc: Global, name: &[u8], bytes: &[u8]) -> Result<(), Fault> {
        for constant in self.constants.as_mut_slice() {
            if constant.name.as_slice() == name {
                constant.bytes.extend_from_slice(bytes)?;
                return Ok(());
            }
        }
        self.make(alloc, name, bytes)
    }
}

fn made(alloc: Global, name: &[u8], bytes: &[u8]) -> Result<Constant, AllocError> {
    Ok(Constant {
        name: Vec::from_slice(alloc, name)?,
        bytes: Vec::from_slice(alloc, bytes)?,
    })
}
