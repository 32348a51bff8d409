//! Why a text is no pattern.

ghost use Rattle.std.specs.Prelude.{◌≡◌};
ghost use Rattle.al_pattern.specs.declared.fault.ReadError.TheVariants.{Memory};
ghost use Rattle.al_pattern.specs.declared.fault.ReadError.TheVariants as errors;
ghost use Rattle.al_pattern.specs.declared.fault.PatternFault.TheVariants as faults;

use std::alloc::{AllocError, AllocFailed};

/// What is wrong at a place of the text.
#[derive(Clone, Copy)]
pub enum FaultKind {
    /// No pattern has this byte here, or the text ends too soon, or a range falls.
    Syntax,
    /// A form of other pattern languages that this profile leaves out.
    Unsupported,
    /// The byte begins one node more than a pattern may have.
    TooLarge,
    /// The byte opens one group more than may be open.
    TooDeep,
}

/// A fault, by the number of bytes from its place to the end of the text.
#[derive(Clone, Copy)]
pub struct Fault {
    pub kind: FaultKind,
    pub left: usize,
}

/// Why a reader stopped.
#[derive(Drop)]
pub enum ReadError {
    Fault(Fault),
    Memory,
}

impl From<Fault> for ReadError {
    ghost from_gives = { λ f e. e ≡ errors.Fault f };

    fn from(fault: Fault) -> ReadError {
        ReadError::Fault(fault)
    }
}

impl From<AllocError> for ReadError {
    ghost from_gives = { λ _ e. e ≡ Memory };

    fn from(_e: AllocError) -> ReadError {
        ReadError::Memory
    }
}

impl<T: Drop> From<AllocFailed<T>> for ReadError {
    ghost from_gives = { λ _ e. e ≡ Memory };

    fn from(_e: AllocFailed<T>) -> ReadError {
        ReadError::Memory
    }
}

/// Why a text is no pattern; each place counts bytes from the front.
#[derive(Clone, Copy, Debug, PartialEq, Eq)]
pub enum PatternFault {
    /// No pattern has this byte here, or the text ends too soon, or a range that begins here falls.
    Syntax(usize),
    /// A form of other pattern languages that this profile leaves out.
    Unsupported(usize),
    /// The byte begins node 257.
    TooLarge(usize),
    /// The byte opens the seventeenth group inside groups.
    TooDeep(usize),
    /// Memory ran out, which says nothing of the text.
    Memory,
}

impl From<AllocError> for PatternFault {
    ghost from_gives = { λ _ e. e ≡ faults.Memory };

    fn from(_e: AllocError) -> PatternFault {
        PatternFault::Memory
    }
}
