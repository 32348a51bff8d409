//! Words, each in the byte of its code.

ghost use Rattle.al_frame.specs.Codes.{with_code};
ghost use Rattle.al_frame.specs.Frames.{word};
ghost use Rattle.std.specs.Prelude.{◌≡◌, ℕ, List, true, false};

use crate::fault::FrameFault;
use crate::field::Field;
use crate::number::{bad, u8_at};
use al_base::{EventType, OperatorState, Severity, Status};
use al_model::Side;
use al_notify::Mode;
use al_select::{Clearance, Compare};
use std::alloc::{AllocError, Global};
use std::marker::PhantomData;

/// A word that has a code.
pub trait Word: Copy {
    ghost code_of: { Self → ℕ };

    ghost words: { List Self };

    /// The word of this code, if there is one.
    fn of(code: u8) -> Option<Self>
        ensures { result ≡ with_code code_of words code };

    fn code(self) -> u8
        ensures { result ≡ code_of self };
}

/// A word, in the byte of its code.
pub struct Coded<W>(PhantomData<W>);

impl<W: Word> Field for Coded<W> {
    type Value = W;

    ghost format = { word W.code_of W.words };

    fn read(_alloc: Global, n: usize, bytes: &[u8]) -> Result<(W, &[u8]), FrameFault> {
        let (code, rest) = u8_at(n, bytes)?;
        match W::of(code) {
            Some(word) => Ok((word, rest)),
            None => Err(bad(n, bytes)),
        }
    }

    fn len(_word: &W) -> usize {
        1
    }

    fn put(word: &W, out: &mut Vec<u8>) -> Result<(), AllocError> {
        out.push(word.code())?;
        Ok(())
    }
}

impl Word for Severity {
    ghost use Rattle.al_frame.specs.Codes.{severity_code};
    ghost use Rattle.al_base.specs.Names.{severities};

    ghost code_of = { severity_code };

    ghost words = { severities };

    fn of(code: u8) -> Option<Severity> {
        match code {
            1 => Some(Severity::Indeterminate),
            2 => Some(Severity::Warning),
            3 => Some(Severity::Minor),
            4 => Some(Severity::Major),
            5 => Some(Severity::Critical),
            _ => None,
        }
    }

    fn code(self) -> u8 {
        match self {
            Severity::Indeterminate => 1,
            Severity::Warning => 2,
            Severity::Minor => 3,
            Severity::Major => 4,
            Severity::Critical => 5,
        }
    }
}

impl Word for Status {
    ghost use Rattle.al_frame.specs.Codes.{status_code};
    ghost use Rattle.al_base.specs.Names.{statuses};

    ghost code_of = { status_code };

    ghost words = { statuses };

    fn of(code: u8) -> Option<Status> {
        match code {
            0 => Some(Status::Cleared),
            1 => Some(Status::Active(Severity::Indeterminate)),
            2 => Some(Status::Active(Severity::Warning)),
            3 => Some(Status::Active(Severity::Minor)),
            4 => Some(Status::Active(Severity::Major)),
            5 => Some(Status::Active(Severity::Critical)),
            _ => None,
        }
    }

    fn code(self) -> u8 {
        match self {
            Status::Cleared => 0,
            Status::Active(severity) => severity.code(),
        }
    }
}

impl Word for OperatorState {
    ghost use Rattle.al_base.specs.Names.{state_number, states};

    ghost code_of = { state_number };

    ghost words = { states };

    fn of(code: u8) -> Option<OperatorState> {
        match code {
            0 => Some(OperatorState::None0),
            1 => Some(OperatorState::Ack),
            2 => Some(OperatorState::Closed),
            3 => Some(OperatorState::Shelved),
            4 => Some(OperatorState::UnShelved),
            _ => None,
        }
    }

    fn code(self) -> u8 {
        match self {
            OperatorState::None0 => 0,
            OperatorState::Ack => 1,
            OperatorState::Closed => 2,
            OperatorState::Shelved => 3,
            OperatorState::UnShelved => 4,
        }
    }
}

impl Word for Mode {
    ghost use Rattle.al_notify.specs.Modes.{mode_number, modes};

    ghost code_of = { mode_number };

    ghost words = { modes };

    fn of(code: u8) -> Option<Mode> {
        match code {
            0 => Some(Mode::AllStateChanges),
            1 => Some(Mode::RaiseAndClear),
            2 => Some(Mode::SeverityLevel),
            _ => None,
        }
    }

    fn code(self) -> u8 {
        match self {
            Mode::AllStateChanges => 0,
            Mode::RaiseAndClear => 1,
            Mode::SeverityLevel => 2,
        }
    }
}

impl Word for Side {
    ghost use Rattle.al_frame.specs.Codes.{both_sides, side_code};

    ghost code_of = { side_code };

    ghost words = { both_sides };

    fn of(code: u8) -> Option<Side> {
        match code {
            0 => Some(Side::List),
            1 => Some(Side::Shelf),
            _ => None,
        }
    }

    fn code(self) -> u8 {
        match self {
            Side::List => 0,
            Side::Shelf => 1,
        }
    }
}

impl Word for Clearance {
    ghost use Rattle.al_select.specs.Clearances.{clearance_number, clearances};

    ghost code_of = { clearance_number };

    ghost words = { clearances };

    fn of(code: u8) -> Option<Clearance> {
        match code {
            0 => Some(Clearance::Any),
            1 => Some(Clearance::Cleared),
            2 => Some(Clearance::NotCleared),
            _ => None,
        }
    }

    fn code(self) -> u8 {
        match self {
            Clearance::Any => 0,
            Clearance::Cleared => 1,
            Clearance::NotCleared => 2,
        }
    }
}

impl Word for Compare {
    ghost use Rattle.al_frame.specs.Codes.{compare_code, comparisons};

    ghost code_of = { compare_code };

    ghost words = { comparisons };

    fn of(code: u8) -> Option<Compare> {
        match code {
            1 => Some(Compare::Below),
            2 => Some(Compare::Equal),
            3 => Some(Compare::Above),
            _ => None,
        }
    }

    fn code(self) -> u8 {
        match self {
            Compare::Below => 1,
            Compare::Equal => 2,
            Compare::Above => 3,
        }
    }
}

impl Word for bool {
    ghost use Rattle.al_frame.specs.Codes.{flag_code, flags};

    ghost code_of = { flag_code };

    ghost words = { flags };

    fn of(code: u8) -> Option<bool> {
        match code {
            0 => Some(false),
            1 => Some(true),
            _ => None,
        }
    }

    fn code(self) -> u8 {
        u8::from(self)
    }
}

impl Word for EventType {
    ghost use Rattle.al_base.specs.Names.{event_type_number, event_types};

    ghost code_of = { event_type_number };

    ghost words = { event_types };

    fn of(code: u8) -> Option<EventType> {
        match code {
            1 => Some(EventType::Other),
            2 => Some(EventType::CommunicationsAlarm),
            3 => Some(EventType::QualityOfServiceAlarm),
            4 => Some(EventType::ProcessingErrorAlarm),
            5 => Some(EventType::EquipmentAlarm),
            6 => Some(EventType::EnvironmentalAlarm),
            7 => Some(EventType::IntegrityViolation),
            8 => Some(EventType::OperationalViolation),
            9 => Some(EventType::PhysicalViolation),
            10 => Some(EventType::SecurityServiceOrMechanismViolation),
            11 => Some(EventType::TimeDomainViolation),
            _ => None,
        }
    }

    fn code(self) -> u8 {
        match self {
            EventType::Other => 1,
            EventType::CommunicationsAlarm => 2,
            EventType::QualityOfServiceAlarm => 3,
            EventType::ProcessingErrorAlarm => 4,
            EventType::EquipmentAlarm => 5,
            EventType::EnvironmentalAlarm => 6,
            EventType::IntegrityViolation => 7,
            EventType::OperationalViolation => 8,
            EventType::PhysicalViolation => 9,
            EventType::SecurityServiceOrMechanismViolation => 10,
            EventType::TimeDomainViolation => 11,
        }
    }
}
