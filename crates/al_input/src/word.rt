//! Words.

ghost use Rattle.al_input.specs.Readers.{word, word_of};
ghost use Rattle.std.specs.Prelude.{◌≡◌, ℕ, List};

use crate::fault::InputFault;
use crate::reader::Reader;
use al_base::{EventType, OperatorState, Severity, Status};
use al_notify::Mode;
use al_select::Clearance;
use serde_json::Value;
use std::alloc::Global;
use std::marker::PhantomData;

/// A value that a word stands for.
pub trait Word: Copy {
    ghost name: { Self → List ℕ };

    ghost words: { List Self };

    /// The value that this word stands for, if for any.
    fn of(text: &[u8]) -> Option<Self>
        ensures { result ≡ word_of name words text.now };
}

/// A word that stands for a value.
pub struct WordOf<W>(PhantomData<W>);

impl<W: Word> Reader for WordOf<W> {
    type Output = W;

    ghost reads = { word W.name W.words };

    #[tactic(auto, unfolding(crate::specs::Readers::word))]
    fn read(_alloc: Global, value: &Value) -> Result<W, InputFault> {
        let Some(text) = value.as_str() else {
            return Err(InputFault::BadValue);
        };
        match W::of(text.as_bytes()) {
            Some(word) => Ok(word),
            None => Err(InputFault::BadValue),
        }
    }
}

impl Word for Severity {
    ghost use Rattle.al_base.specs.Names.{severities, severity_name};

    ghost name = { severity_name };

    ghost words = { severities };

    fn of(text: &[u8]) -> Option<Severity> {
        Severity::read(text)
    }
}

impl Word for Status {
    ghost use Rattle.al_base.specs.Names.{status_name, statuses};

    ghost name = { status_name };

    ghost words = { statuses };

    fn of(text: &[u8]) -> Option<Status> {
        Status::read(text)
    }
}

impl Word for OperatorState {
    ghost use Rattle.al_base.specs.Names.{state_name, states};

    ghost name = { state_name };

    ghost words = { states };

    fn of(text: &[u8]) -> Option<OperatorState> {
        OperatorState::read(text)
    }
}

impl Word for EventType {
    ghost use Rattle.al_base.specs.Names.{event_type_name, event_types};

    ghost name = { event_type_name };

    ghost words = { event_types };

    fn of(text: &[u8]) -> Option<EventType> {
        EventType::read(text)
    }
}

impl Word for Mode {
    ghost use Rattle.al_notify.specs.Modes.{mode_name, modes};

    ghost name = { mode_name };

    ghost words = { modes };

    fn of(text: &[u8]) -> Option<Mode> {
        if text == b"all-state-changes".as_slice() {
            Some(Mode::AllStateChanges)
        } else if text == b"raise-and-clear".as_slice() {
            Some(Mode::RaiseAndClear)
        } else if text == b"severity-level".as_slice() {
            Some(Mode::SeverityLevel)
        } else {
            None
        }
    }
}

impl Word for Clearance {
    ghost use Rattle.al_select.specs.Clearances.{clearance_name, clearances};

    ghost name = { clearance_name };

    ghost words = { clearances };

    fn of(text: &[u8]) -> Option<Clearance> {
        if text == b"any".as_slice() {
            Some(Clearance::Any)
        } else if text == b"cleared".as_slice() {
            Some(Clearance::Cleared)
        } else if text == b"not-cleared".as_slice() {
            Some(Clearance::NotCleared)
        } else {
            None
        }
    }
}
