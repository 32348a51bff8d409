use al_base::{Copied, OperatorState, Stamp, Status, Text};
use al_ids::AlarmKey;
use std::alloc::{AllocError, Global};

/// What a notification tells.
#[derive(Debug)]
pub enum NoteBody {
    /// The alarm of the key has this status, with its text (RFC 8632, `alarm-notification`).
    Status(AlarmKey, Status, Text),
    /// The operator has said this of the alarm of the key (RFC 8632, `operator-action`).
    Action(AlarmKey, Text, OperatorState, Option<Text>),
}

/// A notification of the log.
#[derive(Debug)]
pub struct Note {
    /// Counted from 1 over all that were sent.
    pub number: u32,
    pub time: Stamp,
    pub body: NoteBody,
}

// By hand, so that an early return has one call for the whole value.

impl Drop for NoteBody {
    fn drop(self) {
        match self {
            NoteBody::Status(_, _, _) | NoteBody::Action(_, _, _, _) => {}
        }
    }
}

impl Drop for Note {
    fn drop(self) {
        let Note {
            number: _,
            time: _,
            body: _,
        } = self;
    }
}

impl Copied for NoteBody {
    fn copy(&self, alloc: Global) -> Result<NoteBody, AllocError> {
        match self {
            NoteBody::Status(key, status, text) => Ok(NoteBody::Status(
                key.copy(alloc)?,
                *status,
                text.copy(alloc)?,
            )),
            NoteBody::Action(key, operator, state, text) => Ok(NoteBody::Action(
                key.copy(alloc)?,
                operator.copy(alloc)?,
                *state,
                text.copy(alloc)?,
            )),
        }
    }
}

impl Copied for Note {
    fn copy(&self, alloc: Global) -> Result<Note, AllocError> {
        Ok(Note {
            number: self.number,
            time: self.time,
            body: self.body.copy(alloc)?,
        })
    }
}
