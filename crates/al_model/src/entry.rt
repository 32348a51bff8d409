use crate::event::Event;
use al_base::{Copied, OperatorState, Stamp, Status, Text};
use std::alloc::{AllocError, Global};

/// One change of the history.
#[derive(Debug)]
pub struct Entry {
    /// Later than the time of the entry before.
    pub time: Stamp,
    /// Who asked for the change: 0 for a session, else the number of a worker.
    pub origin: u16,
    pub event: Event,
}

/// A status that an alarm had (RFC 8632, list `status-change`).
#[derive(Debug)]
pub struct StatusEntry {
    pub time: Stamp,
    pub status: Status,
    pub text: Text,
}

/// What an operator said of an alarm, or how the server moved it between list and shelf (RFC 8632, list `operator-state-change`).
#[derive(Debug)]
pub struct OperatorEntry {
    pub time: Stamp,
    pub state: OperatorState,
    /// `alarmd` where the server moved the alarm.
    pub operator: Text,
    /// The shelf's name where the server moved the alarm.
    pub text: Option<Text>,
}

// By hand, so that an early return has one call for the whole value.

impl Drop for Entry {
    fn drop(self) {
        let Entry {
            time: _,
            origin: _,
            event: _,
        } = self;
    }
}

impl Drop for StatusEntry {
    fn drop(self) {
        let StatusEntry {
            time: _,
            status: _,
            text: _,
        } = self;
    }
}

impl Drop for OperatorEntry {
    fn drop(self) {
        let OperatorEntry {
            time: _,
            state: _,
            operator: _,
            text: _,
        } = self;
    }
}

impl Copied for Entry {
    fn copy(&self, alloc: Global) -> Result<Entry, AllocError> {
        Ok(Entry {
            time: self.time,
            origin: self.origin,
            event: self.event.copy(alloc)?,
        })
    }
}

impl Copied for StatusEntry {
    fn copy(&self, alloc: Global) -> Result<StatusEntry, AllocError> {
        Ok(StatusEntry {
            time: self.time,
            status: self.status,
            text: self.text.copy(alloc)?,
        })
    }
}

impl Copied for OperatorEntry {
    fn copy(&self, alloc: Global) -> Result<OperatorEntry, AllocError> {
        Ok(OperatorEntry {
            time: self.time,
            state: self.state,
            operator: self.operator.copy(alloc)?,
            text: self.text.copy(alloc)?,
        })
    }
}
