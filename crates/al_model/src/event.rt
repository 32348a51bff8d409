use al_base::{Copied, OperatorState, Status, Text};
use al_ids::AlarmKey;
use al_notify::NotifyRule;
use al_select::{CompressFilter, PurgeFilter};
use al_shelf::Shelf;
use al_types::Inventory;
use std::alloc::{AllocError, Global};

/// Where alarms stand: on the list, or on one of the shelves.
#[derive(Clone, Copy, Debug, PartialEq, Eq)]
pub enum Side {
    List,
    Shelf,
}

/// What happens to the state.
#[derive(Debug)]
pub enum Event {
    /// Instrumentation reports a condition: its severity, or that it is over.
    Report {
        key: AlarmKey,
        status: Status,
        text: Text,
    },
    /// An operator says something of an alarm of the list.
    Operate {
        key: AlarmKey,
        /// `None0`, `Ack` or `Closed`.
        state: OperatorState,
        operator: Text,
        text: Option<Text>,
    },
    /// Each alarm keeps so many status entries from now on, at least 1, or all of them.
    SetMax(Option<u16>),
    /// Status changes are told by this rule from now on.
    SetNotify(NotifyRule),
    /// A shelf stands at this position, in place of one of its name that stood anywhere.
    PutShelf {
        shelf: Shelf,
        at: u8,
    },
    /// The shelf of this name is taken away.
    DropShelf {
        name: Text,
    },
    /// Alarms of one side go for good.
    Purge {
        side: Side,
        filter: PurgeFilter,
    },
    /// Alarms of one side keep their newest status entry alone.
    Compress {
        side: Side,
        filter: CompressFilter,
    },
    /// What alarms the device may raise is declared.
    Install(Inventory),
}

// By hand, so that an early return has one call for the whole value.
impl Drop for Event {
    fn drop(self) {
        match self {
            Event::Report {
                key: _,
                status: _,
                text: _,
            } => {}
            Event::Operate {
                key: _,
                state: _,
                operator: _,
                text: _,
            } => {}
            Event::SetMax(_) | Event::SetNotify(_) => {}
            Event::PutShelf { shelf: _, at: _ } => {}
            Event::DropShelf { name: _ } => {}
            Event::Purge { side: _, filter: _ } => {}
            Event::Compress { side: _, filter: _ } => {}
            Event::Install(_) => {}
        }
    }
}

impl Copied for Side {
    fn copy(&self, _alloc: Global) -> Result<Side, AllocError> {
        Ok(*self)
    }
}

impl Copied for Event {
    fn copy(&self, alloc: Global) -> Result<Event, AllocError> {
        Ok(match self {
            Event::Report { key, status, text } => Event::Report {
                key: key.copy(alloc)?,
                status: *status,
                text: text.copy(alloc)?,
            },
            Event::Operate {
                key,
                state,
                operator,
                text,
            } => Event::Operate {
                key: key.copy(alloc)?,
                state: *state,
                operator: operator.copy(alloc)?,
                text: text.copy(alloc)?,
            },
            Event::SetMax(max) => Event::SetMax(*max),
            Event::SetNotify(rule) => Event::SetNotify(*rule),
            Event::PutShelf { shelf, at } => Event::PutShelf {
                shelf: shelf.copy(alloc)?,
                at: *at,
            },
            Event::DropShelf { name } => Event::DropShelf {
                name: name.copy(alloc)?,
            },
            Event::Purge { side, filter } => Event::Purge {
                side: *side,
                filter: filter.copy(alloc)?,
            },
            Event::Compress { side, filter } => Event::Compress {
                side: *side,
                filter: filter.copy(alloc)?,
            },
            Event::Install(inventory) => Event::Install(inventory.copy(alloc)?),
        })
    }
}
