ghost use Rattle.std.specs.Prelude.{◌≡◌};
ghost use Rattle.al_model.specs.Decision.{event_by};

use crate::event::{Event, Side};
use al_base::{Copied, OperatorState, Severity, Status, Text};
use al_ids::AlarmKey;
use al_notify::{Mode, NotifyRule};
use al_select::{CompressFilter, PurgeFilter};
use al_shelf::{Shelf, Spot};
use al_types::Inventory;
use std::alloc::{AllocError, Global};

/// What is asked of the alarm list.
#[derive(Debug)]
pub enum Request {
    /// To take a report of a condition: its severity, or that it is over.
    Report {
        key: AlarmKey,
        status: Status,
        text: Text,
    },
    /// To take down what an operator says of an alarm of the list.
    Operate {
        key: AlarmKey,
        /// `None0`, `Ack` or `Closed`.
        state: OperatorState,
        operator: Text,
        text: Option<Text>,
    },
    /// To let each alarm keep so many status entries, at least 1, or all of them.
    SetMax(Option<u16>),
    /// To tell status changes in another mode.
    SetMode(Mode),
    /// To tell status changes by another level.
    SetLevel(Severity),
    /// To put a shelf of a new name at this spot.
    CreateShelf {
        shelf: Shelf,
        spot: Spot,
    },
    /// To put a shelf at this spot, whether its name is new or not.
    PutShelf {
        shelf: Shelf,
        spot: Spot,
    },
    /// To take the shelf of this name away.
    DropShelf {
        name: Text,
    },
    /// To remove alarms of one side for good.
    Purge {
        side: Side,
        filter: PurgeFilter,
    },
    /// To let alarms of one side keep their newest status entry alone.
    Compress {
        side: Side,
        filter: CompressFilter,
    },
    /// To declare what alarms the device may raise.
    Install(Inventory),
}

impl Request {
    /// The event by which it is carried out, with what the request has. It changes one part of the rule, and leaves the other; a shelf is
    /// put at the place.
    pub fn into_event(self, rule: &NotifyRule, place: u8) -> Event
        ensures { result ≡ event_by rule.now place self }
    {
        let NotifyRule { mode, level } = *rule;
        match self {
            Request::Report { key, status, text } => Event::Report { key, status, text },
            Request::Operate {
                key,
                state,
                operator,
                text,
            } => Event::Operate {
                key,
                state,
                operator,
                text,
            },
            Request::SetMax(max) => Event::SetMax(max),
            Request::SetMode(mode) => Event::SetNotify(NotifyRule { mode, level }),
            Request::SetLevel(level) => Event::SetNotify(NotifyRule { mode, level }),
            Request::CreateShelf { shelf, spot: _spot } => Event::PutShelf { shelf, at: place },
            Request::PutShelf { shelf, spot: _spot } => Event::PutShelf { shelf, at: place },
            Request::DropShelf { name } => Event::DropShelf { name },
            Request::Purge { side, filter } => Event::Purge { side, filter },
            Request::Compress { side, filter } => Event::Compress { side, filter },
            Request::Install(inventory) => Event::Install(inventory),
        }
    }
}

// By hand, so that an early return has one call for the whole value.
impl Drop for Request {
    fn drop(self) {
        match self {
            Request::Report {
                key: _,
                status: _,
                text: _,
            } => {}
            Request::Operate {
                key: _,
                state: _,
                operator: _,
                text: _,
            } => {}
            Request::SetMax(_) | Request::SetMode(_) | Request::SetLevel(_) => {}
            Request::CreateShelf { shelf: _, spot: _ } => {}
            Request::PutShelf { shelf: _, spot: _ } => {}
            Request::DropShelf { name: _ } => {}
            Request::Purge { side: _, filter: _ } => {}
            Request::Compress { side: _, filter: _ } => {}
            Request::Install(_) => {}
        }
    }
}

impl Copied for Request {
    fn copy(&self, alloc: Global) -> Result<Request, AllocError> {
        Ok(match self {
            Request::Report { key, status, text } => Request::Report {
                key: key.copy(alloc)?,
                status: *status,
                text: text.copy(alloc)?,
            },
            Request::Operate {
                key,
                state,
                operator,
                text,
            } => Request::Operate {
                key: key.copy(alloc)?,
                state: *state,
                operator: operator.copy(alloc)?,
                text: text.copy(alloc)?,
            },
            Request::SetMax(max) => Request::SetMax(*max),
            Request::SetMode(mode) => Request::SetMode(*mode),
            Request::SetLevel(level) => Request::SetLevel(*level),
            Request::CreateShelf { shelf, spot } => Request::CreateShelf {
                shelf: shelf.copy(alloc)?,
                spot: spot.copy(alloc)?,
            },
            Request::PutShelf { shelf, spot } => Request::PutShelf {
                shelf: shelf.copy(alloc)?,
                spot: spot.copy(alloc)?,
            },
            Request::DropShelf { name } => Request::DropShelf {
                name: name.copy(alloc)?,
            },
            Request::Purge { side, filter } => Request::Purge {
                side: *side,
                filter: filter.copy(alloc)?,
            },
            Request::Compress { side, filter } => Request::Compress {
                side: *side,
                filter: filter.copy(alloc)?,
            },
            Request::Install(inventory) => Request::Install(inventory.copy(alloc)?),
        })
    }
}
