use crate::alarm::Alarm;
use al_base::{Stamp, Status, Text};
use al_model::{OperatorEntry, Side};
use al_notify::NotifyRule;
use al_select::{CompressFilter, PurgeFilter};
use al_shelf::Shelves;
use al_types::Inventory;

/// What an event does, as places of alarms and new parts, for which all memory is taken. It copies no alarm.
#[derive(Debug, Drop)]
pub enum Change {
    /// The alarm at the place gets a status entry.
    Report {
        place: usize,
        status: Status,
        text: Text,
        /// The same text, for the entry.
        entry_text: Text,
    },
    /// A new alarm is put in at the place.
    Insert {
        place: usize,
        alarm: Alarm,
    },
    /// The alarm at the place gets an operator entry.
    Operate {
        place: usize,
        entry: OperatorEntry,
    },
    /// Each alarm keeps so many status entries from now on, or all.
    Max(Option<u16>),
    /// By this, status changes are told.
    Rule(NotifyRule),
    /// These are the shelves, and of each alarm the entry that it gets by its move, if it moves.
    Shelves {
        shelves: Shelves,
        moves: Vec<Option<OperatorEntry>>,
    },
    /// This is the inventory, and of each alarm the entry that it gets by its move, if it moves.
    Inventory {
        inventory: Inventory,
        moves: Vec<Option<OperatorEntry>>,
    },
    /// The alarms of the side that the filter takes are removed.
    Purge {
        side: Side,
        filter: PurgeFilter,
    },
    /// The alarms of the side that the filter takes keep their newest status entry alone.
    Compress {
        side: Side,
        filter: CompressFilter,
    },
}
