//! The containers.

ghost use Rattle.al_fields.specs.Members.{fields_by, object_of};
ghost use Rattle.al_json.specs.Alarms.{alarm_list_tree, shelved_alarms_tree};
ghost use Rattle.al_json.specs.Inventories.{alarm_inventory_tree, inventory_tree};
ghost use Rattle.al_json.specs.Notes.{log_tree};
ghost use Rattle.al_json.specs.Pieces.{outer_data};
ghost use Rattle.std.specs.Prelude.{◌≡◌};

use crate::outer::Outer;
use al_fields::{Field, Leaf, Object, object};
use al_lists::Tables;
use al_notify::NoteLog;
use al_types::{Inventory, Row};

/// RFC 8632, container `alarm-inventory`.
#[tactic(auto, unfolding(crate::specs::Inventories::alarm_inventory_tree))]
pub(crate) fn alarm_inventory_object(rows: &[Row]) -> Object<[Field<Outer<'_>>; 1]>
    ensures { object_of (fields_by outer_data result.table) ≡ alarm_inventory_tree rows.now }
{
    object! { "alarm-type": Outer::Rows(rows) }
}

/// RFC 8632, container `alarm-list`.
#[tactic(auto, unfolding(crate::specs::Alarms::alarm_list_tree))]
pub(crate) fn alarm_list_object(tables: &Tables) -> Object<[Field<Outer<'_>>; 3]>
    ensures { object_of (fields_by outer_data result.table) ≡ alarm_list_tree tables.now.state }
{
    object! {
        "alarm": Outer::Listed(tables),
        "last-changed": Outer::Leaf(Leaf::of_time(tables.list_changed())),
        "number-of-alarms": Outer::Leaf(Leaf::Number(tables.alarms() as u64)),
    }
}

/// RFC 8632, container `shelved-alarms`.
#[tactic(auto, unfolding(crate::specs::Alarms::shelved_alarms_tree))]
pub(crate) fn shelved_alarms_object(tables: &Tables) -> Object<[Field<Outer<'_>>; 3]>
    ensures { object_of (fields_by outer_data result.table) ≡ shelved_alarms_tree tables.now.state }
{
    object! {
        "number-of-shelved-alarms": Outer::Leaf(Leaf::Number(tables.shelved_count() as u64)),
        "shelved-alarm": Outer::Shelved(tables),
        "shelved-alarms-last-changed": Outer::Leaf(Leaf::of_time(tables.shelf_changed())),
    }
}

/// The project's own container `inventory`.
#[tactic(auto, unfolding(crate::specs::Inventories::inventory_tree))]
pub(crate) fn inventory_object(inventory: &Inventory) -> Object<[Field<Outer<'_>>; 2]>
    ensures { object_of (fields_by outer_data result.table) ≡ inventory_tree inventory.now }
{
    object! {
        "alarm-type": Outer::Rows(inventory.rows()),
        "identity": Outer::Identities(inventory.identities()),
    }
}

/// The project's own container `notification-log`.
#[tactic(auto, unfolding(crate::specs::Notes::log_tree))]
pub(crate) fn log_object(log: &NoteLog, start: u32) -> Object<[Field<Outer<'_>>; 3]>
    ensures { object_of (fields_by outer_data result.table) ≡ log_tree log.now start }
{
    object! {
        "note": Outer::Notes(log, start),
        "oldest": Outer::Leaf(Leaf::Number(u64::from(log.oldest()))),
        "sent": Outer::Leaf(Leaf::Number(u64::from(log.sent()))),
    }
}
