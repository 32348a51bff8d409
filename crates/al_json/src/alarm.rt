//! Alarms.

ghost use Rattle.al_fields.specs.Members.{fields_by, object_of};
ghost use Rattle.al_json.specs.Alarms.{alarm_fields, alarm_tree, created_on, event_type_of};
ghost use Rattle.al_json.specs.Pieces.{inner_data};
ghost use Rattle.al_model.specs.Validity.{IsMarked};
ghost use Rattle.al_fields.specs.Leaves.{leaf_data};
ghost use Rattle.al_model.specs.State.{listed, shelved};
ghost use Rattle.std.specs.Prelude.{◌≡◌, IfSome, option_copied, option_map, slice_get};

use crate::inner::Inner;
use al_base::Stamp;
use al_fields::{Field, Leaf, Object, Series, Shown, fields};
use al_ids::AlarmKey;
use al_lists::{Alarm, Tables};
use al_model::Side;
use serde_json::Value;
use std::alloc::{AllocError, Global};

/// An alarm of the side (RFC 8632, lists `alarm` and `shelved-alarm`).
#[tactic(auto, using(crate::proofs::AlarmFields::table_rises, crate::proofs::AlarmFields::table_tree))]
pub(crate) fn alarm_object<'a>(
    tables: &'a Tables,
    side: Side,
    alarm: &'a Alarm,
) -> Object<[Field<Inner<'a>>; 13]>
    requires { IsMarked tables.now.state alarm.now.state }
    ensures { object_of (fields_by inner_data result.table)
        ≡ alarm_tree tables.now.state side alarm.now.state }
{
    let table = alarm_table(tables, side, alarm);
    Object { table }
}

fn alarm_table<'a>(tables: &'a Tables, side: Side, alarm: &'a Alarm) -> [Field<Inner<'a>>; 13]
    requires { IsMarked tables.now.state alarm.now.state }
    ensures { fields_by inner_data result ≡ alarm_fields tables.now.state side alarm.now.state }
{
    fields! {
        "alarm-text": Inner::Leaf(Leaf::Text(alarm.text())),
        "alarm-type-id": Inner::Leaf(Leaf::Text(alarm.key().type_id.text())),
        "alarm-type-qualifier": Inner::Leaf(Leaf::Text(&alarm.key().qualifier)),
        "ietf-alarms-x733:event-type": Inner::Leaf(event_type(tables, alarm.key())),
        "is-cleared": Inner::Leaf(Leaf::Flag(alarm.cleared())),
        "last-changed": Inner::Leaf(Leaf::Time(alarm.changed())),
        "last-raised": Inner::Leaf(Leaf::Time(alarm.raised())),
        "operator-state-change": Inner::Operators(alarm),
        "perceived-severity": Inner::Leaf(Leaf::Word(alarm.severity().name())),
        "resource": Inner::Leaf(Leaf::Text(alarm.key().resource.text())),
        "shelf-name": Inner::Leaf(Leaf::of_text(alarm.shelf_name())),
        "status-change": Inner::Statuses(alarm),
        "time-created": Inner::Leaf(created(side, alarm.created())),
    }
}

/// The event type that the inventory has for the alarms of the key.
fn event_type<'a>(tables: &'a Tables, key: &AlarmKey) -> Leaf<'a>
    ensures { leaf_data result ≡ event_type_of tables.now.state key.now }
{
    match tables.inventory() {
        Some(inventory) => match inventory.row(&key.type_id, &key.qualifier) {
            Some(row) => Leaf::Word(row.event_type.name()),
            None => Leaf::Absent,
        },
        None => Leaf::Absent,
    }
}

fn created<'a>(side: Side, time: Stamp) -> Leaf<'a>
    ensures { leaf_data result ≡ created_on side time }
{
    match side {
        Side::List => Leaf::Time(time),
        Side::Shelf => Leaf::Absent,
    }
}

/// The alarms of the list, in the order of their keys.
#[derive(Clone, Copy)]
pub(crate) struct Listed<'a>(pub(crate) &'a Tables);

impl<'a> Listed<'a> {
    /// The alarm at this index.
    #[tactic(auto, using(crate::proofs::Marks::at_marked))]
    fn found(&self, i: usize) -> Option<&'a Alarm>
        ensures alarm { option_map (λ v. v.state) (option_copied result)
            ≡ slice_get (listed self.now.0.now.state) i }
        ensures marked { IfSome result (λ a. IsMarked self.now.0.now.state a.now.state) }
    {
        self.0.state_is_valid();
        match self.0.alarm_at(i) {
            Some(alarm) => Some(alarm),
            None => None,
        }
    }
}

impl<'a> Series for Listed<'a> {
    ghost use Rattle.al_json.specs.Alarms.{listed_trees};

    ghost trees = { λ s. listed_trees s.0.now.state };

    fn count(&self) -> usize {
        self.0.alarms()
    }

    fn value_at(&self, alloc: Global, i: usize) -> Result<Option<Value>, AllocError> {
        match self.found(i) {
            Some(found) => alarm_object(self.0, Side::List, found).value(alloc),
            None => Ok(None),
        }
    }

    fn put_at(&self, out: &mut Vec<u8>, i: usize) {
        if let Some(found) = self.found(i) {
            alarm_object(self.0, Side::List, found).put(out);
        }
    }

    fn len_at(&self, i: usize) -> u64 {
        match self.found(i) {
            Some(found) => alarm_object(self.0, Side::List, found).text_len(),
            None => 0,
        }
    }
}

/// The alarms on shelves, in the order of their keys.
#[derive(Clone, Copy)]
pub(crate) struct Shelved<'a>(pub(crate) &'a Tables);

impl<'a> Shelved<'a> {
    /// The alarm at this index.
    #[tactic(auto, using(crate::proofs::Marks::at_marked))]
    fn found(&self, i: usize) -> Option<&'a Alarm>
        ensures alarm { option_map (λ v. v.state) (option_copied result)
            ≡ slice_get (shelved self.now.0.now.state) i }
        ensures marked { IfSome result (λ a. IsMarked self.now.0.now.state a.now.state) }
    {
        self.0.state_is_valid();
        match self.0.shelved_at(i) {
            Some(alarm) => Some(alarm),
            None => None,
        }
    }
}

impl<'a> Series for Shelved<'a> {
    ghost use Rattle.al_json.specs.Alarms.{shelved_trees};

    ghost trees = { λ s. shelved_trees s.0.now.state };

    fn count(&self) -> usize {
        self.0.shelved_count()
    }

    fn value_at(&self, alloc: Global, i: usize) -> Result<Option<Value>, AllocError> {
        match self.found(i) {
            Some(found) => alarm_object(self.0, Side::Shelf, found).value(alloc),
            None => Ok(None),
        }
    }

    fn put_at(&self, out: &mut Vec<u8>, i: usize) {
        if let Some(found) = self.found(i) {
            alarm_object(self.0, Side::Shelf, found).put(out);
        }
    }

    fn len_at(&self, i: usize) -> u64 {
        match self.found(i) {
            Some(found) => alarm_object(self.0, Side::Shelf, found).text_len(),
            None => 0,
        }
    }
}
