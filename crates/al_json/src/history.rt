//! An alarm's histories.

ghost use Rattle.al_fields.specs.Leaves.{leaf_data};
ghost use Rattle.al_fields.specs.Members.{fields_by, object_of};
ghost use Rattle.al_json.specs.Histories.{operator_tree, status_tree};
ghost use Rattle.std.specs.Prelude.{◌≡◌};

use al_fields::{Field, Leaf, Object, Series, Shown, object};
use al_lists::Alarm;
use al_model::{OperatorEntry, StatusEntry};
use serde_json::Value;
use std::alloc::{AllocError, Global};

/// A status change (RFC 8632, list `status-change`).
#[tactic(auto, unfolding(crate::specs::Histories::status_tree))]
pub(crate) fn status_object(entry: &StatusEntry) -> Object<[Field<Leaf<'_>>; 3]>
    ensures { object_of (fields_by leaf_data result.table) ≡ status_tree entry.now }
{
    object! {
        "alarm-text": Leaf::Text(&entry.text),
        "perceived-severity": Leaf::Word(entry.status.name()),
        "time": Leaf::Time(entry.time),
    }
}

/// What an operator said, or how the server moved the alarm (RFC 8632, list `operator-state-change`).
#[tactic(auto, unfolding(crate::specs::Histories::operator_tree))]
pub(crate) fn operator_object(entry: &OperatorEntry) -> Object<[Field<Leaf<'_>>; 4]>
    ensures { object_of (fields_by leaf_data result.table) ≡ operator_tree entry.now }
{
    object! {
        "operator": Leaf::Text(&entry.operator),
        "state": Leaf::Word(entry.state.name()),
        "text": Leaf::of_text(entry.text.as_ref()),
        "time": Leaf::Time(entry.time),
    }
}

/// The status changes of an alarm.
#[derive(Clone, Copy)]
pub(crate) struct Statuses<'a>(pub(crate) &'a Alarm);

impl<'a> Series for Statuses<'a> {
    ghost use Rattle.al_json.specs.Histories.{status_tree};
    ghost use Rattle.std.specs.Prelude.{map};

    ghost trees = { λ s. map status_tree s.0.now.state.statuses };

    fn count(&self) -> usize {
        self.0.statuses()
    }

    fn value_at(&self, alloc: Global, i: usize) -> Result<Option<Value>, AllocError> {
        match self.0.status_at(i) {
            Some(found) => status_object(found).value(alloc),
            None => Ok(None),
        }
    }

    fn put_at(&self, out: &mut Vec<u8>, i: usize) {
        if let Some(found) = self.0.status_at(i) {
            status_object(found).put(out);
        }
    }

    fn len_at(&self, i: usize) -> u64 {
        match self.0.status_at(i) {
            Some(found) => status_object(found).text_len(),
            None => 0,
        }
    }
}

/// The operator entries of an alarm.
#[derive(Clone, Copy)]
pub(crate) struct Operators<'a>(pub(crate) &'a Alarm);

impl<'a> Series for Operators<'a> {
    ghost use Rattle.al_json.specs.Histories.{operator_tree};
    ghost use Rattle.std.specs.Prelude.{map};

    ghost trees = { λ s. map operator_tree s.0.now.state.operators };

    fn count(&self) -> usize {
        self.0.operators()
    }

    fn value_at(&self, alloc: Global, i: usize) -> Result<Option<Value>, AllocError> {
        match self.0.operator_at(i) {
            Some(found) => operator_object(found).value(alloc),
            None => Ok(None),
        }
    }

    fn put_at(&self, out: &mut Vec<u8>, i: usize) {
        if let Some(found) = self.0.operator_at(i) {
            operator_object(found).put(out);
        }
    }

    fn len_at(&self, i: usize) -> u64 {
        match self.0.operator_at(i) {
            Some(found) => operator_object(found).text_len(),
            None => 0,
        }
    }
}
