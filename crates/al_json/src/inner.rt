//! What stands in alarms, shelves, rows and notes.

use crate::history::{Operators, Statuses};
use crate::inventory::{Severities, Texts};
use crate::note::{action_object, notification_object};
use crate::shelf::{Resources, Types};
use crate::summary::Counts;
use al_base::{OperatorState, Stamp, Status, Text};
use al_fields::{Items, Leaf, Shown};
use al_ids::{AlarmKey, ResourceMatch};
use al_lists::{Alarm, Summary};
use al_shelf::TypeMatch;
use al_types::Row;
use serde_json::Value;
use std::alloc::{AllocError, Global};

/// What a member of an alarm, of a shelf, of a row or of a note says.
#[derive(Clone, Copy)]
pub enum Inner<'a> {
    Leaf(Leaf<'a>),
    /// The status changes of an alarm.
    Statuses(&'a Alarm),
    /// The operator entries of an alarm.
    Operators(&'a Alarm),
    /// Criteria on types.
    Types(&'a [TypeMatch]),
    /// Criteria on resources.
    Resources(&'a [ResourceMatch]),
    Texts(&'a [Text]),
    /// The counts of all severities.
    Counts(&'a Summary),
    /// The severities of a row.
    Severities(&'a Row),
    /// The alarm of the key has got this status, with its text.
    Notification(Stamp, &'a AlarmKey, Status, &'a Text),
    /// The operator has said this of the alarm of the key.
    Action(Stamp, &'a AlarmKey, &'a Text, OperatorState, Option<&'a Text>),
}

impl Shown for Inner<'_> {
    ghost use Rattle.al_json.specs.Pieces.{inner_data};

    ghost said = { inner_data };

    fn is_there(&self) -> bool {
        match self {
            Inner::Leaf(leaf) => leaf.is_there(),
            Inner::Statuses(alarm) => Items(Statuses(alarm)).is_there(),
            Inner::Operators(alarm) => Items(Operators(alarm)).is_there(),
            Inner::Types(types) => Items(Types(types)).is_there(),
            Inner::Resources(resources) => Items(Resources(resources)).is_there(),
            Inner::Texts(texts) => Items(Texts(texts)).is_there(),
            Inner::Counts(summary) => Items(Counts(summary)).is_there(),
            Inner::Severities(row) => Items(Severities(row)).is_there(),
            Inner::Notification(time, key, status, text) => {
                notification_object(*time, key, *status, text).is_there()
            }
            Inner::Action(time, key, operator, state, text) => {
                action_object(*time, key, operator, *state, *text).is_there()
            }
        }
    }

    fn value(&self, alloc: Global) -> Result<Option<Value>, AllocError> {
        match self {
            Inner::Leaf(leaf) => leaf.value(alloc),
            Inner::Statuses(alarm) => Items(Statuses(alarm)).value(alloc),
            Inner::Operators(alarm) => Items(Operators(alarm)).value(alloc),
            Inner::Types(types) => Items(Types(types)).value(alloc),
            Inner::Resources(resources) => Items(Resources(resources)).value(alloc),
            Inner::Texts(texts) => Items(Texts(texts)).value(alloc),
            Inner::Counts(summary) => Items(Counts(summary)).value(alloc),
            Inner::Severities(row) => Items(Severities(row)).value(alloc),
            Inner::Notification(time, key, status, text) => {
                notification_object(*time, key, *status, text).value(alloc)
            }
            Inner::Action(time, key, operator, state, text) => {
                action_object(*time, key, operator, *state, *text).value(alloc)
            }
        }
    }

    fn put(&self, out: &mut Vec<u8>) {
        match self {
            Inner::Leaf(leaf) => leaf.put(out),
            Inner::Statuses(alarm) => Items(Statuses(alarm)).put(out),
            Inner::Operators(alarm) => Items(Operators(alarm)).put(out),
            Inner::Types(types) => Items(Types(types)).put(out),
            Inner::Resources(resources) => Items(Resources(resources)).put(out),
            Inner::Texts(texts) => Items(Texts(texts)).put(out),
            Inner::Counts(summary) => Items(Counts(summary)).put(out),
            Inner::Severities(row) => Items(Severities(row)).put(out),
            Inner::Notification(time, key, status, text) => {
                notification_object(*time, key, *status, text).put(out)
            }
            Inner::Action(time, key, operator, state, text) => {
                action_object(*time, key, operator, *state, *text).put(out)
            }
        }
    }

    fn text_len(&self) -> u64 {
        match self {
            Inner::Leaf(leaf) => leaf.text_len(),
            Inner::Statuses(alarm) => Items(Statuses(alarm)).text_len(),
            Inner::Operators(alarm) => Items(Operators(alarm)).text_len(),
            Inner::Types(types) => Items(Types(types)).text_len(),
            Inner::Resources(resources) => Items(Resources(resources)).text_len(),
            Inner::Texts(texts) => Items(Texts(texts)).text_len(),
            Inner::Counts(summary) => Items(Counts(summary)).text_len(),
            Inner::Severities(row) => Items(Severities(row)).text_len(),
            Inner::Notification(time, key, status, text) => {
                notification_object(*time, key, *status, text).text_len()
            }
            Inner::Action(time, key, operator, state, text) => {
                action_object(*time, key, operator, *state, *text).text_len()
            }
        }
    }
}
