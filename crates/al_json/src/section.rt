//! What stands under the name of a resource.

use crate::container::{
    alarm_inventory_object, alarm_list_object, inventory_object, log_object, shelved_alarms_object,
};
use crate::control::{control_object, shelving_object};
use crate::found::{FoundAlarm, FoundShelf};
use crate::summary::summary_object;
use al_fields::{Items, Leaf, Shown};
use al_lists::{Summary, Tables};
use al_notify::NoteLog;
use al_shelf::Shelves;
use al_types::{Inventory, Row};
use serde_json::Value;
use std::alloc::{AllocError, Global};

/// What stands under the name of a resource.
#[derive(Clone, Copy)]
pub enum Section<'a> {
    Leaf(Leaf<'a>),
    Shelving(&'a Shelves),
    Control(&'a Tables),
    AlarmInventory(&'a [Row]),
    AlarmList(&'a Tables),
    ShelvedAlarms(&'a Tables),
    Summary(Summary),
    /// What was installed.
    Inventory(&'a Inventory),
    /// The notes from this number on.
    Log(&'a NoteLog, u32),
    OneShelf(Items<FoundShelf<'a>>),
    OneAlarm(Items<FoundAlarm<'a>>),
}

impl Shown for Section<'_> {
    ghost use Rattle.al_json.specs.Pieces.{section_data};

    ghost said = { section_data };

    fn is_there(&self) -> bool {
        match self {
            Section::Leaf(leaf) => leaf.is_there(),
            Section::Shelving(shelves) => shelving_object(shelves).is_there(),
            Section::Control(tables) => control_object(tables).is_there(),
            Section::AlarmInventory(rows) => alarm_inventory_object(rows).is_there(),
            Section::AlarmList(tables) => alarm_list_object(tables).is_there(),
            Section::ShelvedAlarms(tables) => shelved_alarms_object(tables).is_there(),
            Section::Summary(summary) => summary_object(summary).is_there(),
            Section::Inventory(inventory) => inventory_object(inventory).is_there(),
            Section::Log(log, start) => log_object(log, *start).is_there(),
            Section::OneShelf(found) => found.is_there(),
            Section::OneAlarm(found) => found.is_there(),
        }
    }

    fn value(&self, alloc: Global) -> Result<Option<Value>, AllocError> {
        match self {
            Section::Leaf(leaf) => leaf.value(alloc),
            Section::Shelving(shelves) => shelving_object(shelves).value(alloc),
            Section::Control(tables) => control_object(tables).value(alloc),
            Section::AlarmInventory(rows) => alarm_inventory_object(rows).value(alloc),
            Section::AlarmList(tables) => alarm_list_object(tables).value(alloc),
            Section::ShelvedAlarms(tables) => shelved_alarms_object(tables).value(alloc),
            Section::Summary(summary) => summary_object(summary).value(alloc),
            Section::Inventory(inventory) => inventory_object(inventory).value(alloc),
            Section::Log(log, start) => log_object(log, *start).value(alloc),
            Section::OneShelf(found) => found.value(alloc),
            Section::OneAlarm(found) => found.value(alloc),
        }
    }

    fn put(&self, out: &mut Vec<u8>) {
        match self {
            Section::Leaf(leaf) => leaf.put(out),
            Section::Shelving(shelves) => shelving_object(shelves).put(out),
            Section::Control(tables) => control_object(tables).put(out),
            Section::AlarmInventory(rows) => alarm_inventory_object(rows).put(out),
            Section::AlarmList(tables) => alarm_list_object(tables).put(out),
            Section::ShelvedAlarms(tables) => shelved_alarms_object(tables).put(out),
            Section::Summary(summary) => summary_object(summary).put(out),
            Section::Inventory(inventory) => inventory_object(inventory).put(out),
            Section::Log(log, start) => log_object(log, *start).put(out),
            Section::OneShelf(found) => found.put(out),
            Section::OneAlarm(found) => found.put(out),
        }
    }

    fn text_len(&self) -> u64 {
        match self {
            Section::Leaf(leaf) => leaf.text_len(),
            Section::Shelving(shelves) => shelving_object(shelves).text_len(),
            Section::Control(tables) => control_object(tables).text_len(),
            Section::AlarmInventory(rows) => alarm_inventory_object(rows).text_len(),
            Section::AlarmList(tables) => alarm_list_object(tables).text_len(),
            Section::ShelvedAlarms(tables) => shelved_alarms_object(tables).text_len(),
            Section::Summary(summary) => summary_object(summary).text_len(),
            Section::Inventory(inventory) => inventory_object(inventory).text_len(),
            Section::Log(log, start) => log_object(log, *start).text_len(),
            Section::OneShelf(found) => found.text_len(),
            Section::OneAlarm(found) => found.text_len(),
        }
    }
}
