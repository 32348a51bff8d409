//! What stands in containers.

use crate::alarm::{Listed, Shelved};
use crate::inventory::{Identities, Rows};
use crate::notes::Notes;
use crate::shelf::AllShelves;
use al_fields::{Items, Leaf, Shown};
use al_lists::Tables;
use al_notify::NoteLog;
use al_shelf::Shelves;
use al_types::{Identity, Row};
use serde_json::Value;
use std::alloc::{AllocError, Global};

/// What a member of a container says.
#[derive(Clone, Copy)]
pub enum Outer<'a> {
    Leaf(Leaf<'a>),
    /// The alarms of the list.
    Listed(&'a Tables),
    /// The alarms on shelves.
    Shelved(&'a Tables),
    Shelves(&'a Shelves),
    Rows(&'a [Row]),
    Identities(&'a [Identity]),
    /// The notes of a page of the log, which begins with the note of this number.
    Notes(&'a NoteLog, u32),
}

impl Shown for Outer<'_> {
    ghost use Rattle.al_json.specs.Pieces.{outer_data};

    ghost said = { outer_data };

    fn is_there(&self) -> bool {
        match self {
            Outer::Leaf(leaf) => leaf.is_there(),
            Outer::Listed(tables) => Items(Listed(tables)).is_there(),
            Outer::Shelved(tables) => Items(Shelved(tables)).is_there(),
            Outer::Shelves(shelves) => Items(AllShelves(shelves)).is_there(),
            Outer::Rows(rows) => Items(Rows(rows)).is_there(),
            Outer::Identities(identities) => Items(Identities(identities)).is_there(),
            Outer::Notes(log, start) => Items(Notes(log, *start)).is_there(),
        }
    }

    fn value(&self, alloc: Global) -> Result<Option<Value>, AllocError> {
        match self {
            Outer::Leaf(leaf) => leaf.value(alloc),
            Outer::Listed(tables) => Items(Listed(tables)).value(alloc),
            Outer::Shelved(tables) => Items(Shelved(tables)).value(alloc),
            Outer::Shelves(shelves) => Items(AllShelves(shelves)).value(alloc),
            Outer::Rows(rows) => Items(Rows(rows)).value(alloc),
            Outer::Identities(identities) => Items(Identities(identities)).value(alloc),
            Outer::Notes(log, start) => Items(Notes(log, *start)).value(alloc),
        }
    }

    fn put(&self, out: &mut Vec<u8>) {
        match self {
            Outer::Leaf(leaf) => leaf.put(out),
            Outer::Listed(tables) => Items(Listed(tables)).put(out),
            Outer::Shelved(tables) => Items(Shelved(tables)).put(out),
            Outer::Shelves(shelves) => Items(AllShelves(shelves)).put(out),
            Outer::Rows(rows) => Items(Rows(rows)).put(out),
            Outer::Identities(identities) => Items(Identities(identities)).put(out),
            Outer::Notes(log, start) => Items(Notes(log, *start)).put(out),
        }
    }

    fn text_len(&self) -> u64 {
        match self {
            Outer::Leaf(leaf) => leaf.text_len(),
            Outer::Listed(tables) => Items(Listed(tables)).text_len(),
            Outer::Shelved(tables) => Items(Shelved(tables)).text_len(),
            Outer::Shelves(shelves) => Items(AllShelves(shelves)).text_len(),
            Outer::Rows(rows) => Items(Rows(rows)).text_len(),
            Outer::Identities(identities) => Items(Identities(identities)).text_len(),
            Outer::Notes(log, start) => Items(Notes(log, *start)).text_len(),
        }
    }
}
