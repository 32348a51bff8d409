//! What is set.

ghost use Rattle.al_fields.specs.Leaves.{leaf_data};
ghost use Rattle.al_fields.specs.Members.{fields_by, object_of};
ghost use Rattle.al_json.specs.Controls.{control_tree, level_of, max_tree};
ghost use Rattle.al_notify.specs.Modes.{mode_name as name_of};
ghost use Rattle.al_json.specs.Pieces.{outer_data, setting_data};
ghost use Rattle.al_json.specs.Shelves.{shelving_tree};
ghost use Rattle.std.specs.Prelude.{◌≡◌, Some};

use crate::outer::Outer;
use al_fields::{Field, Leaf, Object, Shown, object};
use al_lists::Tables;
use al_notify::{Mode, NotifyRule};
use al_shelf::Shelves;
use serde_json::Value;
use std::alloc::{AllocError, Global};

/// What a member of the container `control` says.
#[derive(Clone, Copy)]
pub enum Setting<'a> {
    Leaf(Leaf<'a>),
    /// The shelves in a container of their own.
    Shelving(&'a Shelves),
}

impl Shown for Setting<'_> {
    ghost use Rattle.al_json.specs.Pieces.{setting_data};

    ghost said = { setting_data };

    fn is_there(&self) -> bool {
        match self {
            Setting::Leaf(leaf) => leaf.is_there(),
            Setting::Shelving(shelves) => shelving_object(shelves).is_there(),
        }
    }

    fn value(&self, alloc: Global) -> Result<Option<Value>, AllocError> {
        match self {
            Setting::Leaf(leaf) => leaf.value(alloc),
            Setting::Shelving(shelves) => shelving_object(shelves).value(alloc),
        }
    }

    fn put(&self, out: &mut Vec<u8>) {
        match self {
            Setting::Leaf(leaf) => leaf.put(out),
            Setting::Shelving(shelves) => shelving_object(shelves).put(out),
        }
    }

    fn text_len(&self) -> u64 {
        match self {
            Setting::Leaf(leaf) => leaf.text_len(),
            Setting::Shelving(shelves) => shelving_object(shelves).text_len(),
        }
    }
}

/// The shelves in their order (RFC 8632, container `alarm-shelving`).
#[tactic(auto, unfolding(crate::specs::Shelves::shelving_tree))]
pub(crate) fn shelving_object(shelves: &Shelves) -> Object<[Field<Outer<'_>>; 1]>
    ensures { object_of (fields_by outer_data result.table) ≡ shelving_tree shelves.now.shelves }
{
    object! { "shelf": Outer::Shelves(shelves) }
}

/// RFC 8632, container `control`.
#[tactic(auto, unfolding(crate::specs::Controls::control_tree))]
pub(crate) fn control_object(tables: &Tables) -> Object<[Field<Setting<'_>>; 4]>
    ensures { object_of (fields_by setting_data result.table) ≡ control_tree tables.now.state }
{
    object! {
        "alarm-shelving": Setting::Shelving(tables.shelves()),
        "max-alarm-status-changes": Setting::Leaf(max_changes(tables)),
        "notify-severity-level": Setting::Leaf(notify_level(tables.rule())),
        "notify-status-changes": Setting::Leaf(Leaf::Word(mode_name(tables.rule().mode))),
    }
}

/// RFC 8632, `max-alarm-status-changes`.
pub(crate) fn max_changes(tables: &Tables) -> Leaf<'_>
    ensures { leaf_data result ≡ Some (max_tree tables.now.state.max) }
{
    match tables.max() {
        Some(most) => Leaf::Number(u64::from(most)),
        None => Leaf::Word("infinite"),
    }
}

/// RFC 8632, `notify-severity-level`, which is there in the mode that goes by it.
pub(crate) fn notify_level(rule: &NotifyRule) -> Leaf<'_>
    ensures { leaf_data result ≡ level_of rule.now.mode rule.now.level }
{
    match rule.mode {
        Mode::SeverityLevel => Leaf::Word(rule.level.name()),
        Mode::AllStateChanges | Mode::RaiseAndClear => Leaf::Absent,
    }
}

/// The word that stands for the mode in messages.
pub(crate) fn mode_name(mode: Mode) -> &'static str
    ensures { result.now ≡ name_of mode }
{
    match mode {
        Mode::AllStateChanges => "all-state-changes",
        Mode::RaiseAndClear => "raise-and-clear",
        Mode::SeverityLevel => "severity-level",
    }
}
