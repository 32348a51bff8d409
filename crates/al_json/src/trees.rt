//! The tree of a resource, its text without a tree, and the text's length.

ghost use Rattle.al_fields.specs.Lengths.{saturated};
ghost use Rattle.al_fields.specs.Members.{list_of};
ghost use Rattle.al_fields.specs.Texts.{text_of};
ghost use Rattle.al_json.specs.Alarms.{alarm_tree};
ghost use Rattle.al_json.specs.Inventories.{alarm_inventory_tree, inventory_tree};
ghost use Rattle.al_json.specs.Pieces.{content_data, section_data};
ghost use Rattle.al_json.specs.Shelves.{shelf_tree};
ghost use Rattle.al_json.specs.Showings.{tree_shown};
ghost use Rattle.al_json.specs.Trees.{part_data, resource_data, resource_name, tree_of};
ghost use Rattle.al_model.specs.Alarms.{alarm_of};
ghost use Rattle.al_model.specs.State.{inventory_of, listed, shelved};
ghost use Rattle.al_shelf.specs.Places.{shelf_of};
ghost use Rattle.serde_json.specs.View.{view};
ghost use Rattle.serde_json.specs.Written.{compact_text};
ghost use Rattle.std.specs.Option.{option_to_list};
ghost use Rattle.std.specs.Prelude.{◌≡◌, ◌+◌, ◌++◌, ◌≤◌, IfOk, Some, length, map, option_copied, option_map, slice_get, vec_capacity, vec_len};

use crate::alarms::Content;
use crate::control::{max_changes, mode_name, notify_level};
use crate::found::{FoundAlarm, FoundShelf};
use crate::section::Section;
use al_base::Text;
use al_fields::{Held, Items, Leaf, put_whole, whole_len, whole_value};
use al_ids::AlarmKey;
use al_lists::Tables;
use al_model::Side;
use al_shelf::{Shelf, Shelves};
use al_uri::Target;
use serde_json::Value;
use std::alloc::{AllocError, Global};

/// What is shown of a resource, made once for its tree, its text and the text's length.
#[derive(Clone, Copy)]
pub struct Showing<'a> {
    name: &'static str,
    content: Held<Content<'a>>,
}

impl<'a> Showing<'a> {
    /// What is shown of the resource that the target names.
    #[tactic(auto, unfolding(crate::specs::Trees::tree_of))]
    pub fn of(target: &Target, tables: &'a Tables) -> Showing<'a>
        ensures { tree_shown result ≡ tree_of target.now tables.now.state }
    {
        Showing {
            name: name_of(target),
            content: Held(content_of(target, tables)),
        }
    }

    /// Its tree, None exactly where the resource isn't there or has no tree.
    pub fn tree(&self, alloc: Global) -> Result<Option<Value>, AllocError>
        ensures { IfOk result (λ value. option_map view value ≡ tree_shown self.now) }
    {
        whole_value(alloc, self.name, &self.content)
    }

    /// How long the compact text of that tree is, or the greatest number where it is longer. It can't fail, whatever memory there is.
    pub fn text_len(&self) -> Option<u64>
        ensures { result ≡ option_map (λ tree.
            saturated (length (compact_text tree))) (tree_shown self.now) }
    {
        whole_len(self.name, &self.content)
    }

    /// Writes that text behind what is there, and nothing where there is no tree. It can't fail, whatever memory there is.
    pub fn append_text(&self, out: &mut Vec<u8>)
        requires { vec_len out.old + length (text_of (tree_shown self.now)) ≤ vec_capacity out.old }
        ensures items { out.new.items ≡ out.old.items ++ text_of (tree_shown self.now) }
        ensures room { vec_capacity out.old ≤ vec_capacity out.new }
    {
        put_whole(out, self.name, &self.content);
    }
}

/// The name of the resource that the target names, with its module, and no bytes where it has no tree.
fn name_of(target: &Target) -> &'static str
    ensures { result.now ≡ resource_name target.now }
{
    match target {
        Target::Alarms => "ietf-alarms:alarms",
        Target::Control => "ietf-alarms:control",
        Target::MaxChanges => "ietf-alarms:max-alarm-status-changes",
        Target::NotifyMode => "ietf-alarms:notify-status-changes",
        Target::NotifyLevel => "ietf-alarms:notify-severity-level",
        Target::Shelving { spot: _ } => "ietf-alarms:alarm-shelving",
        Target::OneShelf { name: _, spot: _ } => "ietf-alarms:shelf",
        Target::AlarmInventory => "ietf-alarms:alarm-inventory",
        Target::Summary => "ietf-alarms:summary",
        Target::AlarmList => "ietf-alarms:alarm-list",
        Target::AlarmCount => "ietf-alarms:number-of-alarms",
        Target::AlarmsChanged => "ietf-alarms:last-changed",
        Target::OneAlarm { key: _ } => "ietf-alarms:alarm",
        Target::ShelvedAlarms => "ietf-alarms:shelved-alarms",
        Target::ShelvedCount => "ietf-alarms:number-of-shelved-alarms",
        Target::ShelvedChanged => "ietf-alarms:shelved-alarms-last-changed",
        Target::OneShelved { key: _ } => "ietf-alarms:shelved-alarm",
        Target::Inventory => "alarmd:inventory",
        Target::NotificationLog { start: _ } => "alarmd:notification-log",
        _ => "",
    }
}

/// What stands under that name.
fn content_of<'a>(target: &Target, tables: &'a Tables) -> Content<'a>
    ensures { content_data result ≡ resource_data target.now tables.now.state }
{
    match target {
        Target::Alarms => Content::Alarms(tables, tables.summary()),
        _ => Content::Section(section_of(target, tables)),
    }
}

/// What stands under that name, but for the whole: nothing where the resource isn't there or has no tree.
fn section_of<'a>(target: &Target, tables: &'a Tables) -> Section<'a>
    ensures { section_data result ≡ part_data target.now tables.now.state }
{
    match target {
        Target::Control => Section::Control(tables),
        Target::MaxChanges => Section::Leaf(max_changes(tables)),
        Target::NotifyMode => Section::Leaf(Leaf::Word(mode_name(tables.rule().mode))),
        Target::NotifyLevel => Section::Leaf(notify_level(tables.rule())),
        Target::Shelving { spot: _ } => Section::Shelving(tables.shelves()),
        Target::OneShelf { name, spot: _ } => one_shelf(tables, name),
        Target::AlarmInventory => rows(tables),
        Target::Summary => Section::Summary(tables.summary()),
        Target::AlarmList => Section::AlarmList(tables),
        Target::AlarmCount => Section::Leaf(Leaf::Number(tables.alarms() as u64)),
        Target::AlarmsChanged => Section::Leaf(Leaf::of_time(tables.list_changed())),
        Target::OneAlarm { key } => one_listed(tables, key),
        Target::ShelvedAlarms => Section::ShelvedAlarms(tables),
        Target::ShelvedCount => Section::Leaf(Leaf::Number(tables.shelved_count() as u64)),
        Target::ShelvedChanged => Section::Leaf(Leaf::of_time(tables.shelf_changed())),
        Target::OneShelved { key } => one_shelved(tables, key),
        Target::Inventory => inventory(tables),
        Target::NotificationLog { start } => Section::Log(tables.log(), *start),
        _ => Section::Leaf(Leaf::Absent),
    }
}

/// What was installed, if anything was.
fn inventory(tables: &Tables) -> Section<'_>
    ensures { section_data result ≡ option_map inventory_tree tables.now.state.inventory }
{
    match tables.inventory() {
        Some(inventory) => Section::Inventory(inventory),
        None => Section::Leaf(Leaf::Absent),
    }
}

/// The rows of the inventory, none before an installation.
pub(crate) fn rows(tables: &Tables) -> Section<'_>
    ensures { section_data result
        ≡ Some (alarm_inventory_tree (inventory_of tables.now.state).rows) }
{
    match tables.inventory() {
        Some(inventory) => Section::AlarmInventory(inventory.rows()),
        None => Section::AlarmInventory(&[]),
    }
}

fn one_shelf<'a>(tables: &'a Tables, name: &Text) -> Section<'a>
    ensures { section_data result
        ≡ list_of (map shelf_tree (option_to_list (shelf_of name.now tables.now.state.shelves))) }
{
    Section::OneShelf(Items(FoundShelf(find_shelf(tables.shelves(), name))))
}

#[tactic(auto, using(crate::proofs::Finding::found_placed))]
fn find_shelf<'a>(shelves: &'a Shelves, name: &Text) -> Option<&'a Shelf>
    ensures { option_copied result ≡ shelf_of name.now shelves.now.shelves }
{
    match shelves.place_of(name) {
        Some(index) => shelf_at(shelves, index),
        None => None,
    }
}

#[tactic(auto, using(crate::proofs::Finding::past))]
fn shelf_at(shelves: &Shelves, index: usize) -> Option<&Shelf>
    ensures { option_copied result ≡ slice_get shelves.now.shelves index }
{
    match shelves.at(index) {
        Some(shelf) => Some(shelf),
        None => None,
    }
}

/// The alarm of the key on the list.
#[tactic(auto, using(crate::proofs::Marks::found_marked))]
fn one_listed<'a>(tables: &'a Tables, key: &AlarmKey) -> Section<'a>
    ensures { section_data result
        ≡ list_of (map (alarm_tree tables.now.state Side.List)
        (option_to_list (alarm_of key.now (listed tables.now.state)))) }
{
    tables.state_is_valid();
    Section::OneAlarm(Items(FoundAlarm {
        tables,
        side: Side::List,
        alarm: tables.alarm(key),
    }))
}

/// The alarm of the key on a shelf.
#[tactic(auto, using(crate::proofs::Marks::found_marked))]
fn one_shelved<'a>(tables: &'a Tables, key: &AlarmKey) -> Section<'a>
    ensures { section_data result
        ≡ list_of (map (alarm_tree tables.now.state Side.Shelf)
        (option_to_list (alarm_of key.now (shelved tables.now.state)))) }
{
    tables.state_is_valid();
    Section::OneAlarm(Items(FoundAlarm {
        tables,
        side: Side::Shelf,
        alarm: tables.shelved(key),
    }))
}
