ghost use Rattle.std.specs.Option.{option_copied, option_map, option_map_or, unwrap_or};
ghost use Rattle.std.specs.Prelude.{◌≡◌, ◌++◌, ◌∷◌, [], ◌||◌, IfOk, None, OnOk, Some, false, slice_get};
ghost use Rattle.al_base.specs.Limits.{own_name};
ghost use Rattle.al_model.specs.Alarms.{move_entry, own_entry};
ghost use Rattle.al_model.specs.declared.event.Side.TheVariants as sides;
ghost use Rattle.al_base.specs.Texts.{same_text};
ghost use Rattle.al_contents.specs.Views.{mark_of, states};
ghost use Rattle.al_lists.specs.Moves.{first_name, is_move};

use al_base::{Copied, OperatorState, Stamp, Text};
use al_contents::Alarm;
use al_ids::AlarmKey;
use al_model::OperatorEntry;
use al_shelf::Shelves;
use al_types::Inventory;
use std::alloc::{AllocError, Global};

/// What alarms get where first shelves become others.
#[derive(Debug, Drop)]
pub(crate) struct Moves {
    /// Of each alarm the entry that it gets, if it moves.
    pub(crate) entries: Vec<Option<OperatorEntry>>,
    /// Whether any moves that was or will be on the list, and any that was or will be on a shelf.
    pub(crate) list: bool,
    pub(crate) shelf: bool,
}

impl Moves {
    ghost use Rattle.al_lists.specs.Moves.{AddsMove, AreMoves};

    /// The moves of all alarms to where these shelves have them.
    pub(crate) fn to(
        alloc: Global,
        time: Stamp,
        alarms: &[Alarm],
        shelves: &Shelves,
        inventory: &Inventory,
    ) -> Result<Moves, AllocError>
        ensures { IfOk result (AreMoves time (first_name inventory.now shelves.now.shelves)
            (states alarms.now)) }
    {
        let mut moves = Moves::none(alloc, alarms.len())?;
        for alarm in alarms {
            let name = first_name(shelves, inventory, alarm.key());
            moves.add(alloc, time, alarm.shelf_name(), name)?;
        }
        Ok(moves)
    }

    /// No moves, with room for those of so many alarms.
    fn none(alloc: Global, count: usize) -> Result<Moves, AllocError>
        ensures { IfOk result (λ moves. (moves.entries.items ≡ []) × (moves.list ≡ false)
            × (moves.shelf ≡ false)) }
    {
        Ok(Moves {
            entries: Vec::with_capacity(alloc, count)?,
            list: false,
            shelf: false,
        })
    }

    /// Adds the move of one more alarm, from a first shelf to another.
    fn add(
        &mut self,
        alloc: Global,
        time: Stamp,
        before: Option<&Text>,
        after: Option<&Text>,
    ) -> Result<(), AllocError>
        ensures { OnOk result (AddsMove time (option_copied before.entry)
            (option_copied after.entry) self.old self.new) }
    {
        let entry = move_entry(alloc, time, before, after)?;
        let moves = entry.is_some();
        self.list = self.list || moves && (before.is_none() || after.is_none());
        self.shelf = self.shelf || moves && (before.is_some() || after.is_some());
        self.entries.push(entry)?;
        Ok(())
    }
}

/// The name of the first shelf that takes the alarms of the key.
pub(crate) fn first_name<'a>(
    shelves: &'a Shelves,
    inventory: &Inventory,
    key: &AlarmKey,
) -> Option<&'a Text>
    ensures { option_copied result ≡ first_name inventory.now shelves.now.shelves key.now }
{
    match shelves.first(inventory, key) {
        Some(place) => name_at(shelves, place),
        None => None,
    }
}

fn name_at(shelves: &Shelves, place: usize) -> Option<&Text>
    ensures { option_copied result
        ≡ option_map (λ shelf. shelf.name) (slice_get shelves.now.shelves place) }
{
    match shelves.at(place) {
        Some(shelf) => Some(&shelf.name),
        None => None,
    }
}

/// The inventory, or where none is installed the one that declares nothing.
pub(crate) fn installed_or<'a>(
    inventory: Option<&'a Inventory>,
    none: &'a Inventory,
) -> &'a Inventory
    ensures { result.now ≡ unwrap_or (option_copied inventory.entry) none.now }
{
    match inventory {
        Some(inventory) => inventory,
        None => none,
    }
}

/// The entry that an alarm gets at the time by its move from a first shelf to another, if it moves. None is the list.
pub(crate) fn move_entry(
    alloc: Global,
    time: Stamp,
    before: Option<&Text>,
    after: Option<&Text>,
) -> Result<Option<OperatorEntry>, AllocError>
    ensures { IfOk result (λ entry.
        entry ≡ move_entry time (option_copied before.entry) (option_copied after.entry)) }
{
    match after {
        Some(name) => shelving(alloc, time, before, name),
        None => unshelving(alloc, time, before),
    }
}

fn shelving(
    alloc: Global,
    time: Stamp,
    before: Option<&Text>,
    name: &Text,
) -> Result<Option<OperatorEntry>, AllocError>
    ensures { IfOk result (λ entry.
        entry ≡ move_entry time (option_copied before.entry) (Some name.now)) }
{
    if is_same(before, name) {
        return Ok(None);
    }
    Ok(Some(own_entry(alloc, time, OperatorState::Shelved, name)?))
}

fn is_same(before: Option<&Text>, name: &Text) -> bool
    ensures { result ≡ option_map_or (λ old.
        same_text old name.now) (option_copied before.entry) false }
{
    match before {
        Some(old) => *old == *name,
        None => false,
    }
}

fn unshelving(
    alloc: Global,
    time: Stamp,
    before: Option<&Text>,
) -> Result<Option<OperatorEntry>, AllocError>
    ensures { IfOk result (λ entry. entry ≡ move_entry time (option_copied before.entry) None) }
{
    match before {
        Some(name) => Ok(Some(own_entry(alloc, time, OperatorState::UnShelved, name)?)),
        None => Ok(None),
    }
}

/// An entry of the server's own, with the name of a shelf.
fn own_entry(
    alloc: Global,
    time: Stamp,
    state: OperatorState,
    name: &Text,
) -> Result<OperatorEntry, AllocError>
    ensures { IfOk result (λ entry. entry ≡ own_entry time state name.now) }
{
    Ok(OperatorEntry {
        time,
        state,
        operator: own_name(alloc)?,
        text: Some(name.copy(alloc)?),
    })
}

/// The name under which the server itself adds operator entries.
fn own_name(alloc: Global) -> Result<Text, AllocError>
    ensures { IfOk result (λ name. name ≡ own_name) }
{
    match Text::read(alloc, b"alarmd".as_slice()) {
        Ok(name) => Ok(name),
        Err(_) => Err(AllocError),
    }
}
