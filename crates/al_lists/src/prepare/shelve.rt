ghost use Rattle.std.specs.List.{insert};
ghost use Rattle.std.specs.Prelude.{◌≡◌, ◌≤◌, ◌<◌, IfOk, Some, length};
ghost use Rattle.al_base.specs.Limits.{most_shelves};
ghost use Rattle.al_model.specs.State.{inventory_of};
ghost use Rattle.al_model.specs.Validity.{IsValid};
ghost use Rattle.al_model.specs.declared.event.Event.TheVariants as events;
ghost use Rattle.al_shelf.specs.Places.{without};
ghost use Rattle.al_contents.specs.Views.{states};
ghost use Rattle.al_lists.specs.Moves.{AreMoves, first_name};
ghost use Rattle.al_lists.specs.Prepares.{Comes, Prepares, PreparesMoves, with_shelves};

use crate::prepare::moves::{Moves, installed_or};
use crate::prepared::Prepared;
use al_base::{Copied, Stamp, Text};
use al_contents::{Change, Contents};
use al_shelf::{Shelf, Shelves};
use al_types::Inventory;
use std::alloc::{AllocError, Global};

/// Prepares that the shelf stands at this position.
pub(crate) fn put(
    alloc: Global,
    contents: &mut Contents,
    time: Stamp,
    shelf: &Shelf,
    at: u8,
) -> Result<Prepared, AllocError>
    requires valid { IsValid contents.old.state }
    requires comes { Comes contents.old.state time (events.PutShelf shelf.now at) }
    ensures state { contents.new.state ≡ contents.old.state }
    ensures ok { IfOk result (Prepares contents.new time (events.PutShelf shelf.now at)) }
{
    let shelves = with_shelf(alloc, contents.shelves(), shelf, usize::from(at))?;
    reshelve(alloc, contents, time, shelves)
}

/// The shelves with this one at its position.
fn with_shelf(
    alloc: Global,
    shelves: &Shelves,
    shelf: &Shelf,
    at: usize,
) -> Result<Shelves, AllocError>
    requires few { length (without shelf.now.name shelves.now.shelves) < most_shelves }
    requires within { at ≤ length (without shelf.now.name shelves.now.shelves) }
    ensures { IfOk result (λ after.
        after.shelves ≡ insert (without shelf.now.name shelves.now.shelves) at shelf.now) }
{
    let mut after = shelves.copy(alloc)?;
    after.reserve()?;
    after.put(shelf.copy(alloc)?, at);
    Ok(after)
}

/// Prepares that the shelf of this name is taken away.
pub(crate) fn drop_shelf(
    alloc: Global,
    contents: &mut Contents,
    time: Stamp,
    name: &Text,
) -> Result<Prepared, AllocError>
    requires valid { IsValid contents.old.state }
    ensures state { contents.new.state ≡ contents.old.state }
    ensures ok { IfOk result (Prepares contents.new time (events.DropShelf name.now)) }
{
    let mut shelves = contents.shelves().copy(alloc)?;
    let _ = shelves.remove(name);
    reshelve(alloc, contents, time, shelves)
}

/// Prepares that these become the shelves.
fn reshelve(
    alloc: Global,
    contents: &mut Contents,
    time: Stamp,
    shelves: Shelves,
) -> Result<Prepared, AllocError>
    ensures state { contents.new.state ≡ contents.old.state }
    ensures ok { IfOk result (PreparesMoves contents.new time
        (with_shelves contents.new.state shelves.shelves)) }
{
    let moves = to_shelves(alloc, contents, time, &shelves)?;
    contents.reserve_moves(moves.entries.as_slice())?;
    Ok(Prepared {
        time,
        change: Change::Shelves {
            shelves,
            moves: moves.entries,
        },
        note: None,
        list: moves.list,
        shelf: moves.shelf,
    })
}

/// The moves of all alarms to where these shelves have them.
fn to_shelves(
    alloc: Global,
    contents: &Contents,
    time: Stamp,
    shelves: &Shelves,
) -> Result<Moves, AllocError>
    ensures { IfOk result (AreMoves time
        (first_name (inventory_of contents.now.state) shelves.now.shelves)
        contents.now.state.alarms) }
{
    let none = Inventory::empty(alloc);
    let inventory = installed_or(contents.inventory(), &none);
    Moves::to(alloc, time, contents.alarms(), shelves, inventory)
}

/// Prepares that this is the inventory.
pub(crate) fn install(
    alloc: Global,
    contents: &mut Contents,
    time: Stamp,
    inventory: &Inventory,
) -> Result<Prepared, AllocError>
    requires valid { IsValid contents.old.state }
    ensures state { contents.new.state ≡ contents.old.state }
    ensures ok { IfOk result (Prepares contents.new time (events.Install inventory.now)) }
{
    let inventory = inventory.copy(alloc)?;
    let moves = Moves::to(
        alloc,
        time,
        contents.alarms(),
        contents.shelves(),
        &inventory,
    )?;
    contents.reserve_moves(moves.entries.as_slice())?;
    Ok(Prepared {
        time,
        change: Change::Inventory {
            inventory,
            moves: moves.entries,
        },
        note: None,
        list: moves.list,
        shelf: moves.shelf,
    })
}
