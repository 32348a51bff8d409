//! What holds of all shelves, each as the contract of a function that does nothing.

ghost use Rattle.al_ids.specs.declared.key.AlarmKey.{AlarmKey};
ghost use Rattle.al_shelf.specs.Places.{AreShelves, place_for, without};
ghost use Rattle.al_shelf.specs.Same.{same_shelf, same_spot, same_type_match};
ghost use Rattle.al_shelf.specs.Takes.{IsFirstShelf, Takes};
ghost use Rattle.al_shelf.specs.Taking.{first_shelf, takes};
ghost use Rattle.al_shelf.specs.declared.shelf.Shelf.{Shelf};
ghost use Rattle.al_shelf.specs.declared.shelf.TypeMatch.{TypeMatch};
ghost use Rattle.al_shelf.specs.declared.spot.Spot.{Spot};
ghost use Rattle.al_types.specs.Faults.{IsSound};
ghost use Rattle.al_types.specs.Inventories.{InventoryView};
ghost use Rattle.al_base.specs.Limits.{most_shelves};
ghost use Rattle.std.specs.Bool.{Decides};
ghost use Rattle.std.specs.List.{insert};
ghost use Rattle.std.specs.Option.{option_and_then};
ghost use Rattle.std.specs.Prelude.{◌≡◌, ◌<◌, ◌≤◌, ℕ, List, Some, length, position, slice_get};

/// With an inventory that `build` accepts, a shelf takes a key exactly where the test says so.
pub fn takings_are_decided()
    ensures { (i : InventoryView) → IsSound i.identities i.rows → (key : AlarmKey) (shelf : Shelf)
        → Decides (takes i key shelf) (Takes i key shelf) }
{}

/// The first shelf that takes a key stands where the relation says, and is the one that the function finds.
pub fn first_shelves_are_found()
    ensures place { (i : InventoryView) → IsSound i.identities i.rows
        → (key : AlarmKey) (shelves : List Shelf)
        → IsFirstShelf i key shelves (position (takes i key) shelves) }
    ensures shelf { (i : InventoryView) (key : AlarmKey) (shelves : List Shelf)
        → first_shelf i key shelves
        ≡ option_and_then (slice_get shelves) (position (takes i key) shelves) }
{}

/// The position of a spot is one among the shelves of other names, or right behind them.
pub fn spots_stand_among_others()
    ensures { (spot : Spot) (name : List ℕ) (shelves : List Shelf) (place : ℕ) → AreShelves shelves
        → place_for spot name shelves ≡ Some place → place ≤ length (without name shelves) }
{}

/// A shelf that is put among those of other names, where there are less than 64, leaves distinct names.
pub fn put_shelves_are_sound()
    ensures { (shelf : Shelf) (shelves : List Shelf) (place : ℕ) → AreShelves shelves
        → place ≤ length (without shelf.name shelves)
        → length (without shelf.name shelves) < most_shelves
        → AreShelves (insert (without shelf.name shelves) place shelf) }
{}

/// The shelves of other names are distinct and few, too.
pub fn other_shelves_are_sound()
    ensures { (name : List ℕ) (shelves : List Shelf) → AreShelves shelves
        → AreShelves (without name shelves) }
{}

/// Two values are the same exactly where they are one.
pub fn same_is_equal()
    ensures criteria { (a b : TypeMatch) → Decides (same_type_match a b) (a ≡ b) }
    ensures shelves { (a b : Shelf) → Decides (same_shelf a b) (a ≡ b) }
    ensures spots { (a b : Spot) → Decides (same_spot a b) (a ≡ b) }
{}
