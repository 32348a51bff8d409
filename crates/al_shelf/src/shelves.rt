ghost use Rattle.std.specs.List.{All, insert};
ghost use Rattle.std.specs.Option.{option_and_then};
ghost use Rattle.std.specs.Prelude.{◌≡◌, ◌≢◌, ◌↔◌, ◌<◌, ◌+◌, ◌≤◌, ◌⊎◌, [], IfOk, IfSome, IsSome, IsTrue, None, OnErr, OnOk, Some, length, position, slice_get};
ghost use Rattle.al_base.specs.Limits.{most_shelves};
ghost use Rattle.al_shelf.specs.Places.{placed};

use crate::fault::ShelfFault;
use crate::shelf::Shelf;
use crate::spot::{Placed, Spot};
use al_base::limits::MOST_SHELVES;
use al_base::{Copied, Text};
use al_ids::AlarmKey;
use al_types::Inventory;
use std::alloc::{AllocError, Global};
use std::marker::Model;

/// The shelves in their order (RFC 8632, container `alarm-shelving`), and for how many more memory is at hand.
#[derive(Debug, Drop)]
pub struct Shelves {
    shelves: Vec<Shelf>,
}

impl Model for Shelves {
    ghost use Rattle.std.specs.Prelude.{◌-◌, vec_capacity, vec_len};
    ghost use Rattle.al_shelf.specs.Places.{AreShelves, ShelvesView};

    ghost Value = { ShelvesView };

    ghost view = { λ s. record {
      shelves = s.shelves.items;
      spare = vec_capacity s.shelves - vec_len s.shelves;
    } };

    ghost invariant = { λ s. AreShelves s.shelves.items };
}

impl Shelves {
    ghost use Rattle.al_shelf.specs.Places.{AreShelves, IsPut, place_for, place_of, shelf_of, without};
    ghost use Rattle.al_shelf.specs.Takes.{IsFirstShelf};
    ghost use Rattle.al_shelf.specs.Taking.{first_shelf, takes};

    /// No shelves.
    pub fn new(alloc: Global) -> Shelves
        ensures { result.shelves ≡ [] }
    {
        Shelves {
            shelves: Vec::new(alloc),
        }
    }

    pub fn len(&self) -> usize
        ensures len { result ≡ length self.now.shelves }
        ensures sound { AreShelves self.now.shelves }
    {
        self.shelves.len()
    }

    pub fn is_empty(&self) -> bool
        ensures { IsTrue result ↔ (self.now.shelves ≡ []) }
    {
        self.shelves.is_empty()
    }

    /// The shelf at this position.
    pub fn at(&self, i: usize) -> Option<&Shelf>
        ensures found { IfSome result (λ shelf. slice_get self.now.shelves i ≡ Some shelf.now) }
        ensures none { (result ≡ None) ↔ (length self.now.shelves ≤ i) }
    {
        self.shelves.get(i)
    }

    /// The position of the first shelf that takes the alarms of the key.
    pub fn first(&self, inv: &Inventory, key: &AlarmKey) -> Option<usize>
        ensures relation { IsFirstShelf inv.now key.now self.now.shelves result }
        ensures position { result ≡ position (takes inv.now key.now) self.now.shelves }
        ensures shelf { first_shelf inv.now key.now self.now.shelves
            ≡ option_and_then (slice_get self.now.shelves) result }
    {
        for (n, shelf) in self.shelves.iter().enumerate() {
            if shelf.takes(inv, key) {
                return Some(n);
            }
        }
        None
    }

    /// The position of the shelf of this name.
    pub fn place_of(&self, name: &Text) -> Option<usize>
        ensures place { result ≡ place_of name.now self.now.shelves }
        ensures within { IfSome result (λ place. place < length self.now.shelves) }
        ensures sound { AreShelves self.now.shelves }
    {
        self.shelves.iter().position(|shelf| shelf.name == *name)
    }

    /// The position that a shelf of this name gets at the spot, among the shelves of other names; None where its point isn't
    /// one of these.
    pub fn place_for(&self, spot: &Spot, name: &Text) -> Option<usize>
        ensures place { result ≡ place_for spot.now name.now self.now.shelves }
        ensures within { IfSome result (λ place.
            place ≤ length (without name.now self.now.shelves)) }
    {
        match spot {
            Spot::First => Some(0),
            Spot::Last => Some(self.count_of_others(name)),
            Spot::Before(point) => self.place_among_others(point, name),
            Spot::After(point) => self.place_among_others(point, name).map(|place| place + 1),
            Spot::Keep => Some(self.place_of(name).unwrap_or(self.count_of_others(name))),
        }
    }

    /// Takes the memory for one more shelf, unless it is at hand already.
    pub fn reserve(&mut self) -> Result<(), AllocError>
        ensures shelves { self.new.shelves ≡ self.old.shelves }
        ensures ok { OnOk result (0 < self.new.spare) }
        ensures err { OnErr result (self.new ≡ self.old) }
    {
        self.shelves.reserve(1)
    }

    /// Puts the shelf at this position among those of other names, in place of the one that has its
    /// name. It can't fail, whatever memory there is.
    pub fn put(&mut self, shelf: Shelf, at: usize)
        // There is room, or a shelf goes.
        requires room { (0 < self.old.spare) ⊎ IsSome (place_of shelf.name self.old.shelves) }
        requires few { length (without shelf.name self.old.shelves) < most_shelves }
        requires within { at ≤ length (without shelf.name self.old.shelves) }
        ensures shelves { self.new.shelves ≡ insert (without shelf.name self.old.shelves) at shelf }
        ensures room { self.new.spare + length self.new.shelves
            ≡ self.old.spare + length self.old.shelves }
    {
        let _ = self.remove(&shelf.name);
        // There is room for it, so it can't fail.
        let _ = self.shelves.insert(at, shelf);
    }

    /// Puts the shelf at its spot, in place of the one that has its name.
    pub fn place(&mut self, shelf: Shelf, spot: Spot) -> Result<Placed, ShelfFault>
        ensures ok { IfOk result (λ placed.
            IsPut self.old.shelves shelf spot placed self.new.shelves) }
        ensures no_point { (result ≡ Err ShelfFault.NoPoint)
            ↔ (place_for spot shelf.name self.old.shelves ≡ None) }
        ensures too_many { (result ≡ Err ShelfFault.TooMany)
            ↔ (IsSome (place_for spot shelf.name self.old.shelves)
            × (most_shelves < length (without shelf.name self.old.shelves) + 1)) }
        ensures refused { OnErr result (self.new ≡ self.old) }
    {
        let Some(place) = self.place_for(&spot, &shelf.name) else {
            return Err(ShelfFault::NoPoint);
        };
        self.make_room(&shelf.name)?;
        let placed = placed(self.place_of(&shelf.name), place);
        self.put(shelf, place);
        Ok(placed)
    }

    /// Makes room for a shelf of this name, where none has it.
    fn make_room(&mut self, name: &Text) -> Result<(), ShelfFault>
        ensures shelves { self.new.shelves ≡ self.old.shelves }
        ensures room { OnOk result ((0 < self.new.spare)
            ⊎ IsSome (place_of name.now self.old.shelves)) }
        ensures few { OnOk result (length (without name.now self.old.shelves) < most_shelves) }
        ensures too_many { (result ≡ Err ShelfFault.TooMany)
            ↔ (most_shelves < length (without name.now self.old.shelves) + 1) }
        ensures no_point { result ≢ Err ShelfFault.NoPoint }
        ensures refused { OnErr result (self.new ≡ self.old) }
    {
        if self.count_of_others(name) >= MOST_SHELVES {
            return Err(ShelfFault::TooMany);
        }
        if self.place_of(name).is_some() {
            return Ok(());
        }
        match self.reserve() {
            Ok(()) => Ok(()),
            Err(AllocError) => Err(ShelfFault::Memory),
        }
    }

    /// Takes out the shelf of this name.
    pub fn remove(&mut self, name: &Text) -> Option<Shelf>
        ensures answer { result ≡ shelf_of name.now self.old.shelves }
        ensures none { (result ≡ None) ↔ All (λ shelf. shelf.name ≢ name.now) self.old.shelves }
        ensures shelves { self.new.shelves ≡ without name.now self.old.shelves }
        ensures room { self.new.spare + length self.new.shelves
            ≡ self.old.spare + length self.old.shelves }
    {
        let Some(place) = self.place_of(name) else {
            return None;
        };
        Some(self.shelves.remove(place))
    }

    /// The position of the point among the shelves of other names.
    fn place_among_others(&self, point: &Text, name: &Text) -> Option<usize>
        ensures place { result ≡ place_of point.now (without name.now self.now.shelves) }
        ensures few { IfSome result (λ place. place < most_shelves) }
    {
        self.shelves
            .iter()
            .filter(|shelf| shelf.name != *name)
            .position(|shelf| shelf.name == *point)
    }

    fn count_of_others(&self, name: &Text) -> usize
        ensures { result ≡ length (without name.now self.now.shelves) }
    {
        self.shelves
            .iter()
            .filter(|shelf| shelf.name != *name)
            .count()
    }
}

/// The answer where a shelf of the name stood there before, or nowhere, and stands at this position now.
fn placed(before: Option<usize>, place: usize) -> Placed
    ensures { result ≡ placed before place }
{
    match before {
        Some(_) => Placed::Replaced(place),
        None => Placed::Made(place),
    }
}

impl Copied for Shelves {
    fn copy(&self, alloc: Global) -> Result<Shelves, AllocError> {
        // So much that the copy has room for as many more.
        let mut shelves = Vec::with_capacity(alloc, self.shelves.capacity())?;
        for shelf in &self.shelves {
            shelves.push_reserved(shelf.copy(alloc)?);
        }
        Ok(Shelves { shelves })
    }
}
