//! Shelves and their criteria.

ghost use Rattle.al_frame.specs.Formats.{Gives};
ghost use Rattle.al_frame.specs.Frames.{criterion, event_by, placed_shelf, shelf, shelf_put};
ghost use Rattle.std.specs.Prelude.{◌≡◌, ◌++◌, true, OnOk};

use crate::fault::FrameFault;
use crate::field::{Field, Opt};
use crate::list::SetOf;
use crate::number::u8_at;
use crate::text::{MatchText, PatternText, TextOf, TypeName};
use al_base::limits::{
    LONGEST_DESCRIPTION, LONGEST_SHELF_NAME, MOST_SHELF_RESOURCES, MOST_SHELF_TYPES,
};
use al_model::Event;
use al_shelf::{Shelf, TypeMatch};
use std::alloc::{AllocError, Global};

pub type ShelfName = TextOf<1, LONGEST_SHELF_NAME>;

// A count in a frame has two bytes.

const RESOURCES: u16 = MOST_SHELF_RESOURCES as u16;

const TYPES: u16 = MOST_SHELF_TYPES as u16;

type Resources = SetOf<MatchText, RESOURCES>;

type Types = SetOf<Criterion, TYPES>;

type Description = Opt<TextOf<0, LONGEST_DESCRIPTION>>;

/// A criterion on the alarm's type.
pub struct Criterion;

impl Field for Criterion {
    type Value = TypeMatch;

    ghost format = { criterion };

    #[tactic(auto, unfolding(crate::specs::Frames::criterion))]
    fn read(alloc: Global, n: usize, bytes: &[u8]) -> Result<(TypeMatch, &[u8]), FrameFault> {
        let (type_id, rest) = TypeName::read(alloc, n, bytes)?;
        let (qualifier, rest) = PatternText::read(alloc, n, rest)?;
        Ok((TypeMatch { type_id, qualifier }, rest))
    }

    #[tactic(auto, unfolding(crate::specs::Frames::criterion))]
    fn len(criterion: &TypeMatch) -> usize {
        TypeName::len(&criterion.type_id).saturating_add(PatternText::len(&criterion.qualifier))
    }

    #[tactic(auto, unfolding(crate::specs::Frames::criterion))]
    fn put(criterion: &TypeMatch, out: &mut Vec<u8>) -> Result<(), AllocError> {
        TypeName::put(&criterion.type_id, out)?;
        PatternText::put(&criterion.qualifier, out)
    }
}

/// A shelf without its position.
pub struct ShelfFields;

impl Field for ShelfFields {
    type Value = Shelf;

    ghost format = { shelf };

    #[tactic(auto, unfolding(crate::specs::Frames::shelf))]
    fn read(alloc: Global, n: usize, bytes: &[u8]) -> Result<(Shelf, &[u8]), FrameFault> {
        let (name, rest) = ShelfName::read(alloc, n, bytes)?;
        let (resources, rest) = Resources::read(alloc, n, rest)?;
        let (types, rest) = Types::read(alloc, n, rest)?;
        let (description, rest) = Description::read(alloc, n, rest)?;
        let shelf = Shelf {
            name,
            resources,
            types,
            description,
        };
        Ok((shelf, rest))
    }

    #[tactic(auto, unfolding(crate::specs::Frames::shelf))]
    fn len(shelf: &Shelf) -> usize {
        ShelfName::len(&shelf.name)
            .saturating_add(Resources::len(&shelf.resources))
            .saturating_add(Types::len(&shelf.types))
            .saturating_add(Description::len(&shelf.description))
    }

    #[tactic(auto, unfolding(crate::specs::Frames::shelf))]
    fn put(shelf: &Shelf, out: &mut Vec<u8>) -> Result<(), AllocError> {
        ShelfName::put(&shelf.name, out)?;
        Resources::put(&shelf.resources, out)?;
        Types::put(&shelf.types, out)?;
        Description::put(&shelf.description, out)
    }
}

/// A shelf and then its position.
pub fn shelf_put_at(alloc: Global, n: usize, bytes: &[u8]) -> Result<(Event, &[u8]), FrameFault>
    ensures { Gives (λ x. (x.0, x.1.now)) result (event_by shelf_put placed_shelf n bytes.now) }
{
    let (shelf, rest) = ShelfFields::read(alloc, n, bytes)?;
    let (at, rest) = u8_at(n, rest)?;
    Ok((Event::PutShelf { shelf, at }, rest))
}

pub fn put_shelf(shelf: &Shelf, at: u8, out: &mut Vec<u8>) -> Result<(), AllocError>
    requires { placed_shelf.fits (shelf.now, at) ≡ true }
    ensures { OnOk result (out.new.items ≡ out.old.items ++ placed_shelf.spell (shelf.now, at)) }
{
    ShelfFields::put(shelf, out)?;
    out.push(at)?;
    Ok(())
}
