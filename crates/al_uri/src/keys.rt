//! Keys of shelves and alarms in a path (RFC 8040, section 3.5.3).

ghost use Rattle.al_base.specs.Limits.{longest_resource};
ghost use Rattle.al_uri.specs.Faults.{Answers};
ghost use Rattle.al_uri.specs.Keys.{alarm_key, entered, text_key, type_key};
ghost use Rattle.al_uri.specs.Paths.{keys_of};
ghost use Rattle.std.specs.Option.{option_copied};
ghost use Rattle.std.specs.Prelude.{[], ◌∷◌};

use crate::escape::read_decoded;
use crate::fault::UriFault;
use crate::place::{Place, Way};
use crate::target::Target;
use crate::type_name::read_type;
use al_base::cut::cut;
use al_base::limits::{LONGEST_QUALIFIER, LONGEST_SHELF_NAME};
use al_base::{List, Text, TypeId, read_text};
use al_ids::{AlarmKey, Resource, read_resource};
use al_shelf::Spot;
use std::alloc::Global;

/// The keys in the text behind a `=`, which are cut at commas and then decoded. Without a `=` there are none.
#[tactic(auto, unfolding(crate::specs::Paths::keys_of), using(al_base::proofs::CutLemmas::pieces_cut, crate::proofs::Gathered::onto_none))]
pub fn read_keys(alloc: Global, text: Option<&[u8]>) -> Result<List<Text>, UriFault>
    ensures { Answers (keys_of (option_copied text.entry)) result }
{
    let mut keys = Vec::new(alloc);
    let mut rest = text;
    while let Some(bytes) = rest {
        let (key, more) = cut(bytes, b',');
        keys.push(read_decoded(alloc, key)?)?;
        rest = more;
    }
    Ok(List::of(keys))
}

impl Way {
    /// Where the way leads with these keys. BadKeys where their number is another, or one is outside its limits or its form.
    #[tactic(auto, unfolding(crate::specs::Keys::entered))]
    pub fn enter(self, alloc: Global, keys: &[Text]) -> Result<Place, UriFault>
        ensures { Answers (entered self keys.now) result }
    {
        match self {
            Way::To(place) => match keys {
                [] => Ok(place),
                _ => Err(UriFault::BadKeys),
            },
            Way::ToShelf => match keys {
                [name] => one_shelf(alloc, name),
                _ => Err(UriFault::BadKeys),
            },
            Way::ToAlarm => match keys {
                [resource, type_id, qualifier] => Ok(Place::At(Target::OneAlarm {
                    key: read_key(alloc, resource, type_id, qualifier)?,
                })),
                _ => Err(UriFault::BadKeys),
            },
            Way::ToShelved => match keys {
                [resource, type_id, qualifier] => Ok(Place::At(Target::OneShelved {
                    key: read_key(alloc, resource, type_id, qualifier)?,
                })),
                _ => Err(UriFault::BadKeys),
            },
        }
    }
}

/// The three keys of an alarm.
#[tactic(auto, unfolding(crate::specs::Keys::alarm_key))]
fn read_key(
    alloc: Global,
    resource: &Text,
    type_id: &Text,
    qualifier: &Text,
) -> Result<AlarmKey, UriFault>
    ensures { Answers (alarm_key resource.now type_id.now qualifier.now) result }
{
    Ok(AlarmKey {
        resource: resource_key(alloc, resource)?,
        type_id: type_key(alloc, type_id)?,
        qualifier: text_key(alloc, 0, LONGEST_QUALIFIER, qualifier)?,
    })
}

#[tactic(auto, unfolding(crate::specs::Keys::text_key))]
fn resource_key(alloc: Global, key: &Text) -> Result<Resource, UriFault>
    ensures { Answers (text_key 1 longest_resource key.now) result }
{
    Ok(read_resource(alloc, key.bytes())?)
}

#[tactic(auto, unfolding(crate::specs::Keys::type_key))]
fn type_key(alloc: Global, key: &Text) -> Result<TypeId, UriFault>
    ensures { Answers (type_key key.now) result }
{
    Ok(read_type(alloc, key.bytes())?)
}

/// A text of so many bytes.
#[tactic(auto, unfolding(crate::specs::Keys::text_key))]
fn text_key(alloc: Global, least: usize, most: usize, key: &Text) -> Result<Text, UriFault>
    ensures { Answers (text_key least most key.now) result }
{
    Ok(read_text(alloc, least, most, key.bytes())?)
}

#[tactic(auto, unfolding(crate::specs::Keys::entered))]
fn one_shelf(alloc: Global, name: &Text) -> Result<Place, UriFault>
    ensures { Answers (entered Way.ToShelf (name.now ∷ [])) result }
{
    Ok(Place::At(Target::OneShelf {
        name: text_key(alloc, 1, LONGEST_SHELF_NAME, name)?,
        spot: Spot::Keep,
    }))
}
