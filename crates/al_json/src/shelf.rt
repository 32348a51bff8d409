//! Shelves.

ghost use Rattle.al_fields.specs.Leaves.{leaf_data};
ghost use Rattle.al_fields.specs.Members.{fields_by, object_of};
ghost use Rattle.al_json.specs.Pieces.{inner_data};
ghost use Rattle.serde_json.specs.Data.{string};
ghost use Rattle.al_json.specs.Shelves.{shelf_tree, type_match_tree};
ghost use Rattle.std.specs.Prelude.{◌≡◌, IsUtf8, Some};

use crate::inner::Inner;
use al_fields::{Field, Leaf, Object, Series, Shown, object};
use al_ids::ResourceMatch;
use al_shelf::{Shelf, Shelves, TypeMatch};
use serde_json::Value;
use std::alloc::{AllocError, Global};
use std::str;

/// A criterion on the alarm's type (RFC 8632, list `alarm-type` of a shelf).
#[tactic(auto, using(crate::proofs::PatternTexts::pattern_utf8), unfolding(crate::specs::Shelves::type_match_tree))]
pub(crate) fn type_match_object(criterion: &TypeMatch) -> Object<[Field<Leaf<'_>>; 2]>
    ensures { object_of (fields_by leaf_data result.table) ≡ type_match_tree criterion.now }
{
    object! {
        "alarm-type-id": Leaf::Text(criterion.type_id.text()),
        "alarm-type-qualifier-match": Leaf::Word(str_of(criterion.qualifier.source())),
    }
}

/// A shelf (RFC 8632, list `shelf`).
#[tactic(auto, unfolding(crate::specs::Shelves::shelf_tree))]
pub(crate) fn shelf_object(shelf: &Shelf) -> Object<[Field<Inner<'_>>; 4]>
    ensures { object_of (fields_by inner_data result.table) ≡ shelf_tree shelf.now }
{
    object! {
        "alarm-type": Inner::Types(shelf.types.as_slice()),
        "description": Inner::Leaf(Leaf::of_text(shelf.description.as_ref())),
        "name": Inner::Leaf(Leaf::Text(&shelf.name)),
        "resource": Inner::Resources(shelf.resources.as_slice()),
    }
}

#[tactic(auto, using(crate::proofs::PatternTexts::match_utf8))]
fn resource_leaf(criterion: &ResourceMatch) -> Leaf<'_>
    ensures { leaf_data result ≡ Some (string criterion.now) }
{
    Leaf::Word(str_of(criterion.source()))
}

/// The bytes as a text, which they are.
fn str_of(bytes: &[u8]) -> &str
    requires { IsUtf8 bytes.now }
    ensures { result.now ≡ bytes.now }
{
    match str::from_utf8(bytes) {
        Ok(text) => text,
        Err(_) => unreachable!(),
    }
}

/// The criteria on types of a shelf.
#[derive(Clone, Copy)]
pub(crate) struct Types<'a>(pub(crate) &'a [TypeMatch]);

impl<'a> Series for Types<'a> {
    ghost use Rattle.al_json.specs.Shelves.{type_match_tree};
    ghost use Rattle.std.specs.Prelude.{map};

    ghost trees = { λ s. map type_match_tree s.0.now };

    fn count(&self) -> usize {
        self.0.len()
    }

    fn value_at(&self, alloc: Global, i: usize) -> Result<Option<Value>, AllocError> {
        match self.0.get(i) {
            Some(found) => type_match_object(found).value(alloc),
            None => Ok(None),
        }
    }

    fn put_at(&self, out: &mut Vec<u8>, i: usize) {
        if let Some(found) = self.0.get(i) {
            type_match_object(found).put(out);
        }
    }

    fn len_at(&self, i: usize) -> u64 {
        match self.0.get(i) {
            Some(found) => type_match_object(found).text_len(),
            None => 0,
        }
    }
}

/// The criteria on resources of a shelf.
#[derive(Clone, Copy)]
pub(crate) struct Resources<'a>(pub(crate) &'a [ResourceMatch]);

impl<'a> Series for Resources<'a> {
    ghost use Rattle.serde_json.specs.Data.{string};
    ghost use Rattle.std.specs.Prelude.{map};

    ghost trees = { λ s. map string s.0.now };

    fn count(&self) -> usize {
        self.0.len()
    }

    fn value_at(&self, alloc: Global, i: usize) -> Result<Option<Value>, AllocError> {
        match self.0.get(i) {
            Some(found) => resource_leaf(found).value(alloc),
            None => Ok(None),
        }
    }

    fn put_at(&self, out: &mut Vec<u8>, i: usize) {
        if let Some(found) = self.0.get(i) {
            resource_leaf(found).put(out);
        }
    }

    fn len_at(&self, i: usize) -> u64 {
        match self.0.get(i) {
            Some(found) => resource_leaf(found).text_len(),
            None => 0,
        }
    }
}

/// All shelves in their order.
#[derive(Clone, Copy)]
pub(crate) struct AllShelves<'a>(pub(crate) &'a Shelves);

impl<'a> Series for AllShelves<'a> {
    ghost use Rattle.al_json.specs.Shelves.{shelf_tree};
    ghost use Rattle.std.specs.Prelude.{map};

    ghost trees = { λ s. map shelf_tree s.0.now.shelves };

    fn count(&self) -> usize {
        self.0.len()
    }

    fn value_at(&self, alloc: Global, i: usize) -> Result<Option<Value>, AllocError> {
        match self.0.at(i) {
            Some(found) => shelf_object(found).value(alloc),
            None => Ok(None),
        }
    }

    fn put_at(&self, out: &mut Vec<u8>, i: usize) {
        if let Some(found) = self.0.at(i) {
            shelf_object(found).put(out);
        }
    }

    fn len_at(&self, i: usize) -> u64 {
        match self.0.at(i) {
            Some(found) => shelf_object(found).text_len(),
            None => 0,
        }
    }
}
