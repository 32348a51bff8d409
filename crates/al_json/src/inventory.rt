//! The inventory.

ghost use Rattle.al_base.specs.Names.{severity_name};
ghost use Rattle.al_fields.specs.Leaves.{leaf_data};
ghost use Rattle.al_fields.specs.Members.{fields_by, object_of};
ghost use Rattle.al_json.specs.Inventories.{has_severity, identity_tree, row_tree, severities_in};
ghost use Rattle.al_json.specs.Pieces.{inner_data};
ghost use Rattle.std.specs.Prelude.{◌≡◌, filter, length, option_copied, option_map, slice_get};

use crate::inner::Inner;
use al_base::{Severity, Text};
use al_fields::{Field, Held, Leaf, Object, Series, Shown, object};
use al_types::{Identity, Row};
use serde_json::Value;
use std::alloc::{AllocError, Global};

/// What alarms of one type and qualifier may be (RFC 8632, list `alarm-type` of the inventory).
#[tactic(auto, unfolding(crate::specs::Inventories::row_tree))]
pub(crate) fn row_object(row: &Row) -> Object<[Field<Inner<'_>>; 7]>
    ensures { object_of (fields_by inner_data result.table) ≡ row_tree row.now }
{
    object! {
        "alarm-type-id": Inner::Leaf(Leaf::Text(row.type_id.text())),
        "alarm-type-qualifier": Inner::Leaf(Leaf::Text(&row.qualifier)),
        "description": Inner::Leaf(Leaf::Text(&row.description)),
        "ietf-alarms-x733:event-type": Inner::Leaf(Leaf::Word(row.event_type.name())),
        "resource": Inner::Texts(row.resources.as_slice()),
        "severity-level": Inner::Severities(row),
        "will-clear": Inner::Leaf(Leaf::Flag(row.will_clear)),
    }
}

/// A declared alarm type.
#[tactic(auto, unfolding(crate::specs::Inventories::identity_tree))]
pub(crate) fn identity_object(identity: &Identity) -> Object<[Field<Leaf<'_>>; 2]>
    ensures { object_of (fields_by leaf_data result.table) ≡ identity_tree identity.now }
{
    object! {
        "base": Leaf::Text(identity.base.text()),
        "name": Leaf::Text(identity.name.text()),
    }
}

/// The rows of an inventory.
#[derive(Clone, Copy)]
pub(crate) struct Rows<'a>(pub(crate) &'a [Row]);

impl<'a> Series for Rows<'a> {
    ghost use Rattle.al_json.specs.Inventories.{row_tree};
    ghost use Rattle.std.specs.Prelude.{map};

    ghost trees = { λ s. map row_tree s.0.now };

    fn count(&self) -> usize {
        self.0.len()
    }

    fn value_at(&self, alloc: Global, i: usize) -> Result<Option<Value>, AllocError> {
        match self.0.get(i) {
            Some(found) => row_object(found).value(alloc),
            None => Ok(None),
        }
    }

    fn put_at(&self, out: &mut Vec<u8>, i: usize) {
        if let Some(found) = self.0.get(i) {
            row_object(found).put(out);
        }
    }

    fn len_at(&self, i: usize) -> u64 {
        match self.0.get(i) {
            Some(found) => row_object(found).text_len(),
            None => 0,
        }
    }
}

/// The identities of an inventory.
#[derive(Clone, Copy)]
pub(crate) struct Identities<'a>(pub(crate) &'a [Identity]);

impl<'a> Series for Identities<'a> {
    ghost use Rattle.al_json.specs.Inventories.{identity_tree};
    ghost use Rattle.std.specs.Prelude.{map};

    ghost trees = { λ s. map identity_tree s.0.now };

    fn count(&self) -> usize {
        self.0.len()
    }

    fn value_at(&self, alloc: Global, i: usize) -> Result<Option<Value>, AllocError> {
        match self.0.get(i) {
            Some(found) => identity_object(found).value(alloc),
            None => Ok(None),
        }
    }

    fn put_at(&self, out: &mut Vec<u8>, i: usize) {
        if let Some(found) = self.0.get(i) {
            identity_object(found).put(out);
        }
    }

    fn len_at(&self, i: usize) -> u64 {
        match self.0.get(i) {
            Some(found) => identity_object(found).text_len(),
            None => 0,
        }
    }
}

/// Texts one after the other.
#[derive(Clone, Copy)]
pub(crate) struct Texts<'a>(pub(crate) &'a [Text]);

impl<'a> Series for Texts<'a> {
    ghost use Rattle.serde_json.specs.Data.{string};
    ghost use Rattle.std.specs.Prelude.{map};

    ghost trees = { λ s. map string s.0.now };

    fn count(&self) -> usize {
        self.0.len()
    }

    fn value_at(&self, alloc: Global, i: usize) -> Result<Option<Value>, AllocError> {
        match self.0.get(i) {
            Some(found) => Leaf::Text(found).value(alloc),
            None => Ok(None),
        }
    }

    fn put_at(&self, out: &mut Vec<u8>, i: usize) {
        if let Some(found) = self.0.get(i) {
            Leaf::Text(found).put(out);
        }
    }

    fn len_at(&self, i: usize) -> u64 {
        match self.0.get(i) {
            Some(found) => Leaf::Text(found).text_len(),
            None => 0,
        }
    }
}

/// The severities of a row, from the least to the gravest.
#[derive(Clone, Copy)]
pub(crate) struct Severities<'a>(pub(crate) &'a Row);

impl<'a> Series for Severities<'a> {
    ghost use Rattle.al_json.specs.Inventories.{severity_trees};

    ghost trees = { λ s. severity_trees s.0.now.severities };

    fn count(&self) -> usize {
        severities_of(self.0.severities)
    }

    fn value_at(&self, alloc: Global, i: usize) -> Result<Option<Value>, AllocError> {
        match name_at(self.0, i) {
            Some(found) => Held(Leaf::Word(found)).value(alloc),
            None => Ok(None),
        }
    }

    fn put_at(&self, out: &mut Vec<u8>, i: usize) {
        if let Some(found) = name_at(self.0, i) {
            Held(Leaf::Word(found)).put(out);
        }
    }

    fn len_at(&self, i: usize) -> u64 {
        match name_at(self.0, i) {
            Some(found) => Held(Leaf::Word(found)).text_len(),
            None => 0,
        }
    }
}

/// The name of the row's severity at this index, from the least to the gravest.
fn name_at(row: &Row, i: usize) -> Option<&str>
    ensures { option_copied result
        ≡ option_map severity_name (slice_get (severities_in row.now.severities) i) }
{
    match severity_at(row.severities, i) {
        Some(severity) => Some(severity.name()),
        None => None,
    }
}

fn has(set: u8, severity: Severity) -> bool
    ensures { result ≡ has_severity set severity }
{
    set & (1 << severity.rank()) != 0
}

/// How many severities the set has.
fn severities_of(set: u8) -> usize
    ensures { result ≡ length (severities_in set) }
{
    Severity::ALL
        .iter()
        .filter(|severity| has(set, **severity))
        .count()
}

/// The severity at this index among those of the set.
fn severity_at(set: u8, index: usize) -> Option<Severity>
    ensures { result ≡ slice_get (severities_in set) index }
{
    let all = Severity::ALL;
    nth_in(set, all.as_slice(), index)
}

/// The severity at this index among these that are in the set.
#[tactic(auto, using(crate::proofs::Finding::behind_first, crate::proofs::Finding::at_first))]
fn nth_in(set: u8, severities: &[Severity], index: usize) -> Option<Severity>
    ensures { result ≡ slice_get (filter (has_severity set) severities.now) index }
{
    let Some((first, rest)) = severities.split_first() else {
        return None;
    };
    if !has(set, *first) {
        return nth_in(set, rest, index);
    }
    if index == 0 {
        Some(*first)
    } else {
        nth_in(set, rest, index - 1)
    }
}
