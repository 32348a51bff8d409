ghost use Rattle.al_ids.specs.Keys.{is_same_key, key_cmp};
ghost use Rattle.std.proofs.Common.{rules};
ghost use Rattle.std.specs.Cmp.Rules.{comparing};
ghost use Rattle.std.specs.Cmp.{partial_order_from_own_ties};
ghost use Rattle.std.specs.Cmp.Lexicographic.{slice_cmp};
ghost use Rattle.std.specs.Ordering.{as_partial_cmp, nat_cmp, ordering_then};
ghost use Rattle.std.specs.Prelude.{◌≡◌, ◌↔◌, IsTrue};

use crate::resource::Resource;
use al_base::{Copied, Text, TypeId};
use std::alloc::{AllocError, Global};
use std::cmp::Ordering;

/// What identifies an alarm (RFC 8632, section 3.3).
#[derive(Debug, Drop)]
pub struct AlarmKey {
    /// What the alarm is about.
    pub resource: Resource,
    /// The type of the alarm.
    pub type_id: TypeId,
    /// What tells alarms of one type apart that were known only when the device ran, mostly empty.
    pub qualifier: Text,
}

impl AlarmKey {
    /// The order of keys. What comes after the first difference isn't looked at, since most keys of a list differ in their resources.
    fn order(&self, other: &AlarmKey) -> Ordering
        ensures { result ≡ key_cmp self.now other.now }
    {
        match self.resource.cmp(&other.resource) {
            Ordering::Less => Ordering::Less,
            Ordering::Equal => self.order_by_type(other),
            Ordering::Greater => Ordering::Greater,
        }
    }

    /// The order of keys of one resource.
    fn order_by_type(&self, other: &AlarmKey) -> Ordering
        ensures { result ≡ ordering_then (slice_cmp nat_cmp self.now.type_id other.now.type_id)
            (slice_cmp nat_cmp self.now.qualifier other.now.qualifier) }
    {
        match self.type_id.cmp(&other.type_id) {
            Ordering::Less => Ordering::Less,
            Ordering::Equal => self.qualifier.cmp(&other.qualifier),
            Ordering::Greater => Ordering::Greater,
        }
    }
}

// Keys are ordered by the bytes of the resource, then of the type, then of the qualifier.

impl PartialEq for AlarmKey {
    ghost eq = { is_same_key };

    ghost laws = { Prim.search (comparing, rules) };

    fn eq(&self, other: &AlarmKey) -> bool
        ensures value { result ≡ is_same_key self.now other.now }
        ensures exact { IsTrue result ↔ (self.now ≡ other.now) }
    {
        self.resource == other.resource
            && self.type_id == other.type_id
            && self.qualifier == other.qualifier
    }
}

impl Eq for AlarmKey {
    ghost laws = { Prim.search (comparing, rules) };
}

impl PartialOrd for AlarmKey {
    ghost partial_cmp = { as_partial_cmp key_cmp };

    ghost laws = { partial_order_from_own_ties (Prim.search (comparing, rules))
        (Prim.search (comparing, rules)) };

    fn partial_cmp(&self, other: &AlarmKey) -> Option<Ordering> {
        Some(self.cmp(other))
    }
}

impl Ord for AlarmKey {
    ghost cmp = { key_cmp };

    ghost total = { Prim.search (comparing, rules) };

    ghost matches_partial_cmp = { Prim.search (comparing, rules) };

    ghost matches_eq = { Prim.search (comparing, rules) };

    fn cmp(&self, other: &AlarmKey) -> Ordering
        ensures value { result ≡ key_cmp self.now other.now }
        ensures exact { (result ≡ Ordering.Equal) ↔ (self.now ≡ other.now) }
    {
        self.order(other)
    }
}

impl Copied for AlarmKey {
    fn copy(&self, alloc: Global) -> Result<AlarmKey, AllocError> {
        Ok(AlarmKey {
            resource: self.resource.copy(alloc)?,
            type_id: self.type_id.copy(alloc)?,
            qualifier: self.qualifier.copy(alloc)?,
        })
    }
}
