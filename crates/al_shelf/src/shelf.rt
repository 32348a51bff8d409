ghost use Rattle.al_shelf.specs.Exact.{same_shelf_decides, same_type_match_decides};
ghost use Rattle.al_shelf.specs.Same.{same_shelf, same_type_match};
ghost use Rattle.al_shelf.specs.Takes.{IsOfType, Takes, TakesResource, TakesType};
ghost use Rattle.al_shelf.specs.Taking.{is_of_type, takes, takes_resource, takes_type};
ghost use Rattle.std.specs.Cmp.{decided, partial_equiv_from_equiv};
ghost use Rattle.std.specs.Prelude.{◌≡◌, ◌↔◌, IsTrue};

use al_base::{Copied, List, Text, TypeId};
use al_ids::{AlarmKey, Resource, ResourceMatch};
use al_pattern::Pattern;
use al_types::Inventory;
use std::alloc::{AllocError, Global};

/// A criterion of a shelf on the alarm's type (RFC 8632, list `alarm-type` of a shelf).
#[derive(Debug, Drop)]
pub struct TypeMatch {
    /// The type that the alarm's is or derives from.
    pub type_id: TypeId,
    /// What the alarm's qualifier has to match, the whole of it.
    pub qualifier: Pattern,
}

/// A shelf: which alarms are to be kept out of the list (RFC 8632, list `shelf`).
#[derive(Debug)]
pub struct Shelf {
    pub name: Text,
    /// The criteria on the alarm's resource. With none any resource will do.
    pub resources: List<ResourceMatch>,
    /// The criteria on its type and qualifier. With none any type will do.
    pub types: List<TypeMatch>,
    pub description: Option<Text>,
}

impl TypeMatch {
    /// Whether the alarms of the key meet the criterion.
    pub fn matches(&self, inventory: &Inventory, key: &AlarmKey) -> bool
        ensures relation { IsTrue result ↔ IsOfType inventory.now key.now self.now }
        ensures value { result ≡ is_of_type inventory.now key.now self.now }
    {
        inventory.derives(&key.type_id, &self.type_id)
            && self.qualifier.matches(key.qualifier.bytes())
    }
}

impl Shelf {
    /// Whether the shelf takes the alarms of the key.
    #[tactic(auto, unfolding(crate::specs::Taking::takes))]
    pub fn takes(&self, inventory: &Inventory, key: &AlarmKey) -> bool
        ensures relation { IsTrue result ↔ Takes inventory.now key.now self.now }
        ensures value { result ≡ takes inventory.now key.now self.now }
    {
        self.takes_resource(&key.resource) && self.takes_type(inventory, key)
    }

    fn takes_resource(&self, resource: &Resource) -> bool
        ensures relation { IsTrue result ↔ TakesResource resource.now self.now }
        ensures value { result ≡ takes_resource resource.now self.now }
    {
        let criteria = self.resources.as_slice();
        criteria.is_empty() || criteria.iter().any(|criterion| criterion.matches(resource))
    }

    fn takes_type(&self, inventory: &Inventory, key: &AlarmKey) -> bool
        ensures relation { IsTrue result ↔ TakesType inventory.now key.now self.now }
        ensures value { result ≡ takes_type inventory.now key.now self.now }
    {
        let criteria = self.types.as_slice();
        criteria.is_empty()
            || criteria
                .iter()
                .any(|criterion| criterion.matches(inventory, key))
    }
}

// Shelves and criteria are compared by their texts.

impl PartialEq for TypeMatch {
    ghost eq = { same_type_match };

    ghost laws = { partial_equiv_from_equiv (decided same_type_match same_type_match_decides) };

    fn eq(&self, other: &TypeMatch) -> bool
        ensures value { result ≡ same_type_match self.now other.now }
        ensures exact { IsTrue result ↔ (self.now ≡ other.now) }
    {
        self.type_id == other.type_id && self.qualifier == other.qualifier
    }
}

impl Eq for TypeMatch {
    ghost laws = { decided same_type_match same_type_match_decides };
}

impl PartialEq for Shelf {
    ghost eq = { same_shelf };

    ghost laws = { partial_equiv_from_equiv (decided same_shelf same_shelf_decides) };

    #[tactic(auto, using(crate::specs::Exact::same_shelf_decides), unfolding(crate::specs::Same::same_shelf))]
    fn eq(&self, other: &Shelf) -> bool
        ensures value { result ≡ same_shelf self.now other.now }
        ensures exact { IsTrue result ↔ (self.now ≡ other.now) }
    {
        self.name == other.name
            && self.resources == other.resources
            && self.types == other.types
            && self.description == other.description
    }
}

impl Eq for Shelf {
    ghost laws = { decided same_shelf same_shelf_decides };
}

// Written out, so that a shelf is dropped by one call.
impl Drop for Shelf {
    fn drop(self) {
        let Shelf {
            name: _,
            resources: _,
            types: _,
            description: _,
        } = self;
    }
}

impl Copied for TypeMatch {
    fn copy(&self, alloc: Global) -> Result<TypeMatch, AllocError> {
        Ok(TypeMatch {
            type_id: self.type_id.copy(alloc)?,
            qualifier: self.qualifier.copy(alloc)?,
        })
    }
}

impl Copied for Shelf {
    fn copy(&self, alloc: Global) -> Result<Shelf, AllocError> {
        Ok(Shelf {
            name: self.name.copy(alloc)?,
            resources: self.resources.copy(alloc)?,
            types: self.types.copy(alloc)?,
            description: self.description.copy(alloc)?,
        })
    }
}
