ghost use Rattle.al_ids.specs.Matching.{matches};
ghost use Rattle.al_select.specs.Filters.{compress_takes};
ghost use Rattle.al_base.specs.Texts.{same_text};
ghost use Rattle.al_select.specs.Meets.{MeetsCompress};
ghost use Rattle.std.specs.Option.{option_map_or};
ghost use Rattle.std.specs.Prelude.{◌≡◌, ◌↔◌, true, IsTrue};

use al_base::{Copied, Text, TypeId};
use al_ids::{AlarmKey, Resource, ResourceMatch};
use std::alloc::{AllocError, Global};

/// Which alarms of its side a compression shortens: those that meet all of it (RFC 8632, action `compress-alarms`).
#[derive(Debug)]
pub struct CompressFilter {
    /// What has to match the alarm's resource.
    pub resource: Option<ResourceMatch>,
    /// What the alarm's type has to be, and not only derive from.
    pub type_id: Option<TypeId>,
    pub qualifier: Option<Text>,
}

impl CompressFilter {
    #[tactic(auto, using(crate::proofs::Takings::decides_compress), unfolding(crate::specs::Filters::compress_takes))]
    /// Whether a compression takes the alarm of the key.
    pub fn takes(&self, key: &AlarmKey) -> bool
        ensures value { result ≡ compress_takes self.now key.now }
        ensures meaning { IsTrue result ↔ MeetsCompress self.now key.now }
    {
        self.takes_resource(&key.resource)
            && self.takes_type(&key.type_id)
            && self.takes_qualifier(&key.qualifier)
    }

    fn takes_resource(&self, resource: &Resource) -> bool
        ensures { result ≡ option_map_or (λ m. matches m resource.now) self.now.resource true }
    {
        match &self.resource {
            Some(criterion) => criterion.matches(resource),
            None => true,
        }
    }

    fn takes_type(&self, type_id: &TypeId) -> bool
        ensures { result ≡ option_map_or (same_text type_id.now) self.now.type_id true }
    {
        match &self.type_id {
            Some(wanted) => *type_id == *wanted,
            None => true,
        }
    }

    fn takes_qualifier(&self, qualifier: &Text) -> bool
        ensures { result ≡ option_map_or (same_text qualifier.now) self.now.qualifier true }
    {
        match &self.qualifier {
            Some(wanted) => *qualifier == *wanted,
            None => true,
        }
    }
}

// By hand, so that an early return has one call for the whole value.
impl Drop for CompressFilter {
    fn drop(self) {
        let CompressFilter {
            resource: _,
            type_id: _,
            qualifier: _,
        } = self;
    }
}

impl Copied for CompressFilter {
    fn copy(&self, alloc: Global) -> Result<CompressFilter, AllocError> {
        Ok(CompressFilter {
            resource: self.resource.copy(alloc)?,
            type_id: self.type_id.copy(alloc)?,
            qualifier: self.qualifier.copy(alloc)?,
        })
    }
}
