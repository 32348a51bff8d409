//! Texts that have to be of a form of this crate.

ghost use Rattle.al_base.specs.Forms.{IsReadAs};
ghost use Rattle.al_base.specs.Limits.{is_text, longest_resource};
ghost use Rattle.al_ids.specs.Forms.{is_match, is_pattern_text};

use crate::resource::{Resource, ResourceFault};
use crate::resource_match::{MatchFault, ResourceMatch};
use al_base::FormFault;
use al_base::limits::LONGEST_PATTERN;
use al_pattern::{Pattern, PatternFault};
use std::alloc::Global;
use std::str;

/// The resource of this name.
#[tactic(auto, using(crate::proofs::TextTests::resource_holds, crate::proofs::TextTests::resource_fails))]
pub fn read_resource(alloc: Global, bytes: &[u8]) -> Result<Resource, FormFault>
    ensures { IsReadAs (is_text 1 longest_resource) bytes.now result }
{
    match Resource::read(alloc, bytes) {
        Ok(resource) => Ok(resource),
        Err(ResourceFault::Memory) => Err(FormFault::Memory),
        Err(ResourceFault::Empty | ResourceFault::TooLong | ResourceFault::NotUtf8) => {
            Err(FormFault::Form)
        }
    }
}

/// What resources are matched by.
#[tactic(auto, using(crate::proofs::TextTests::match_holds, crate::proofs::TextTests::match_fails))]
pub fn read_match(alloc: Global, bytes: &[u8]) -> Result<ResourceMatch, FormFault>
    ensures { IsReadAs is_match bytes.now result }
{
    match ResourceMatch::read(alloc, bytes) {
        Ok(criterion) => Ok(criterion),
        Err(MatchFault::Memory) => Err(FormFault::Memory),
        Err(_) => Err(FormFault::Form),
    }
}

/// A pattern for qualifiers.
#[tactic(auto, using(al_base::proofs::TextTests::utf8_holds, al_base::proofs::TextTests::utf8_fails), unfolding(crate::specs::Forms::is_pattern_text, al_base::specs::Limits::is_text))]
pub fn read_pattern(alloc: Global, bytes: &[u8]) -> Result<Pattern, FormFault>
    ensures { IsReadAs is_pattern_text bytes.now result }
{
    if bytes.len() > LONGEST_PATTERN || str::from_utf8(bytes).is_err() {
        return Err(FormFault::Form);
    }
    match Pattern::read(alloc, bytes) {
        Ok(pattern) => Ok(pattern),
        Err(PatternFault::Memory) => Err(FormFault::Memory),
        Err(_) => Err(FormFault::Form),
    }
}
