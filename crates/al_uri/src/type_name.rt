//! Names of alarm types as they are written in paths and bodies.

ghost use Rattle.al_base.specs.Forms.{IsReadAs};
ghost use Rattle.al_base.specs.Identifiers.{is_type_name};
ghost use Rattle.al_uri.specs.TypeNames.{is_colon, with_module};
ghost use Rattle.std.specs.List.{list_any};
ghost use Rattle.std.specs.Prelude.{◌≡◌, ◌++◌, IfOk, codes};

use al_base::{FormFault, TypeId};
use std::alloc::{AllocError, Global};

/// The alarm type of a name. One without a colon is of the module `ietf-alarms`, so that `link` names `ietf-alarms:link`. Form where
/// the name with its module is no alarm type.
#[tactic(auto, unfolding(crate::specs::TypeNames::with_module))]
pub fn read_type(alloc: Global, name: &[u8]) -> Result<TypeId, FormFault>
    ensures { IsReadAs is_type_name (with_module name.now) result }
{
    if has_colon(name) {
        return TypeId::read(alloc, name);
    }
    let full = qualified(alloc, name)?;
    TypeId::read(alloc, full.as_slice())
}

fn has_colon(name: &[u8]) -> bool
    ensures { result ≡ list_any is_colon name.now }
{
    name.iter().any(|byte| *byte == b':')
}

fn qualified(alloc: Global, name: &[u8]) -> Result<Vec<u8>, AllocError>
    ensures { IfOk result (λ full. full.items ≡ codes "ietf-alarms:" ++ name.now) }
{
    let mut full = Vec::from_slice(alloc, b"ietf-alarms:")?;
    full.extend_from_slice(name)?;
    Ok(full)
}
