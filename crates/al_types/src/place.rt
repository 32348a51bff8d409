//! Where the types of an inventory stand.

ghost use Rattle.al_types.specs.Places.{HasBases, IsBaseFault, IsPlaceBefore};
ghost use Rattle.std.specs.Prelude.{◌≤◌, IfErr, IfOk, length};

use crate::fault::InventoryFault;
use crate::row::Identity;
use al_base::TypeId;
use std::alloc::Global;

/// The name of the type that all others derive from (RFC 8632, identity `alarm-type-id`).
const ROOT: &str = "ietf-alarms:alarm-type-id";

/// Where a known type stands: it is the root, or the identity at a place.
#[derive(Clone, Copy, Debug, PartialEq, Eq)]
pub enum Place {
    Root,
    Declared(usize),
}

/// Where the type stands among the root and the first `n` identities.
pub fn place_before(identities: &[Identity], n: usize, name: &TypeId) -> Option<Place>
    requires { n ≤ length identities.now }
    ensures { IsPlaceBefore identities.now n name.now result }
{
    if name.bytes() == ROOT.as_bytes() {
        return Some(Place::Root);
    }
    for place in 0..n {
        if identities[place].name == *name {
            return Some(Place::Declared(place));
        }
    }
    None
}

/// Where the base of each identity stands.
pub fn find_bases(alloc: Global, identities: &[Identity]) -> Result<Vec<Place>, InventoryFault>
    ensures bases { IfOk result (λ bases.
        HasBases identities.now bases.items (length identities.now)) }
    ensures fault { IfErr result (λ fault. IsBaseFault identities.now fault) }
{
    let mut bases = Vec::with_capacity(alloc, identities.len())?;
    for n in 0..identities.len() {
        let Some(base) = place_before(identities, n, &identities[n].base) else {
            return Err(InventoryFault::UnknownBase(n));
        };
        if bases.push(base).is_err() {
            return Err(InventoryFault::Memory);
        }
    }
    Ok(bases)
}
