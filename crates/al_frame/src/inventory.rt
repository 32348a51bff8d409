//! Inventories, their identities and their rows.

ghost use Rattle.al_frame.specs.Formats.{Gives, checked, passed};
ghost use Rattle.al_base.specs.Limits.{is_severity_set};
ghost use Rattle.al_frame.specs.Frames.{identity, inventory, makes_inventory, row};

use crate::fault::FrameFault;
use crate::field::Field;
use crate::list::{ListOf, each_len, put_list};
use crate::number::{bad, place, u8_at};
use crate::report::Qualifier;
use crate::text::{TextOf, TypeName};
use crate::word::Coded;
use al_base::limits::{
    LONGEST_DESCRIPTION, LONGEST_RESOURCE, MOST_IDENTITIES, MOST_ROW_RESOURCES, MOST_ROWS,
};
use al_base::{EventType, List};
use al_types::{Identity, Inventory, InventoryFault, Row};
use std::alloc::{AllocError, Global};

// A count in a frame has two bytes.

const IDENTITIES: u16 = MOST_IDENTITIES as u16;

const ROWS: u16 = MOST_ROWS as u16;

const RESOURCES: u16 = MOST_ROW_RESOURCES as u16;

type Resources = ListOf<TextOf<1, LONGEST_RESOURCE>, RESOURCES>;

type Description = TextOf<0, LONGEST_DESCRIPTION>;

type Identities = ListOf<IdentityFields, IDENTITIES>;

type Rows = ListOf<RowFields, ROWS>;

/// A declared alarm type.
pub struct IdentityFields;

impl Field for IdentityFields {
    type Value = Identity;

    ghost format = { identity };

    #[tactic(auto, unfolding(crate::specs::Frames::identity))]
    fn read(alloc: Global, n: usize, bytes: &[u8]) -> Result<(Identity, &[u8]), FrameFault> {
        let (name, rest) = TypeName::read(alloc, n, bytes)?;
        let (base, rest) = TypeName::read(alloc, n, rest)?;
        Ok((Identity { name, base }, rest))
    }

    #[tactic(auto, unfolding(crate::specs::Frames::identity))]
    fn len(identity: &Identity) -> usize {
        TypeName::len(&identity.name).saturating_add(TypeName::len(&identity.base))
    }

    #[tactic(auto, unfolding(crate::specs::Frames::identity))]
    fn put(identity: &Identity, out: &mut Vec<u8>) -> Result<(), AllocError> {
        TypeName::put(&identity.name, out)?;
        TypeName::put(&identity.base, out)
    }
}

/// A set of severities, in a byte whose bit n is that of the n-th.
pub struct SeveritySet;

impl Field for SeveritySet {
    type Value = u8;

    ghost use Rattle.al_frame.specs.Formats.{byte};

    ghost format = { checked is_severity_set byte };

    #[tactic(auto, unfolding(crate::specs::Formats::passed))]
    fn read(_alloc: Global, n: usize, bytes: &[u8]) -> Result<(u8, &[u8]), FrameFault> {
        let (set, rest) = u8_at(n, bytes)?;
        if set > 31 {
            return Err(bad(n, bytes));
        }
        Ok((set, rest))
    }

    fn len(_set: &u8) -> usize {
        1
    }

    fn put(set: &u8, out: &mut Vec<u8>) -> Result<(), AllocError> {
        out.push(*set)?;
        Ok(())
    }
}

/// What alarms of a type and qualifier may be.
pub struct RowFields;

impl Field for RowFields {
    type Value = Row;

    ghost format = { row };

    #[tactic(auto, unfolding(crate::specs::Frames::row))]
    fn read(alloc: Global, n: usize, bytes: &[u8]) -> Result<(Row, &[u8]), FrameFault> {
        let (type_id, rest) = TypeName::read(alloc, n, bytes)?;
        let (qualifier, rest) = Qualifier::read(alloc, n, rest)?;
        let (resources, rest) = Resources::read(alloc, n, rest)?;
        let (will_clear, rest) = Coded::<bool>::read(alloc, n, rest)?;
        let (severities, rest) = SeveritySet::read(alloc, n, rest)?;
        let (description, rest) = Description::read(alloc, n, rest)?;
        let (event_type, rest) = Coded::<EventType>::read(alloc, n, rest)?;
        let row = Row {
            type_id,
            qualifier,
            resources,
            will_clear,
            severities,
            description,
            event_type,
        };
        Ok((row, rest))
    }

    #[tactic(auto, unfolding(crate::specs::Frames::row))]
    fn len(row: &Row) -> usize {
        TypeName::len(&row.type_id)
            .saturating_add(Qualifier::len(&row.qualifier))
            .saturating_add(Resources::len(&row.resources))
            .saturating_add(Coded::<bool>::len(&row.will_clear))
            .saturating_add(SeveritySet::len(&row.severities))
            .saturating_add(Description::len(&row.description))
            .saturating_add(Coded::<EventType>::len(&row.event_type))
    }

    #[tactic(auto, unfolding(crate::specs::Frames::row))]
    fn put(row: &Row, out: &mut Vec<u8>) -> Result<(), AllocError> {
        TypeName::put(&row.type_id, out)?;
        Qualifier::put(&row.qualifier, out)?;
        Resources::put(&row.resources, out)?;
        Coded::<bool>::put(&row.will_clear, out)?;
        SeveritySet::put(&row.severities, out)?;
        Description::put(&row.description, out)?;
        Coded::<EventType>::put(&row.event_type, out)?;
        Ok(())
    }
}

/// Lists that make an inventory. The fault of others stands at the first.
pub struct InventoryFields;

impl Field for InventoryFields {
    type Value = Inventory;

    ghost format = { inventory };

    #[tactic(auto, unfolding(crate::specs::Frames::inventory))]
    fn read(alloc: Global, n: usize, bytes: &[u8]) -> Result<(Inventory, &[u8]), FrameFault> {
        let (identities, rest) = Identities::read(alloc, n, bytes)?;
        let (rows, rest) = Rows::read(alloc, n, rest)?;
        let inventory = inventory_of(alloc, place(n, bytes), identities, rows)?;
        Ok((inventory, rest))
    }

    #[tactic(auto, unfolding(crate::specs::Frames::inventory))]
    fn len(inventory: &Inventory) -> usize {
        each_len::<IdentityFields>(inventory.identities())
            .saturating_add(each_len::<RowFields>(inventory.rows()))
            .saturating_add(4)
    }

    #[tactic(auto, unfolding(crate::specs::Frames::inventory))]
    fn put(inventory: &Inventory, out: &mut Vec<u8>) -> Result<(), AllocError> {
        put_list::<IdentityFields>(inventory.identities(), out)?;
        put_list::<RowFields>(inventory.rows(), out)
    }
}

/// The inventory of these lists, if they make one. The fault is at this place.
#[tactic(auto, using(al_types::proofs::InventoryTests::sound_holds, al_types::proofs::InventoryTests::unsound_fails), unfolding(crate::specs::Formats::passed))]
fn inventory_of(
    alloc: Global,
    place: usize,
    identities: List<Identity>,
    rows: List<Row>,
) -> Result<Inventory, FrameFault>
    ensures { Gives (λ i. (i.identities, i.rows)) result (passed makes_inventory place (
      identities,
      rows,
    )) }
{
    match Inventory::build(alloc, identities.into_vec(), rows.into_vec()) {
        Ok(inventory) => Ok(inventory),
        Err(InventoryFault::Memory) => Err(FrameFault::Memory),
        Err(_) => Err(FrameFault::Byte(place)),
    }
}
