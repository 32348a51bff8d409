//! Inventories.

use al_base::{Copied, EventType, List, Severity, Text, TypeId};
use al_types::{Identity, Inventory, InventoryFault, Row};
use std::alloc::Global;
use std::test::Fail;

const ROOT: &str = "ietf-alarms:alarm-type-id";

fn identity(alloc: Global, name: &str, base: &str) -> Result<Identity, Fail> {
    Ok(Identity {
        name: TypeId::read(alloc, name.as_bytes())?,
        base: TypeId::read(alloc, base.as_bytes())?,
    })
}

fn row(alloc: Global, type_id: &str, qualifier: &str, severities: u8) -> Result<Row, Fail> {
    Ok(Row {
        type_id: TypeId::read(alloc, type_id.as_bytes())?,
        qualifier: Text::read(alloc, qualifier.as_bytes())?,
        resources: List::of(Vec::new(alloc)),
        will_clear: true,
        severities,
        description: Text::read(alloc, b"")?,
        event_type: EventType::Other,
    })
}

/// The inventory of these names and bases, so many times, and of so many equal rows; or its fault.
fn build(
    alloc: Global,
    pairs: &[(&str, &str)],
    times: usize,
    count: usize,
) -> Result<Result<Inventory, InventoryFault>, Fail> {
    let mut identities = Vec::new(alloc);
    for _ in 0..times {
        for (name, base) in pairs {
            identities.push(identity(alloc, name, base)?)?;
        }
    }
    let mut rows = Vec::new(alloc);
    for _ in 0..count {
        rows.push(row(alloc, "ex:a", "q", 0)?)?;
    }
    Ok(Inventory::build(alloc, identities, rows))
}

/// Names and bases, how often they stand there, how many equal rows, and the fault if they have one.
const BUILT: [(&[(&str, &str)], usize, usize, Option<InventoryFault>); 9] = [
    (
        &[("ex:a", "ex:b"), ("ex:b", ROOT)],
        1,
        2,
        Some(InventoryFault::UnknownBase(0)),
    ),
    (
        &[(ROOT, ROOT), ("ex:a", ROOT)],
        1,
        2,
        Some(InventoryFault::DuplicateIdentity(0)),
    ),
    (
        &[("ex:a", "ex:b"), ("ex:a", ROOT)],
        1,
        2,
        Some(InventoryFault::DuplicateIdentity(1)),
    ),
    (
        &[("ex:b", ROOT), ("ex:a", "ex:a")],
        1,
        2,
        Some(InventoryFault::UnknownBase(1)),
    ),
    (&[], 0, 1, None),
    (&[], 0, 2, Some(InventoryFault::DuplicateRow(1))),
    (&[], 0, 2001, Some(InventoryFault::TooMany)),
    (
        &[("ex:a", ROOT)],
        2000,
        0,
        Some(InventoryFault::DuplicateIdentity(1)),
    ),
    (&[("ex:a", ROOT)], 2001, 0, Some(InventoryFault::TooMany)),
];

/// The fault of the inventory of these names and bases, so many times, and of so many equal rows, if it has one.
fn fault_of(
    alloc: Global,
    pairs: &[(&str, &str)],
    times: usize,
    count: usize,
) -> Result<Option<InventoryFault>, Fail> {
    Ok(build(alloc, pairs, times, count)?.err())
}

#[test]
fn refuses_what_is_no_inventory(rt: HostRuntime) -> Result<(), Fail> {
    for (pairs, times, count, fault) in &BUILT {
        assert!(rt; fault_of(rt.alloc(), pairs, *times, *count)? == *fault);
    }
    Ok(())
}

/// An inventory that declares c on b, or an empty one.
fn inventory(alloc: Global, declares: bool) -> Result<Inventory, Fail> {
    if declares {
        Ok(build(alloc, &[("ex:b", ROOT), ("ex:c", "ex:b")], 1, 0)??)
    } else {
        Ok(Inventory::empty(alloc))
    }
}

/// Whether the one type derives from the other, in a copy of the inventory that declares c on b or of the empty one.
fn derives(alloc: Global, declares: bool, name: &str, base: &str) -> Result<bool, Fail> {
    let pair = identity(alloc, name, base)?;
    let copy = inventory(alloc, declares)?.copy(alloc)?;
    Ok(copy.derives(&pair.name, &pair.base))
}

/// Two types, and whether the one derives from the other in an inventory that declares c on b; and in an empty one.
const BASES: [(&str, &str, bool, bool); 7] = [
    ("ex:c", "ex:b", true, false),
    ("ex:c", ROOT, true, false),
    ("ex:c", "ex:c", true, true),
    ("ex:b", "ex:c", false, false),
    (ROOT, "ex:b", false, false),
    ("ex:a", ROOT, false, false),
    ("ex:a", "ex:a", true, true),
];

#[test]
fn follows_bases(rt: HostRuntime) -> Result<(), Fail> {
    for (name, base, in_two, in_none) in &BASES {
        assert!(rt; derives(rt.alloc(), true, name, base)? == *in_two);
        assert!(rt; derives(rt.alloc(), false, name, base)? == *in_none);
    }
    Ok(())
}

/// Types, qualifiers, and whether an inventory of one row has a row of them.
const FOUND: [(&str, &str, bool); 3] = [
    ("ex:a", "q", true),
    ("ex:a", "r", false),
    ("ex:b", "q", false),
];

/// Whether the row of this type and qualifier is found, and is like those that are built.
fn finds(alloc: Global, name: &str, qualifier: &str) -> Result<bool, Fail> {
    let inventory = build(alloc, &[], 0, 1)??;
    let wanted = row(alloc, name, qualifier, 0)?;
    Ok(inventory.row(&wanted.type_id, &wanted.qualifier) == Some(&wanted))
}

#[test]
fn finds_rows(rt: HostRuntime) -> Result<(), Fail> {
    for (name, qualifier, found) in &FOUND {
        assert!(rt; finds(rt.alloc(), name, qualifier)? == *found);
    }
    Ok(())
}

/// Sets of severities, a severity, and whether it is allowed: indeterminate and major, then none, then a bit that stands
/// for no severity.
const SETS: [(u8, Severity, bool); 6] = [
    (0b01001, Severity::Indeterminate, true),
    (0b01001, Severity::Warning, false),
    (0b01001, Severity::Major, true),
    (0b01001, Severity::Critical, false),
    (0, Severity::Critical, true),
    (0b100000, Severity::Critical, false),
];

fn allows(alloc: Global, severities: u8, severity: Severity) -> Result<bool, Fail> {
    Ok(row(alloc, "ex:a", "q", severities)?.allows(severity))
}

#[test]
fn allows_severities(rt: HostRuntime) -> Result<(), Fail> {
    for (severities, severity, allowed) in &SETS {
        assert!(rt; allows(rt.alloc(), *severities, *severity)? == *allowed);
    }
    Ok(())
}
