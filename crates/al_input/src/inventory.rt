//! Inventories, a resource of the server's own (RFC 8632, section 4.2 and container `alarm-inventory`).

ghost use Rattle.al_base.specs.Names.{rank_of};
ghost use Rattle.al_input.specs.Faults.{Answers};
ghost use Rattle.al_input.specs.Inputs.{bit_of, built, identity, inventory, inventory_input, row, row_clears, row_description, row_event_type, row_names, row_qualifier, row_resources, row_severities, row_type, set_of, severity_set};
ghost use Rattle.serde_json.specs.View.{view};
ghost use Rattle.std.specs.Prelude.{◌≡◌, ◌==◌, ◌≤◌, IfOk, count_by};

use crate::asked::Asked;
use crate::body::body;
use crate::fault::InputFault;
use crate::list::{ListOf, list_or_none};
use crate::member::{check_names, or_default, required};
use crate::number::Flag;
use crate::reader::Reader;
use crate::text::{TextOf, TypeName, text_or_empty};
use crate::word::WordOf;
use al_base::limits::{
    LONGEST_DESCRIPTION, LONGEST_RESOURCE, MOST_IDENTITIES, MOST_ROW_RESOURCES, MOST_ROWS,
};
use al_base::{EventType, List, Severity, Text, TypeId};
use al_model::Request;
use al_types::{Identity, Inventory, InventoryFault, Row};
use serde_json::Value;
use std::alloc::Global;

/// A declared alarm type.
pub struct IdentityFields;

impl Reader for IdentityFields {
    type Output = Identity;

    ghost reads = { identity };

    #[tactic(auto, using(crate::proofs::Due::fault_first), unfolding(crate::specs::Inputs::identity, crate::specs::Members::known_only))]
    fn read(alloc: Global, value: &Value) -> Result<Identity, InputFault> {
        check_names(value, &["name", "alarmd:name", "base", "alarmd:base"])?;
        let name = required::<TypeName>(alloc, value, "name", "alarmd:name")?;
        let base = required::<TypeName>(alloc, value, "base", "alarmd:base")?;
        Ok(Identity { name, base })
    }
}

/// The severities of a list without repeats, in a byte whose bit n is that of the n-th.
pub struct SeveritySet;

impl Reader for SeveritySet {
    type Output = u8;

    ghost reads = { severity_set };

    #[tactic(auto, unfolding(crate::specs::Inputs::severity_set))]
    fn read(alloc: Global, value: &Value) -> Result<u8, InputFault> {
        let levels = ListOf::<WordOf<Severity>, 5>::read(alloc, value)?;
        set_of(levels.as_slice())
    }
}

#[tactic(auto, unfolding(crate::specs::Inputs::set_of))]
fn set_of(levels: &[Severity]) -> Result<u8, InputFault>
    ensures { Answers (set_of levels.now) result }
{
    let indeterminate = bit_of(1, Severity::Indeterminate, levels)?;
    let warning = bit_of(2, Severity::Warning, levels)?;
    let minor = bit_of(4, Severity::Minor, levels)?;
    let major = bit_of(8, Severity::Major, levels)?;
    let critical = bit_of(16, Severity::Critical, levels)?;
    Ok(indeterminate + warning + minor + major + critical)
}

/// The bit, where the severity stands in the list, else 0. BadValue where it stands there twice.
#[tactic(auto, unfolding(crate::specs::Inputs::bit_of))]
fn bit_of(bit: u8, severity: Severity, levels: &[Severity]) -> Result<u8, InputFault>
    ensures answer { Answers (bit_of bit severity levels.now) result }
    ensures small { IfOk result (λ set. set ≤ bit) }
{
    match times(severity, levels) {
        0 => Ok(0),
        1 => Ok(bit),
        _ => Err(InputFault::BadValue),
    }
}

/// How often the severity stands in the list.
fn times(severity: Severity, levels: &[Severity]) -> usize
    ensures { result ≡ count_by (λ level. rank_of level == rank_of severity) levels.now }
{
    let rank = severity.rank();
    levels.iter().filter(|level| level.rank() == rank).count()
}

#[tactic(auto, unfolding(crate::specs::Inputs::row_names))]
fn row_names(value: &Value) -> Result<(), InputFault>
    ensures { Answers (row_names (view value.now)) result }
{
    check_names(
        value,
        &[
            "alarm-type-id",
            "alarmd:alarm-type-id",
            "will-clear",
            "alarmd:will-clear",
            "description",
            "alarmd:description",
            "alarm-type-qualifier",
            "alarmd:alarm-type-qualifier",
            "resource",
            "alarmd:resource",
            "severity-level",
            "alarmd:severity-level",
            "event-type",
            "ietf-alarms-x733:event-type",
        ],
    )
}

#[tactic(auto, unfolding(crate::specs::Inputs::row_type))]
fn row_type(alloc: Global, value: &Value) -> Result<TypeId, InputFault>
    ensures { Answers (row_type (view value.now)) result }
{
    required::<TypeName>(alloc, value, "alarm-type-id", "alarmd:alarm-type-id")
}

#[tactic(auto, unfolding(crate::specs::Inputs::row_clears))]
fn row_clears(alloc: Global, value: &Value) -> Result<bool, InputFault>
    ensures { Answers (row_clears (view value.now)) result }
{
    required::<Flag>(alloc, value, "will-clear", "alarmd:will-clear")
}

#[tactic(auto, unfolding(crate::specs::Inputs::row_description))]
fn row_description(alloc: Global, value: &Value) -> Result<Text, InputFault>
    ensures { Answers (row_description (view value.now)) result }
{
    required::<TextOf<0, LONGEST_DESCRIPTION>>(alloc, value, "description", "alarmd:description")
}

#[tactic(auto, unfolding(crate::specs::Inputs::row_qualifier))]
fn row_qualifier(alloc: Global, value: &Value) -> Result<Text, InputFault>
    ensures { Answers (row_qualifier (view value.now)) result }
{
    text_or_empty(
        alloc,
        value,
        "alarm-type-qualifier",
        "alarmd:alarm-type-qualifier",
    )
}

#[tactic(auto, unfolding(crate::specs::Inputs::row_resources))]
fn row_resources(alloc: Global, value: &Value) -> Result<List<Text>, InputFault>
    ensures { Answers (row_resources (view value.now)) result }
{
    list_or_none::<TextOf<1, LONGEST_RESOURCE>, MOST_ROW_RESOURCES>(
        alloc,
        value,
        "resource",
        "alarmd:resource",
    )
}

#[tactic(auto, unfolding(crate::specs::Inputs::row_severities))]
fn row_severities(alloc: Global, value: &Value) -> Result<u8, InputFault>
    ensures { Answers (row_severities (view value.now)) result }
{
    or_default::<SeveritySet>(alloc, value, "severity-level", "alarmd:severity-level", 0)
}

#[tactic(auto, unfolding(crate::specs::Inputs::row_event_type))]
fn row_event_type(alloc: Global, value: &Value) -> Result<EventType, InputFault>
    ensures { Answers (row_event_type (view value.now)) result }
{
    or_default::<WordOf<EventType>>(
        alloc,
        value,
        "event-type",
        "ietf-alarms-x733:event-type",
        EventType::Other,
    )
}

/// What alarms of a type and qualifier may be.
pub struct RowFields;

impl Reader for RowFields {
    type Output = Row;

    ghost reads = { row };

    #[tactic(auto, using(crate::proofs::Due::fault_first), unfolding(crate::specs::Inputs::row, crate::specs::Members::known_only))]
    fn read(alloc: Global, value: &Value) -> Result<Row, InputFault> {
        row_names(value)?;
        let type_id = row_type(alloc, value)?;
        let will_clear = row_clears(alloc, value)?;
        let description = row_description(alloc, value)?;
        let qualifier = row_qualifier(alloc, value)?;
        let resources = row_resources(alloc, value)?;
        let severities = row_severities(alloc, value)?;
        let event_type = row_event_type(alloc, value)?;
        Ok(Row {
            type_id,
            qualifier,
            resources,
            will_clear,
            severities,
            description,
            event_type,
        })
    }
}

/// Lists that make an inventory.
pub struct InventoryFields;

impl Reader for InventoryFields {
    type Output = Inventory;

    ghost reads = { inventory };

    #[tactic(auto, using(crate::proofs::Due::fault_first), unfolding(crate::specs::Inputs::inventory, crate::specs::Members::known_only))]
    fn read(alloc: Global, value: &Value) -> Result<Inventory, InputFault> {
        check_names(
            value,
            &[
                "identity",
                "alarmd:identity",
                "alarm-type",
                "alarmd:alarm-type",
            ],
        )?;
        let identities = list_or_none::<IdentityFields, MOST_IDENTITIES>(
            alloc,
            value,
            "identity",
            "alarmd:identity",
        )?;
        let rows = list_or_none::<RowFields, MOST_ROWS>(
            alloc,
            value,
            "alarm-type",
            "alarmd:alarm-type",
        )?;
        built(alloc, identities, rows)
    }
}

/// The inventory of these lists, where they make one.
#[tactic(auto, using(al_types::proofs::InventoryTests::sound_holds, al_types::proofs::InventoryTests::unsound_fails), unfolding(crate::specs::Inputs::built))]
fn built(
    alloc: Global,
    identities: List<Identity>,
    rows: List<Row>,
) -> Result<Inventory, InputFault>
    ensures { Answers (built identities rows) result }
{
    match Inventory::build(alloc, identities.into_vec(), rows.into_vec()) {
        Ok(inventory) => Ok(inventory),
        Err(InventoryFault::Memory) => Err(InputFault::Memory),
        Err(_) => Err(InputFault::BadValue),
    }
}

#[tactic(auto, using(crate::proofs::Due::fault_first), unfolding(crate::specs::Inputs::inventory_input, crate::specs::Members::known_only))]
pub fn inventory_input(alloc: Global, value: &Value) -> Result<Asked, InputFault>
    ensures { Answers (inventory_input (view value.now)) result }
{
    let inventory = body::<InventoryFields>(alloc, value, "inventory", "alarmd:inventory")?;
    Ok(Asked::Whole(Request::Install(inventory)))
}
