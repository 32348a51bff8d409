//! Shelves (RFC 8632, list `shelf`).

ghost use Rattle.al_input.specs.Faults.{Answers, Gives};
ghost use Rattle.al_input.specs.Inputs.{body, creation_input, criterion, criterion_names, criterion_qualifier, criterion_type, is_wanted, shelf, shelf_body, shelf_description, shelf_input, shelf_name, shelf_names, shelf_resources, shelf_types};
ghost use Rattle.al_input.specs.Readers.{only};
ghost use Rattle.serde_json.specs.View.{view};
ghost use Rattle.std.specs.Option.{option_copied};
ghost use Rattle.std.specs.Prelude.{◌≡◌, None, Some, codes};

use crate::asked::Asked;
use crate::fault::InputFault;
use crate::list::{only, set_or_none};
use crate::member::{check_names, optional, required, value_at};
use crate::reader::Reader;
use crate::text::{MatchText, PatternText, TextOf, TypeName};
use al_base::limits::{
    LONGEST_DESCRIPTION, LONGEST_SHELF_NAME, MOST_SHELF_RESOURCES, MOST_SHELF_TYPES,
};
use al_base::{Copied, List, Text, TypeId};
use al_ids::ResourceMatch;
use al_model::Request;
use al_pattern::Pattern;
use al_shelf::{Shelf, Spot, TypeMatch};
use serde_json::Value;
use std::alloc::Global;

/// A criterion on an alarm's type.
pub struct CriterionFields;

impl Reader for CriterionFields {
    type Output = TypeMatch;

    ghost reads = { criterion };

    #[tactic(auto, using(crate::proofs::Due::fault_first), unfolding(crate::specs::Inputs::criterion, crate::specs::Members::known_only))]
    fn read(alloc: Global, value: &Value) -> Result<TypeMatch, InputFault> {
        criterion_names(value)?;
        let type_id = criterion_type(alloc, value)?;
        let qualifier = criterion_qualifier(alloc, value)?;
        Ok(TypeMatch { type_id, qualifier })
    }
}

#[tactic(auto, unfolding(crate::specs::Inputs::criterion_names))]
fn criterion_names(value: &Value) -> Result<(), InputFault>
    ensures { Answers (criterion_names (view value.now)) result }
{
    check_names(
        value,
        &[
            "alarm-type-id",
            "ietf-alarms:alarm-type-id",
            "alarm-type-qualifier-match",
            "ietf-alarms:alarm-type-qualifier-match",
        ],
    )
}

#[tactic(auto, unfolding(crate::specs::Inputs::criterion_type))]
fn criterion_type(alloc: Global, value: &Value) -> Result<TypeId, InputFault>
    ensures { Answers (criterion_type (view value.now)) result }
{
    required::<TypeName>(alloc, value, "alarm-type-id", "ietf-alarms:alarm-type-id")
}

#[tactic(auto, unfolding(crate::specs::Inputs::criterion_qualifier))]
fn criterion_qualifier(alloc: Global, value: &Value) -> Result<Pattern, InputFault>
    ensures { Answers (criterion_qualifier (view value.now)) result }
{
    required::<PatternText>(
        alloc,
        value,
        "alarm-type-qualifier-match",
        "ietf-alarms:alarm-type-qualifier-match",
    )
}

fn is_wanted(wanted: Option<&Text>, name: &Text) -> bool
    ensures { result ≡ is_wanted (option_copied wanted.entry) name.now }
{
    match wanted {
        Some(wanted) => *name == *wanted,
        None => true,
    }
}

#[tactic(auto, unfolding(crate::specs::Inputs::shelf_names))]
fn shelf_names(value: &Value) -> Result<(), InputFault>
    ensures { Answers (shelf_names (view value.now)) result }
{
    check_names(
        value,
        &[
            "name",
            "ietf-alarms:name",
            "resource",
            "ietf-alarms:resource",
            "alarm-type",
            "ietf-alarms:alarm-type",
            "description",
            "ietf-alarms:description",
        ],
    )
}

#[tactic(auto, unfolding(crate::specs::Inputs::shelf_name))]
fn shelf_name(alloc: Global, value: &Value) -> Result<Text, InputFault>
    ensures { Answers (shelf_name (view value.now)) result }
{
    required::<TextOf<1, LONGEST_SHELF_NAME>>(alloc, value, "name", "ietf-alarms:name")
}

#[tactic(auto, unfolding(crate::specs::Inputs::shelf_resources))]
fn shelf_resources(alloc: Global, value: &Value) -> Result<List<ResourceMatch>, InputFault>
    ensures { Answers (shelf_resources (view value.now)) result }
{
    set_or_none::<MatchText, MOST_SHELF_RESOURCES>(alloc, value, "resource", "ietf-alarms:resource")
}

#[tactic(auto, unfolding(crate::specs::Inputs::shelf_types))]
fn shelf_types(alloc: Global, value: &Value) -> Result<List<TypeMatch>, InputFault>
    ensures { Answers (shelf_types (view value.now)) result }
{
    set_or_none::<CriterionFields, MOST_SHELF_TYPES>(
        alloc,
        value,
        "alarm-type",
        "ietf-alarms:alarm-type",
    )
}

#[tactic(auto, unfolding(crate::specs::Inputs::shelf_description))]
fn shelf_description(alloc: Global, value: &Value) -> Result<Option<Text>, InputFault>
    ensures { Answers (shelf_description (view value.now)) result }
{
    optional::<TextOf<0, LONGEST_DESCRIPTION>>(
        alloc,
        value,
        "description",
        "ietf-alarms:description",
    )
}

/// The shelf of an object; its name is to be this one, where one is wanted.
#[tactic(auto, using(crate::proofs::Due::fault_first), unfolding(crate::specs::Inputs::shelf, crate::specs::Readers::passed))]
fn shelf(alloc: Global, wanted: Option<&Text>, value: &Value) -> Result<Shelf, InputFault>
    ensures { Answers (shelf (option_copied wanted.entry) (view value.now)) result }
{
    shelf_names(value)?;
    let name = shelf_name(alloc, value)?;
    if !is_wanted(wanted, &name) {
        return Err(InputFault::BadValue);
    }
    let resources = shelf_resources(alloc, value)?;
    let types = shelf_types(alloc, value)?;
    let description = shelf_description(alloc, value)?;
    Ok(Shelf {
        name,
        resources,
        types,
        description,
    })
}

/// The one value in the list that the body has for a shelf.
#[tactic(auto, using(crate::proofs::Due::fault_first), unfolding(crate::specs::Members::required, crate::specs::Members::known_only))]
fn shelf_value(value: &Value) -> Result<&Value, InputFault>
    ensures { Gives (λ v. view v.now) result
        (body (codes "shelf") (codes "ietf-alarms:shelf") only (view value.now)) }
{
    check_names(value, &["shelf", "ietf-alarms:shelf"])?;
    match value_at(value, "shelf", "ietf-alarms:shelf")? {
        Some(list) => only(list),
        None => Err(InputFault::Missing),
    }
}

#[tactic(auto, unfolding(crate::specs::Inputs::shelf_body))]
fn shelf_body(alloc: Global, wanted: Option<&Text>, value: &Value) -> Result<Shelf, InputFault>
    ensures { Answers (shelf_body (option_copied wanted.entry) (view value.now)) result }
{
    shelf(alloc, wanted, shelf_value(value)?)
}

#[tactic(auto, unfolding(crate::specs::Inputs::creation_input))]
pub fn creation_input(alloc: Global, spot: &Spot, value: &Value) -> Result<Asked, InputFault>
    ensures { Answers (creation_input spot.now (view value.now)) result }
{
    let shelf = shelf_body(alloc, None, value)?;
    let spot = spot.copy(alloc)?;
    Ok(Asked::Whole(Request::CreateShelf { shelf, spot }))
}

#[tactic(auto, unfolding(crate::specs::Inputs::shelf_input))]
pub fn shelf_input(
    alloc: Global,
    name: &Text,
    spot: &Spot,
    value: &Value,
) -> Result<Asked, InputFault>
    ensures { Answers (shelf_input name.now spot.now (view value.now)) result }
{
    let shelf = shelf_body(alloc, Some(name), value)?;
    let spot = spot.copy(alloc)?;
    Ok(Asked::Whole(Request::PutShelf { shelf, spot }))
}
