//! What a body asks of a resource.

ghost use Rattle.al_input.specs.Bodies.{AnswersBody, IsBodyFault, data_of, json_of, may_be_empty};
ghost use Rattle.al_input.specs.Faults.{Answers};
ghost use Rattle.al_input.specs.Inputs.{input_of};
ghost use Rattle.al_input.specs.Limits.{IsAskedWithin};
ghost use Rattle.al_uri.specs.Limits.{IsTargetWithin};
ghost use Rattle.serde_json.specs.View.{view};
ghost use Rattle.std.specs.Prelude.{◌≡◌, IfOk, IfSome, MatchResult, Ok, Some};

use crate::action::action_input;
use crate::asked::Asked;
use crate::compress::compress_input;
use crate::fault::{BodyFault, InputFault};
use crate::inventory::inventory_input;
use crate::plain::plain_report;
use crate::purge::purge_input;
use crate::report::report_input;
use crate::rules::{level_input, max_input, mode_input};
use crate::shelf::{creation_input, shelf_input};
use al_model::Side;
use al_uri::Target;
use serde_json::error::Category;
use serde_json::{Map, Value};
use std::alloc::Global;

/// What a body asks of a resource. A resource that takes no body is asked for nothing by any: BadValue.
///
/// The outer fault says that the body has no tree; so a caller can judge what is due between the
/// tree and its members.
pub fn ask(
    alloc: Global,
    target: &Target,
    body: &[u8],
) -> Result<Result<Asked, InputFault>, BodyFault>
    ensures exact { AnswersBody (data_of target.now body.now) (input_of target.now) result }
    ensures within { IsTargetWithin target.now
        → IfOk result (λ answer. IfOk answer IsAskedWithin) }
{
    if let Target::Report = target {
        if let Some(answer) = plain_asks(alloc, body) {
            return Ok(answer);
        }
    }
    let value = read_data(alloc, target, body)?;
    Ok(input(alloc, target, &value))
}

/// What a report asks, where its members are texts, as those of instrumentation mostly are. It is
/// read without a tree. None tells nothing.
fn plain_asks(alloc: Global, body: &[u8]) -> Option<Result<Asked, InputFault>>
    ensures exact { IfSome result (λ answer.
        AnswersBody (data_of Target.Report body.now) (input_of Target.Report) (Ok answer)) }
    ensures within { IfSome result (λ answer. IfOk answer IsAskedWithin) }
{
    match plain_report(alloc, body)? {
        Ok(request) => Some(Ok(Asked::Whole(request))),
        Err(fault) => Some(Err(fault)),
    }
}

/// The body as JSON.
fn read_json(alloc: Global, body: &[u8]) -> Result<Value, BodyFault>
    ensures { MatchResult result (λ value. json_of body.now ≡ Some (view value))
        (λ fault. IsBodyFault (json_of body.now) fault) }
{
    match Value::from_slice(alloc, body) {
        Ok(value) => Ok(value),
        Err(error) => match error.classify() {
            Category::Memory => Err(BodyFault::Memory),
            _ => Err(BodyFault::NotJson),
        },
    }
}

/// Whether something is asked of the resource without a body.
fn may_be_empty(target: &Target) -> bool
    ensures { result ≡ may_be_empty target.now }
{
    matches!(
        target,
        Target::PurgeAlarms
            | Target::CompressAlarms
            | Target::PurgeShelved
            | Target::CompressShelved
    )
}

/// The body as JSON. An empty one may stand for an empty object.
#[tactic(auto, unfolding(crate::specs::Bodies::data_of))]
fn read_data(alloc: Global, target: &Target, body: &[u8]) -> Result<Value, BodyFault>
    ensures { MatchResult result (λ value. data_of target.now body.now ≡ Some (view value))
        (λ fault. IsBodyFault (data_of target.now body.now) fault) }
{
    if may_be_empty(target) && body.is_empty() {
        return Ok(Value::Object(Map::new(alloc)));
    }
    read_json(alloc, body)
}

/// What the tree of a body asks.
fn input(alloc: Global, target: &Target, value: &Value) -> Result<Asked, InputFault>
    ensures exact { Answers (input_of target.now (view value.now)) result }
    ensures within { IsTargetWithin target.now → IfOk result IsAskedWithin }
{
    read(alloc, target, value)
}

#[tactic(auto, unfolding(crate::specs::Inputs::input_of))]
fn read(alloc: Global, target: &Target, value: &Value) -> Result<Asked, InputFault>
    ensures { Answers (input_of target.now (view value.now)) result }
{
    match target {
        Target::MaxChanges => max_input(alloc, value),
        Target::NotifyMode => mode_input(alloc, value),
        Target::NotifyLevel => level_input(alloc, value),
        Target::Shelving { spot } => creation_input(alloc, spot, value),
        Target::OneShelf { name, spot } => shelf_input(alloc, name, spot, value),
        Target::SetState { key } => action_input(alloc, key, value),
        Target::PurgeAlarms => purge_input(alloc, Side::List, value),
        Target::CompressAlarms => compress_input(alloc, Side::List, value),
        Target::PurgeShelved => purge_input(alloc, Side::Shelf, value),
        Target::CompressShelved => compress_input(alloc, Side::Shelf, value),
        Target::Report => report_input(alloc, value),
        Target::Inventory => inventory_input(alloc, value),
        _ => Err(InputFault::BadValue),
    }
}
