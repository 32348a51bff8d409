//! The operator on whose behalf a request comes.

ghost use Rattle.al_base.specs.Limits.{IsOperatorName};
ghost use Rattle.al_http.specs.Requests.{values_of};
ghost use Rattle.al_http.specs.Shown.{message_of};
ghost use Rattle.al_restconf.specs.Bodies.{operator_at};
ghost use Rattle.al_restconf.specs.Faults.{Answers};
ghost use Rattle.al_restconf.specs.Fields.{operator_in};
ghost use Rattle.std.specs.Prelude.{[], ◌∷◌, IfOk, IfSome, codes};

use crate::fault::Fault;
use al_base::{FormFault, Text, read_operator_name};
use al_http::HttpRequest;
use al_uri::Target;
use std::alloc::Global;

const FIELD: &[u8] = b"alarm-operator";

/// The name as a text, where it may be an operator's.
#[tactic(auto, using(crate::proofs::Values::operator_holds))]
fn read_name(alloc: Global, name: &[u8]) -> Result<Text, Fault>
    ensures exact { Answers (operator_in (name.now ∷ [])) result }
    ensures within { IfOk result IsOperatorName }
{
    match read_operator_name(alloc, name) {
        Ok(name) => Ok(name),
        Err(FormFault::Form) => Err(Fault::BadOperator),
        Err(FormFault::Memory) => Err(Fault::Memory),
    }
}

/// The operator who acts, who has to be named once.
#[tactic(auto, using(crate::proofs::Values::no_value, crate::proofs::Values::one_value, crate::proofs::Values::two_values))]
fn read_operator(alloc: Global, request: &HttpRequest) -> Result<Text, Fault>
    ensures exact { Answers (operator_in
        (values_of (codes "alarm-operator") (message_of request.now).fields)) result }
    ensures within { IfOk result IsOperatorName }
{
    let Some(name) = request.field(FIELD, 0) else {
        return Err(Fault::MissingOperator);
    };
    match request.field(FIELD, 1) {
        Some(_) => Err(Fault::BadOperator),
        None => read_name(alloc, name),
    }
}

/// The operator who acts, where the resource asks for one.
#[tactic(auto, unfolding(crate::specs::Bodies::operator_at))]
pub fn operator_at(
    alloc: Global,
    target: &Target,
    request: &HttpRequest,
) -> Result<Option<Text>, Fault>
    ensures exact { Answers (operator_at target.now (message_of request.now)) result }
    ensures within { IfOk result (λ operator. IfSome operator IsOperatorName) }
{
    match target {
        Target::SetState { key: _ } => Ok(Some(read_operator(alloc, request)?)),
        _ => Ok(None),
    }
}
