//! What a request asks of the alarm list.

ghost use Rattle.al_base.specs.Limits.{IsOperatorName};
ghost use Rattle.al_http.specs.Shown.{message_of};
ghost use Rattle.al_input.specs.Limits.{IsAskedWithin};
ghost use Rattle.al_model.specs.Limits.{IsRequestWithin};
ghost use Rattle.al_restconf.specs.Bodies.{asked_by, body_asks, request_asks};
ghost use Rattle.al_restconf.specs.Faults.{Answers};
ghost use Rattle.al_uri.specs.Limits.{IsTargetWithin};
ghost use Rattle.std.specs.Prelude.{IfOk, IfSome};

use crate::fault::Fault;
use crate::method::Method;
use crate::operator::operator_at;
use al_base::{Copied, Text};
use al_http::HttpRequest;
use al_input::{Asked, ask};
use al_model::Request;
use al_uri::Target;
use std::alloc::Global;

/// What is asked, by the operator who acts.
#[tactic(auto, unfolding(al_model::specs::Limits::IsRequestWithin))]
fn asked_by(operator: Option<Text>, asked: Asked) -> Result<Request, Fault>
    ensures exact { Answers (asked_by operator asked) result }
    ensures within { IfSome operator IsOperatorName → IsAskedWithin asked
        → IfOk result IsRequestWithin }
{
    match (operator, asked) {
        (_, Asked::Whole(request)) => Ok(request),
        (Some(operator), Asked::Operate { key, state, text }) => Ok(Request::Operate {
            key,
            state,
            operator,
            text,
        }),
        (None, Asked::Operate { .. }) => Err(Fault::MissingOperator),
    }
}

/// What the body asks, which is judged as JSON, then for its operator, then for its members.
#[tactic(auto, unfolding(crate::specs::Bodies::body_asks))]
fn body_asks(alloc: Global, target: &Target, request: &HttpRequest) -> Result<Request, Fault>
    ensures exact { Answers (body_asks target.now (message_of request.now)) result }
    ensures within { IsTargetWithin target.now → IfOk result IsRequestWithin }
{
    let answer = ask(alloc, target, request.body())?;
    let operator = operator_at(alloc, target, request)?;
    asked_by(operator, answer?)
}

/// What the request asks of the alarm list, by a method that isn't a read.
#[tactic(auto, unfolding(crate::specs::Bodies::request_asks, al_model::specs::Limits::IsRequestWithin))]
pub fn request_asks(
    alloc: Global,
    method: Method,
    target: &Target,
    request: &HttpRequest,
) -> Result<Request, Fault>
    ensures exact { Answers (request_asks method target.now (message_of request.now)) result }
    ensures within { IsTargetWithin target.now → IfOk result IsRequestWithin }
{
    match (method, target) {
        (Method::Delete, Target::OneShelf { name, spot: _ }) => Ok(Request::DropShelf {
            name: name.copy(alloc)?,
        }),
        _ => body_asks(alloc, target, request),
    }
}
