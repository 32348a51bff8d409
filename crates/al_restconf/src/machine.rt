ghost use Rattle.al_http.specs.Responses.{HasText};
ghost use Rattle.al_http.specs.Services.{Adds};
ghost use Rattle.al_http.specs.Shown.{message_of};
ghost use Rattle.al_restconf.specs.Changes.{Carries, mark_of};
ghost use Rattle.al_restconf.specs.Faults.{Answers};
ghost use Rattle.al_restconf.specs.Machine.{IsAnswer, admitted, done_by, verdict_of};
ghost use Rattle.al_restconf.specs.Methods.{method_of};
ghost use Rattle.al_uri.specs.Limits.{IsTargetWithin};
ghost use Rattle.std.specs.Prelude.{◌≡◌, ◌≤◌, IfOk, OnErr, Some, length};

use crate::body::request_asks;
use crate::change::change;
use crate::fault::Fault;
use crate::fields::{check_accept, check_type};
use crate::method::{Method, is_bare};
use crate::read::read;
use crate::target::read_target;
use al_base::Stamp;
use al_disk::Disk;
use al_http::{HttpRequest, Response};
use al_model::Kept;
use al_office::journaled::Office;
use al_uri::Target;
use std::alloc::{AllocError, Global};

/// What the request is answered by a method that its resource has.
#[tactic(auto, unfolding(crate::specs::Machine::done_by))]
fn done_by<D: Disk>(
    alloc: Global,
    office: &mut Office<D>,
    origin: u16,
    target: &Target,
    method: Method,
    request: &HttpRequest,
    now: Stamp,
) -> Result<Response, Fault>
    requires { IsTargetWithin target.now }
    ensures carried { Carries (mark_of D.faults office.old) (mark_of D.faults office.new) origin
        (done_by office.old.entries origin now target.now method (message_of request.now)) result }
    ensures place { IfOk result (λ response. response.place ≡ Some (length office.old.entries)) }
    ensures text { IfOk result HasText }
    ensures fixed { office.new.fixed ≡ office.old.fixed }
    ensures later { D.faults office.old.journal.disk ≤ D.faults office.new.journal.disk }
{
    match method {
        Method::Get | Method::Head => read(alloc, office, target),
        Method::Delete | Method::Post | Method::Put => {
            let asked = request_asks(alloc, method, target, request)?;
            change(alloc, office, origin, target, asked, now)
        }
    }
}

/// What the request's head names, its resource and a method that this has; or the first refusal that is due before the body is read.
#[tactic(auto, unfolding(crate::specs::Machine::admitted))]
fn admitted(
    alloc: Global,
    named: Option<Method>,
    request: &HttpRequest,
) -> Result<(Target, Method), Fault>
    requires { named ≡ method_of (message_of request.now).method }
    ensures exact { Answers (admitted (message_of request.now)) result }
    ensures within { IfOk result (λ named. IsTargetWithin named.0) }
{
    let target = read_target(alloc, request)?;
    let method = Method::at(&target, named)?;
    check_accept(&target, request)?;
    check_type(method, request)?;
    Ok((target, method))
}

/// What the request is answered, the first refusal that is due or what it asks for.
#[tactic(auto, unfolding(crate::specs::Machine::verdict_of))]
fn answered<D: Disk>(
    alloc: Global,
    office: &mut Office<D>,
    origin: u16,
    named: Option<Method>,
    request: &HttpRequest,
    now: Stamp,
) -> Result<Response, Fault>
    requires { named ≡ method_of (message_of request.now).method }
    ensures carried { Carries (mark_of D.faults office.old) (mark_of D.faults office.new) origin
        (verdict_of office.old.entries origin now (message_of request.now)) result }
    ensures place { IfOk result (λ response. response.place ≡ Some (length office.old.entries)) }
    ensures text { IfOk result HasText }
    ensures fixed { office.new.fixed ≡ office.old.fixed }
    ensures later { D.faults office.old.journal.disk ≤ D.faults office.new.journal.disk }
{
    let (target, method) = admitted(alloc, named, request)?;
    done_by(alloc, office, origin, &target, method, request, now)
}

/// Answers the request over the office's history, at a reading of the clock.
///
/// A request that is carried out adds one entry of this origin at most. Where there is no memory for an answer, where the journal is full and where
/// the disk fails, the history is as it was.
#[tactic(auto, unfolding(crate::specs::Machine::answer_of))]
pub fn answer<D: Disk>(
    alloc: Global,
    office: &mut Office<D>,
    origin: u16,
    request: &HttpRequest,
    now: Stamp,
) -> Result<Response, AllocError>
    ensures answered { IfOk result (λ response.
        IsAnswer (mark_of D.faults office.old) origin (message_of request.now) now response
        (mark_of D.faults office.new)) }
    ensures adds { Adds origin (mark_of D.faults office.old) (mark_of D.faults office.new) }
    ensures place { IfOk result (λ response. response.place ≡ Some (length office.old.entries)) }
    ensures text { IfOk result HasText }
    ensures unanswered { OnErr result (office.new.entries ≡ office.old.entries) }
{
    let place = office.entries();
    let named = Method::of(request.method());
    let mut response = match answered(alloc, office, origin, named, request, now) {
        Ok(response) => response,
        Err(fault) => fault.told(place)?,
    };
    response.bare = is_bare(named);
    Ok(response)
}
