ghost use Rattle.al_http.specs.Shown.{message_of};
ghost use Rattle.al_restconf.specs.Faults.{Answers};
ghost use Rattle.al_restconf.specs.Targets.{target_in};
ghost use Rattle.al_uri.specs.Limits.{IsTargetWithin};
ghost use Rattle.std.specs.Prelude.{IfOk};

use crate::fault::Fault;
use al_http::HttpRequest;
use al_uri::Target;
use std::alloc::Global;

/// The resource that the request names.
#[tactic(auto, unfolding(crate::specs::Targets::target_in))]
pub fn read_target(alloc: Global, request: &HttpRequest) -> Result<Target, Fault>
    ensures exact { Answers (target_in (message_of request.now)) result }
    ensures within { IfOk result IsTargetWithin }
{
    Ok(Target::read(alloc, request.path(), request.query())?)
}
