ghost use Rattle.al_http.specs.Responses.{HasText};
ghost use Rattle.al_http.specs.Services.{Adds};
ghost use Rattle.al_model.specs.Limits.{IsRequestWithin};
ghost use Rattle.al_restconf.specs.Changes.{Carries, changed, mark_of};
ghost use Rattle.std.specs.Prelude.{◌≡◌, ◌≤◌, IfOk, Some, length};

use crate::fault::Fault;
use crate::receipt::Receipt;
use al_base::Stamp;
use al_disk::Disk;
use al_http::Response;
use al_model::{Kept, Request};
use al_office::journaled::Office;
use al_uri::Target;
use std::alloc::Global;

/// Has the request decided on and carried out. The memory for its answer is taken first, so that want of memory has changed nothing.
pub fn change<D: Disk>(
    alloc: Global,
    office: &mut Office<D>,
    origin: u16,
    target: &Target,
    asked: Request,
    now: Stamp,
) -> Result<Response, Fault>
    requires { IsRequestWithin asked }
    ensures carried { Carries (mark_of D.faults office.old) (mark_of D.faults office.new) origin
        (changed office.old.entries origin now target.now asked) result }
    ensures place { IfOk result (λ response. response.place ≡ Some (length office.old.entries)) }
    ensures text { IfOk result HasText }
    ensures fixed { office.new.fixed ≡ office.old.fixed }
    ensures later { D.faults office.old.journal.disk ≤ D.faults office.new.journal.disk }
{
    office.keeps_its_history();
    let receipt = Receipt::of(alloc, target, &asked)?;
    let place = office.entries();
    let reply = office.change(origin, asked, now)?;
    Ok(receipt.told(place, target, reply))
}
