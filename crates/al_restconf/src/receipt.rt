ghost use Rattle.al_http.specs.Responses.{HasText};
ghost use Rattle.al_model.specs.declared.decision.Reply.{Reply};
ghost use Rattle.al_restconf.specs.Changes.{created, success};
ghost use Rattle.al_restconf.specs.Receipts.{HasRoom, answer_with};
ghost use Rattle.std.specs.Prelude.{◌≡◌, ℕ, IfOk, Some};

use crate::read::shown;
use al_base::{Copied, List, Text};
use al_http::{Content, Response};
use al_json::append_output;
use al_model::{Reply, Request};
use al_uri::Target;
use std::alloc::{AllocError, Global};

/// The most bytes of a count's text.
const MAX_OUTPUT: usize = 64;

/// How a change is to be answered, once its reply is known. It has all the memory that the answer needs.
#[derive(Drop)]
pub enum Receipt {
    Done,
    Made,
    /// Made, and where: the shelf of this name.
    MadeAt(Option<Text>),
    /// Made or replaced, as the reply says.
    Put,
    /// How many alarms were taken, with the room for telling it.
    Counted(Vec<u8>),
}

/// The name of the shelf that the request creates.
fn created(alloc: Global, request: &Request) -> Result<Option<Text>, AllocError>
    ensures { IfOk result (λ name. name ≡ created request.now) }
{
    match request {
        Request::CreateShelf { shelf, spot: _ } => Ok(Some(shelf.name.copy(alloc)?)),
        _ => Ok(None),
    }
}

impl Receipt {
    /// How the request will be answered at the resource where it is carried out.
    pub fn of(alloc: Global, target: &Target, request: &Request) -> Result<Receipt, AllocError>
        ensures answer { IfOk result (λ receipt. (place : ℕ) (reply : Reply)
            → answer_with receipt place target.now reply
            ≡ success place target.now request.now reply) }
        ensures room { IfOk result HasRoom }
    {
        Ok(match target {
            Target::Shelving { spot: _ } => Receipt::MadeAt(created(alloc, request)?),
            Target::OneShelf { name: _, spot: _ } => Receipt::Put,
            Target::PurgeAlarms
            | Target::CompressAlarms
            | Target::PurgeShelved
            | Target::CompressShelved => Receipt::Counted(Vec::with_capacity(alloc, MAX_OUTPUT)?),
            Target::Inventory => Receipt::Made,
            _ => Receipt::Done,
        })
    }

    /// What is answered with this reply.
    pub fn told(self, place: u64, target: &Target, reply: Reply) -> Response
        requires { HasRoom self }
        ensures value { result ≡ answer_with self place target.now reply }
        ensures place { result.place ≡ Some place }
        ensures text { HasText result }
    {
        match (self, reply) {
            (Receipt::Made, _) | (Receipt::Put, Reply::Made) => {
                Response::bodiless(201, Some(place))
            }
            (Receipt::MadeAt(name), _) => made_at(place, name),
            (Receipt::Counted(room), Reply::Count(count)) => counted(room, place, target, count),
            _ => Response::bodiless(204, Some(place)),
        }
    }
}

/// The answer that a shelf was made, and where.
fn made_at(place: u64, name: Option<Text>) -> Response
    ensures value { result ≡ answer_with (Receipt.MadeAt name) place Target.Alarms Reply.Done }
    ensures place { result.place ≡ Some place }
    ensures text { HasText result }
{
    let mut response = Response::bodiless(201, Some(place));
    response.location = name;
    response
}

/// The answer that so many alarms were taken.
fn counted(mut room: Vec<u8>, place: u64, target: &Target, count: u32) -> Response
    requires { HasRoom (Receipt.Counted room) }
    ensures value { result ≡ answer_with (Receipt.Counted room) place target.now
        (Reply.Count count) }
    ensures place { result.place ≡ Some place }
    ensures text { HasText result }
{
    append_output(target, count, &mut room);
    shown(place, Content::Tree(List::of(room)))
}
