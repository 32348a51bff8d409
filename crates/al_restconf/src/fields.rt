//! What the fields of a request's head ask.

ghost use Rattle.al_http.specs.Requests.{names, values_of};
ghost use Rattle.al_http.specs.Shown.{message_of};
ghost use Rattle.al_restconf.specs.Faults.{Answers};
ghost use Rattle.al_restconf.specs.Fields.{accept, accepted, accepts, answered_types, brings_body, is_of_types, is_read, read_types, typed};
ghost use Rattle.std.specs.Option.{option_map_or};
ghost use Rattle.std.specs.Prelude.{◌≡◌, codes, false, slice_get};

use crate::fault::Fault;
use crate::method::Method;
use al_base::cut::cut;
use al_http::{HttpRequest, trimmed};
use al_uri::Target;

/// Whether the name is that of the type, in any ASCII case.
fn is_type(name: &[u8], of: &[u8]) -> bool
    ensures { result ≡ names of.now name.now }
{
    trimmed(name).eq_ignore_ascii_case(of)
}

/// Whether the media type, whose parameters don't count, is one of those that are read.
fn is_read_type(media_type: &[u8]) -> bool
    ensures { result ≡ is_of_types read_types media_type.now }
{
    let (name, _) = cut(media_type, b';');
    is_type(name, b"application/yang-data+json") || is_type(name, b"application/json")
}

/// Whether the media type, whose parameters don't count, is one of those that are answered.
fn is_answered_type(media_type: &[u8]) -> bool
    ensures { result ≡ is_of_types answered_types media_type.now }
{
    let (name, _) = cut(media_type, b';');
    is_type(name, b"application/yang-data+json")
        || is_type(name, b"application/json")
        || is_type(name, b"application/*")
        || is_type(name, b"*/*")
}

/// Whether some member of the field's value is a type that is answered.
#[tactic(auto, using(al_base::proofs::CutLemmas::pieces_cut))]
fn accepts(value: &[u8]) -> bool
    ensures { result ≡ accepts value.now }
{
    let mut rest = Some(value);
    while let Some(members) = rest {
        let (member, more) = cut(members, b',');
        if is_answered_type(member) {
            return true;
        }
        rest = more;
    }
    false
}

/// Whether `Accept` field number `n`, counted from 0, accepts a type that is answered.
fn accepts_at(request: &HttpRequest, n: usize) -> bool
    ensures { result ≡ option_map_or accepts
        (slice_get (values_of (codes "accept") (message_of request.now).fields) n) false }
{
    match request.field(b"accept", n) {
        Some(value) => accepts(value),
        None => false,
    }
}

/// Whether some `Accept` field of the request, or none at all, accepts a type that is answered.
#[tactic(auto, using(crate::proofs::Values::any_from))]
fn has_accepted(request: &HttpRequest) -> bool
    ensures { result ≡ accept (values_of (codes "accept") (message_of request.now).fields) }
{
    let count = request.count(b"accept");
    for n in 0..count {
        if accepts_at(request, n) {
            return true;
        }
    }
    count == 0
}

/// The host's metadata is told to everyone; all other answers have to be accepted.
#[tactic(auto, unfolding(crate::specs::Fields::accepted))]
pub fn check_accept(target: &Target, request: &HttpRequest) -> Result<(), Fault>
    ensures { Answers (accepted target.now (message_of request.now)) result }
{
    match target {
        Target::HostMeta => Ok(()),
        _ if has_accepted(request) => Ok(()),
        _ => Err(Fault::NotAcceptable),
    }
}

/// Whether the first `Content-Type` field of the request, if there is one, names a type that is read.
fn has_read_type(request: &HttpRequest) -> bool
    ensures { result ≡ is_read
        (slice_get (values_of (codes "content-type") (message_of request.now).fields) 0) }
{
    match request.field(b"content-type", 0) {
        Some(value) => is_read_type(value),
        None => true,
    }
}

/// A body that is read has to be of a type that is read.
#[tactic(auto, unfolding(crate::specs::Fields::typed))]
pub fn check_type(method: Method, request: &HttpRequest) -> Result<(), Fault>
    ensures { Answers (typed method (message_of request.now)) result }
{
    if !brings_body(method) || request.body().is_empty() || has_read_type(request) {
        Ok(())
    } else {
        Err(Fault::UnsupportedType)
    }
}

fn brings_body(method: Method) -> bool
    ensures { result ≡ brings_body method }
{
    match method {
        Method::Post | Method::Put => true,
        Method::Delete | Method::Get | Method::Head => false,
    }
}
