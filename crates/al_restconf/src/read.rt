ghost use Rattle.al_http.specs.Responses.{HasText};
ghost use Rattle.al_restconf.specs.Faults.{Answers};
ghost use Rattle.al_restconf.specs.Reads.{absence, read_of, shown};
ghost use Rattle.std.specs.Prelude.{◌≡◌, ℕ, IfOk, Some, length};

use crate::fault::Fault;
use crate::page::{Page, page_texts};
use al_base::List;
use al_disk::Disk;
use al_fields::{Held, put_whole, whole_len};
use al_http::{Content, Response};
use al_json::Showing;
use al_model::{Kept, Refusal};
use al_office::journaled::Office;
use al_uri::Target;
use std::alloc::Global;

/// The name of the journal's page.
const JOURNAL: &str = "alarmd:journal";

/// The most bytes of a response's body.
const MAX_BODY: u64 = 67_108_864;

/// A response with a body.
pub fn shown(place: u64, content: Content) -> Response
    ensures { result ≡ shown place content }
{
    Response {
        status: 200,
        place: Some(place),
        allow: 0,
        location: None,
        content,
        bare: false,
    }
}

/// Why the resource isn't there.
fn absence(target: &Target) -> Fault
    ensures { result ≡ absence target.now }
{
    match target {
        Target::OneShelf { name: _, spot: _ } => Fault::Refused(Refusal::NoShelf),
        Target::OneAlarm { key: _ } | Target::OneShelved { key: _ } => {
            Fault::Refused(Refusal::NoAlarm)
        }
        _ => Fault::NotSet,
    }
}

/// What a read of the resource is answered.
#[tactic(auto, unfolding(crate::specs::Reads::read_of))]
pub fn read<D: Disk>(alloc: Global, office: &Office<D>, target: &Target) -> Result<Response, Fault>
    ensures exact { Answers (read_of office.now.entries target.now) result }
    ensures place { IfOk result (λ response. response.place ≡ Some (length office.now.entries)) }
    ensures text { IfOk result HasText }
{
    match target {
        Target::HostMeta => Ok(shown(office.entries(), Content::HostMeta)),
        Target::JournalPage { start } => read_page(alloc, office, *start),
        _ => read_state(alloc, office, target),
    }
}

/// What a read of a page of the journal is answered.
#[tactic(auto, unfolding(crate::specs::Reads::read_of))]
fn read_page<D: Disk>(alloc: Global, office: &Office<D>, start: u32) -> Result<Response, Fault>
    ensures exact { Answers (read_of office.now.entries (Target.JournalPage start)) result }
    ensures place { IfOk result (λ response. response.place ≡ Some (length office.now.entries)) }
    ensures text { IfOk result HasText }
{
    let place = office.entries();
    let texts = page_texts(alloc, office, start)?;
    let content = Held(Page {
        texts: texts.as_slice(),
        len: place,
    });
    let Some(len) = whole_len(JOURNAL, &content) else {
        return Err(Fault::NotSet);
    };
    if len > MAX_BODY {
        return Err(Fault::TooBig);
    }
    let mut text = Vec::with_capacity(alloc, len as usize)?;
    put_whole(&mut text, JOURNAL, &content);
    Ok(shown(place, Content::Tree(List::of(text))))
}

/// What a read of all else is answered. Its text is measured before any memory is taken for it.
#[tactic(auto, unfolding(crate::specs::Reads::read_of))]
fn read_state<D: Disk>(
    alloc: Global,
    office: &Office<D>,
    target: &Target,
) -> Result<Response, Fault>
    requires host { ¬ (target.now ≡ Target.HostMeta) }
    requires page { (start : ℕ) → ¬ (target.now ≡ Target.JournalPage start) }
    ensures exact { Answers (read_of office.now.entries target.now) result }
    ensures place { IfOk result (λ response. response.place ≡ Some (length office.now.entries)) }
    ensures text { IfOk result HasText }
{
    let place = office.entries();
    let showing = Showing::of(target, office.look());
    let Some(len) = showing.text_len() else {
        return Err(absence(target));
    };
    if len > MAX_BODY {
        return Err(Fault::TooBig);
    }
    let mut text = Vec::with_capacity(alloc, len as usize)?;
    showing.append_text(&mut text);
    Ok(shown(place, Content::Tree(List::of(text))))
}
