//! Reports whose members are texts, as instrumentation mostly sends them. Their bodies are read without a tree.

ghost use Rattle.al_input.specs.Faults.{Answers};
ghost use Rattle.al_input.specs.Inputs.{body, report};
ghost use Rattle.al_input.specs.Plain.{NamesInput, input_tree, members_at, members_said, tree_of};
ghost use Rattle.al_model.specs.Limits.{IsRequestWithin};
ghost use Rattle.json.specs.Token as token;
ghost use Rattle.serde_json.specs.Data.{Data, no_members, object, put, string};
ghost use Rattle.serde_json.specs.Read.{read};
ghost use Rattle.std.specs.Prelude.{◌≡◌, ◌≤◌, [], ◌∷◌, IfOk, IfSome, IsUtf8, List, Some, codes, length, true, ℕ};

use crate::fault::InputFault;
use crate::report::{Member, Members, report};
use al_model::Request;
use json::{Reader, Scratch, Token};
use std::alloc::Global;
use std::str;

/// What a report says, a text for each member that is there.
#[derive(Clone, Copy, Drop)]
struct Said<'t> {
    text: Option<&'t str>,
    type_id: Option<&'t str>,
    qualifier: Option<&'t str>,
    severity: Option<&'t str>,
    resource: Option<&'t str>,
}

impl<'t> Said<'t> {
    /// With this text in the place of a member, if the name is of one.
    #[tactic(auto, using(crate::proofs::PlainLemmas::put_text, crate::proofs::PlainLemmas::put_type, crate::proofs::PlainLemmas::put_qualifier, crate::proofs::PlainLemmas::put_severity, crate::proofs::PlainLemmas::put_resource))]
    fn with(self, name: &str, text: &'t str) -> Option<Said<'t>>
        ensures { IfSome result (λ said. put name.now (string text.now) (members_said self.entry)
            ≡ members_said said) }
    {
        let name = name.as_bytes();
        let given = Some(text);
        let mut said = self;
        if name == b"alarm-text".as_slice() && said.text.is_none() {
            said.text = given;
            return Some(said);
        }
        if name == b"alarm-type-id".as_slice() && said.type_id.is_none() {
            said.type_id = given;
            return Some(said);
        }
        if name == b"perceived-severity".as_slice() && said.severity.is_none() {
            said.severity = given;
            return Some(said);
        }
        if name == b"resource".as_slice() && said.resource.is_none() {
            said.resource = given;
            return Some(said);
        }
        if name == b"alarm-type-qualifier".as_slice() && said.qualifier.is_none() {
            said.qualifier = given;
            return Some(said);
        }
        None
    }
}

impl<'t> Members for Said<'t> {
    ghost tree = { λ said. object (members_said said) };

    #[tactic(auto, using(crate::proofs::PlainLemmas::names_said))]
    fn check(&self) -> Result<(), InputFault> {
        Ok(())
    }

    #[tactic(auto, using(crate::proofs::PlainLemmas::resource_said, crate::proofs::PlainLemmas::type_said, crate::proofs::PlainLemmas::severity_said, crate::proofs::PlainLemmas::text_said, crate::proofs::PlainLemmas::qualifier_said))]
    fn text(&self, member: Member) -> Result<Option<&[u8]>, InputFault> {
        let text = match member {
            Member::Resource => self.resource,
            Member::TypeId => self.type_id,
            Member::Severity => self.severity,
            Member::AlarmText => self.text,
            Member::Qualifier => self.qualifier,
        };
        match text {
            Some(text) => Ok(Some(text.as_bytes())),
            None => Ok(None),
        }
    }
}

fn nothing_said<'t>() -> Said<'t>
    ensures { members_said result ≡ no_members }
{
    Said {
        text: None,
        type_id: None,
        qualifier: None,
        severity: None,
        resource: None,
    }
}

/// A text, if one is next.
fn next_text<'t>(reader: &mut Reader<'t>) -> Option<&'t str>
    ensures { IfSome result (λ text. reader.old ≡ token.string text.now ∷ reader.new) }
{
    match reader.next() {
        Some(Token::String(text)) => Some(text),
        _ => None,
    }
}

/// The members up to the brace that closes their object, if they are texts of a report, each there once. So it calls itself at most once for each.
fn read_members<'t>(reader: &mut Reader<'t>, said: Said<'t>) -> Option<Said<'t>>
    ensures { IfSome result (λ all. (n : ℕ) → length reader.old ≤ n
        → members_at n (members_said said.entry) reader.old ≡ Some (members_said all, reader.new)) }
{
    match reader.next_key() {
        Ok(Some(name)) => {
            let text = next_text(reader)?;
            let more = said.with(name, text)?;
            read_members(reader, more)
        }
        Ok(None) => Some(said),
        Err(_) => None,
    }
}

/// Takes the brace that opens an object, if it is next.
fn opens(reader: &mut Reader<'_>) -> bool
    ensures { result ≡ true → reader.old ≡ token.begin_object ∷ reader.new }
{
    matches!(reader.next(), Some(Token::BeginObject))
}

/// Takes the name of the body's member, if it is next.
fn names_input(reader: &mut Reader<'_>) -> bool
    ensures { result ≡ true → (name : List ℕ) × NamesInput name
        × (reader.old ≡ token.key name ∷ reader.new) }
{
    match reader.next() {
        Some(Token::Key(name)) => {
            let name = name.as_bytes();
            name == b"alarmd:input".as_slice() || name == b"input".as_slice()
        }
        _ => false,
    }
}

/// Takes the brace that closes the body, if it is next and the last.
fn ends(reader: &mut Reader<'_>) -> bool
    ensures { result ≡ true → reader.old ≡ token.end_object ∷ [] }
{
    matches!(reader.next(), Some(Token::EndObject)) && reader.next().is_none()
}

/// The whole body.
#[tactic(auto, using(crate::proofs::PlainLemmas::body_read))]
fn read_body<'t>(reader: &mut Reader<'t>) -> Option<Said<'t>>
    ensures { IfSome result (λ said. (name : List ℕ) × NamesInput name
        × (tree_of reader.old ≡ Some (input_tree name (members_said said)))) }
{
    if !opens(reader) || !names_input(reader) || !opens(reader) {
        return None;
    }
    let said = read_members(reader, nothing_said())?;
    if !ends(reader) {
        return None;
    }
    Some(said)
}

/// What the body of a report asks, if its members are texts, and no others but a report's plain names. None tells nothing.
pub(crate) fn plain_report(alloc: Global, bytes: &[u8]) -> Option<Result<Request, InputFault>>
    ensures exact { IfSome result (λ answer. (d : Data) × IsUtf8 bytes.now
        × (read bytes.now ≡ Some d)
        × Answers (body (codes "input") (codes "alarmd:input") report d) answer) }
    ensures within { IfSome result (λ answer. IfOk answer IsRequestWithin) }
{
    let Ok(text) = str::from_utf8(bytes) else {
        return None;
    };
    let mut scratch = Scratch::new(alloc);
    let Ok(mut reader) = Reader::new(text, &mut scratch) else {
        return None;
    };
    let said = read_body(&mut reader)?;
    Some(report(alloc, &said))
}
