//! Resource matches.

ghost use Rattle.al_base.specs.Limits.{longest_resource};
ghost use Rattle.al_ids.specs.MatchForms.{IsFormFault, IsOfForm, text_of};
ghost use Rattle.al_ids.specs.Matches.{IsMatch, IsOther, IsSized, IsXPathStop, Matches, is_rooted as is_rooted_of};
ghost use Rattle.al_ids.specs.Matching.{matches};
ghost use Rattle.al_ids.specs.Oids.{IsOid};
ghost use Rattle.al_ids.specs.Resources.{IsOfKind};
ghost use Rattle.al_pattern.specs.Reading.{first_fault};
ghost use Rattle.std.proofs.Common.{rules};
ghost use Rattle.std.specs.Bool.{◌==◌};
ghost use Rattle.std.specs.Cmp.Rules.{comparing};
ghost use Rattle.std.specs.Prelude.{◌≡◌, ◌⊎◌, ◌↔◌, ◌<◌, ℕ, Some, [], IfOk, IsOkUnless, IsTrue, MatchResult, length};
ghost use lib.Pointwise.{pointwise};

use crate::resource::{Kind, Resource};
use crate::xpath::xpath_stop;
use crate::{oid, steps};
use al_base::limits::LONGEST_RESOURCE;
use al_base::{Copied, Text, TextFault};
use al_pattern::{Pattern, PatternFault};
use std::alloc::{AllocError, Global};
use std::error::Error;
use std::fmt;
use std::marker::Model;

/// Why bytes are no resource match.
#[derive(Clone, Copy, Debug, PartialEq, Eq)]
pub enum MatchFault {
    /// There are no bytes.
    Empty,
    /// There are more than 512 bytes.
    TooLong,
    /// The text begins with a slash, and at this byte, counted from 0, it stops being an XPath that is supported; the length
    /// where it ends too soon.
    XPathUnsupported(usize),
    /// The text is neither a path nor an object identifier, and no pattern for this reason.
    Pattern(PatternFault),
    /// There was no memory for the match.
    Memory,
}

impl fmt::Display for MatchFault {
    fn fmt<W: fmt::Write>(&self, f: &mut fmt::Formatter<W>) -> fmt::Result {
        match self {
            MatchFault::Empty => f.write_str("the resource match is empty"),
            MatchFault::TooLong => f.write_str("the resource match is longer than 512 bytes"),
            MatchFault::XPathUnsupported(place) => write!(
                f,
                "the path isn't supported at byte {place}"
            ),
            MatchFault::Pattern(fault) => write!(f, "the resource match is no pattern: {fault:?}"),
            MatchFault::Memory => f.write_str("out of memory"),
        }
    }
}

impl Error for MatchFault {}

/// The three forms of a match.
#[derive(Debug, Drop)]
enum Form {
    Path(Text),
    Oid(Text),
    Pattern(Pattern),
}

/// What names resources (RFC 8632, type `resource-match`): a path, an object identifier or a pattern of 1 to 512 bytes.
///
/// A contract sees its text.
#[derive(Debug, Drop)]
pub struct ResourceMatch {
    form: Form,
}

impl Model for ResourceMatch {
    ghost use Rattle.std.specs.Prelude.{List, ℕ};

    ghost Value = { List ℕ };

    ghost use Rattle.al_base.specs.Limits.{longest_resource};
    ghost use Rattle.al_ids.specs.MatchForms.{text_of, IsKept};

    ghost view = { λ kept. text_of kept.form };

    ghost invariant = { λ kept. IsKept kept.form };
}

impl ResourceMatch {
    /// The resource match of this text.
    ///
    /// A text that begins with a slash has to be an XPath of steps and predicates, as `/link[from='a']`. Another text in the
    /// form of an object identifier is one. Every other text is a pattern.
    pub fn read(alloc: Global, text: &[u8]) -> Result<ResourceMatch, MatchFault>
        // What is read is a match.
        ensures ok { IfOk result (λ read. (read ≡ text.now) × IsMatch text.now) }
        // What is a match is read, unless memory runs out.
        ensures only { IsMatch text.now → IsOkUnless result MatchFault.Memory }
        ensures empty { (result ≡ Err MatchFault.Empty) ↔ (text.now ≡ []) }
        ensures too_long { (result ≡ Err MatchFault.TooLong)
            ↔ (longest_resource < length text.now) }
        ensures xpath { (place : ℕ) → (result ≡ Err (MatchFault.XPathUnsupported place))
            ↔ (IsSized text.now × IsTrue (is_rooted_of text.now) × IsXPathStop text.now place) }
        // The fault of a pattern is its first, and where there is one, it is the answer unless memory runs out.
        ensures pattern { (fault : PatternFault) → result ≡ Err (MatchFault.Pattern fault)
            → IsSized text.now × IsOther text.now × (first_fault text.now ≡ Some fault) }
        ensures no_pattern { (fault : PatternFault) → IsSized text.now → IsOther text.now
            → first_fault text.now ≡ Some fault
            → (result ≡ Err (MatchFault.Pattern fault)) ⊎ (result ≡ Err MatchFault.Memory) }
    {
        if text.is_empty() {
            return Err(MatchFault::Empty);
        }
        if text.len() > LONGEST_RESOURCE {
            return Err(MatchFault::TooLong);
        }
        match form_of(alloc, text) {
            Ok(form) => Ok(ResourceMatch { form }),
            Err(fault) => Err(fault),
        }
    }

    /// Whether the match takes the resource. No memory is taken.
    pub fn matches(&self, resource: &Resource) -> bool
        ensures relation { IsTrue result ↔ Matches self.now resource.now }
        ensures value { result ≡ matches self.now resource.now }
    {
        self.form.takes(resource)
    }

    /// The text that was read.
    pub fn source(&self) -> &[u8]
        ensures text { result.now ≡ self.now }
        ensures is_match { IsMatch result.now }
    {
        match &self.form {
            Form::Path(text) => text.bytes(),
            Form::Oid(text) => text.bytes(),
            Form::Pattern(pattern) => pattern.source(),
        }
    }
}

impl Form {
    /// Whether a match of this form takes the resource.
    fn takes(&self, resource: &Resource) -> bool
        requires { IsOfForm self.now }
        ensures { IsTrue result ↔ Matches (text_of self.now) resource.now }
    {
        let text = resource.text().bytes();
        match self {
            Form::Path(path) => {
                is_of(resource, Kind::Path) && steps::takes_path(path.bytes(), text)
            }
            Form::Oid(front) => { is_of(resource, Kind::Oid) && oid::is_front(front.bytes(), text) }
            Form::Pattern(pattern) => is_of(resource, Kind::Plain) && pattern.matches(text),
        }
    }
}

// Matches are compared by their texts.

impl PartialEq for ResourceMatch {
    ghost eq = { pointwise ◌==◌ };

    ghost laws = { Prim.search (comparing, rules) };

    fn eq(&self, other: &ResourceMatch) -> bool
        ensures value { result ≡ pointwise ◌==◌ self.now other.now }
        ensures exact { IsTrue result ↔ (self.now ≡ other.now) }
    {
        self.source() == other.source()
    }
}

impl Eq for ResourceMatch {
    ghost laws = { Prim.search (comparing, rules) };
}

impl Copied for ResourceMatch {
    fn copy(&self, alloc: Global) -> Result<ResourceMatch, AllocError> {
        let form = match &self.form {
            Form::Path(text) => Form::Path(text.copy(alloc)?),
            Form::Oid(text) => Form::Oid(text.copy(alloc)?),
            Form::Pattern(pattern) => Form::Pattern(pattern.copy(alloc)?),
        };
        Ok(ResourceMatch { form })
    }
}

fn is_of(resource: &Resource, kind: Kind) -> bool
    ensures { IsTrue result ↔ IsOfKind kind resource.now }
{
    resource.kind() == kind
}

/// The form of a text of 1 to 512 bytes.
fn form_of(alloc: Global, text: &[u8]) -> Result<Form, MatchFault>
    ensures { MatchResult result (λ form. (text_of form ≡ text.now)
        × IsOfForm form) (IsFormFault text.now) }
{
    if is_rooted(text) {
        path_form(alloc, text)
    } else if oid::is_oid(text) {
        oid_form(alloc, text)
    } else {
        pattern_form(alloc, text)
    }
}

/// Whether the text begins with a slash.
fn is_rooted(text: &[u8]) -> bool
    ensures { result ≡ is_rooted_of text.now }
{
    matches!(text.first(), Some(b'/'))
}

fn path_form(alloc: Global, text: &[u8]) -> Result<Form, MatchFault>
    requires { IsTrue (is_rooted_of text.now) }
    ensures { MatchResult result (λ form. (text_of form ≡ text.now)
        × IsOfForm form) (IsFormFault text.now) }
{
    match xpath_stop(text) {
        Some(place) => Err(MatchFault::XPathUnsupported(place)),
        None => match Text::read(alloc, text) {
            Ok(text) => Ok(Form::Path(text)),
            Err(TextFault::Memory) => Err(MatchFault::Memory),
            Err(TextFault::NotUtf8) => unreachable!(),
        },
    }
}

fn oid_form(alloc: Global, text: &[u8]) -> Result<Form, MatchFault>
    requires { IsOid text.now }
    ensures { MatchResult result (λ form. (text_of form ≡ text.now)
        × IsOfForm form) (IsFormFault text.now) }
{
    match Text::read(alloc, text) {
        Ok(text) => Ok(Form::Oid(text)),
        Err(TextFault::Memory) => Err(MatchFault::Memory),
        Err(TextFault::NotUtf8) => unreachable!(),
    }
}

fn pattern_form(alloc: Global, text: &[u8]) -> Result<Form, MatchFault>
    requires { IsOther text.now }
    ensures { MatchResult result (λ form. (text_of form ≡ text.now)
        × IsOfForm form) (IsFormFault text.now) }
{
    match Pattern::read(alloc, text) {
        Ok(pattern) => Ok(Form::Pattern(pattern)),
        Err(PatternFault::Memory) => Err(MatchFault::Memory),
        Err(fault) => Err(MatchFault::Pattern(fault)),
    }
}
