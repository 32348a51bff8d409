//! Texts, each in its form and within its limits.

ghost use Rattle.al_base.specs.Answers.{or_fault};
ghost use Rattle.al_base.specs.Limits.{longest_qualifier, longest_resource};
ghost use Rattle.al_input.specs.Faults.{Answers};
ghost use Rattle.al_input.specs.Members.{with_default};
ghost use Rattle.al_input.specs.Readers.{pattern, resource_match, text, type_name};
ghost use Rattle.serde_json.specs.Find.{as_str};
ghost use Rattle.serde_json.specs.View.{view};
ghost use Rattle.std.specs.Prelude.{◌≡◌, [], MatchResult, Ok, Err};

use crate::fault::InputFault;
use crate::member::optional;
use crate::reader::Reader;
use al_base::limits::LONGEST_QUALIFIER;
use al_base::{Text, TypeId, read_text};
use al_ids::{Resource, ResourceMatch, read_match, read_pattern, read_resource};
use al_pattern::Pattern;
use al_uri::read_type;
use serde_json::Value;
use std::alloc::Global;

/// The bytes of a string.
pub(crate) fn string_of(value: &Value) -> Result<&[u8], InputFault>
    ensures string { MatchResult result (λ bytes.
        or_fault InputFault.BadValue (as_str (view value.now)) ≡ Ok bytes.now)
        (λ fault. or_fault InputFault.BadValue (as_str (view value.now)) ≡ Err fault) }
{
    match value.as_str() {
        Some(text) => Ok(text.as_bytes()),
        None => Err(InputFault::BadValue),
    }
}

/// Any text of so many bytes.
pub struct TextOf<const LEAST: usize, const MOST: usize>;

impl<const LEAST: usize, const MOST: usize> Reader for TextOf<LEAST, MOST> {
    type Output = Text;

    ghost reads = { text LEAST MOST };

    #[tactic(auto, unfolding(crate::specs::Readers::text, crate::specs::Readers::passed))]
    fn read(alloc: Global, value: &Value) -> Result<Text, InputFault> {
        Ok(read_text(alloc, LEAST, MOST, string_of(value)?)?)
    }
}

/// The name of an alarm type, of the module `ietf-alarms` where it says none.
pub struct TypeName;

impl Reader for TypeName {
    type Output = TypeId;

    ghost reads = { type_name };

    #[tactic(auto, unfolding(crate::specs::Readers::type_name, crate::specs::Readers::passed))]
    fn read(alloc: Global, value: &Value) -> Result<TypeId, InputFault> {
        Ok(read_type(alloc, string_of(value)?)?)
    }
}

/// What an alarm is about.
pub struct ResourceText;

impl Reader for ResourceText {
    type Output = Resource;

    ghost reads = { text 1 longest_resource };

    #[tactic(auto, unfolding(crate::specs::Readers::text, crate::specs::Readers::passed))]
    fn read(alloc: Global, value: &Value) -> Result<Resource, InputFault> {
        Ok(read_resource(alloc, string_of(value)?)?)
    }
}

/// What resources are matched by.
pub struct MatchText;

impl Reader for MatchText {
    type Output = ResourceMatch;

    ghost reads = { resource_match };

    #[tactic(auto, unfolding(crate::specs::Readers::resource_match, crate::specs::Readers::passed))]
    fn read(alloc: Global, value: &Value) -> Result<ResourceMatch, InputFault> {
        Ok(read_match(alloc, string_of(value)?)?)
    }
}

/// A pattern for qualifiers.
pub struct PatternText;

impl Reader for PatternText {
    type Output = Pattern;

    ghost reads = { pattern };

    #[tactic(auto, unfolding(crate::specs::Readers::pattern, crate::specs::Readers::passed))]
    fn read(alloc: Global, value: &Value) -> Result<Pattern, InputFault> {
        Ok(read_pattern(alloc, string_of(value)?)?)
    }
}

/// The text of a member, or the text of no bytes where the member is absent.
pub fn text_or_empty(
    alloc: Global,
    value: &Value,
    plain: &str,
    qualified: &str,
) -> Result<Text, InputFault>
    ensures { Answers (with_default [] plain.now qualified.now (text 0 longest_qualifier)
        (view value.now)) result }
{
    match optional::<TextOf<0, LONGEST_QUALIFIER>>(alloc, value, plain, qualified)? {
        Some(text) => Ok(text),
        None => empty_text(alloc),
    }
}

pub(crate) fn empty_text(alloc: Global) -> Result<Text, InputFault>
    ensures { Answers (Ok []) result }
{
    match Text::read(alloc, b"") {
        Ok(text) => Ok(text),
        Err(_) => Err(InputFault::Memory),
    }
}
