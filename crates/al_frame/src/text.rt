//! Texts, each in its form and within its limits.

ghost use Rattle.al_base.specs.Limits.{is_operator_name, is_text};
ghost use Rattle.al_frame.specs.Formats.{piece, text};
ghost use Rattle.al_frame.specs.Frames.{resource, resource_match, type_name};
ghost use Rattle.al_ids.specs.Forms.{is_pattern_text};
ghost use Rattle.std.specs.Prelude.{◌≡◌, length, min};

use crate::fault::{FrameFault, at};
use crate::field::Field;
use crate::number::{piece_at, place, put_piece};
use al_base::{Text, TypeId, read_operator_name, read_text};
use al_ids::{Resource, ResourceMatch, read_match, read_pattern, read_resource};
use al_pattern::Pattern;
use std::alloc::{AllocError, Global};

/// How many bytes a text takes with its length.
fn piece_len(text: &[u8]) -> usize
    ensures { result ≡ min usize.MAX (length (piece.spell text.now)) }
{
    text.len().saturating_add(2)
}

/// Any text of so many bytes.
pub struct TextOf<const LEAST: usize, const MOST: usize>;

impl<const LEAST: usize, const MOST: usize> Field for TextOf<LEAST, MOST> {
    type Value = Text;

    ghost format = { text (is_text LEAST MOST) };

    #[tactic(auto, unfolding(crate::specs::Formats::passed))]
    fn read(alloc: Global, n: usize, bytes: &[u8]) -> Result<(Text, &[u8]), FrameFault> {
        let (text, rest) = piece_at(n, bytes)?;
        let text = at(place(n, bytes), read_text(alloc, LEAST, MOST, text))?;
        Ok((text, rest))
    }

    fn len(text: &Text) -> usize {
        piece_len(text.bytes())
    }

    fn put(text: &Text, out: &mut Vec<u8>) -> Result<(), AllocError> {
        put_piece(text.bytes(), out)
    }
}

/// The name of an alarm type.
pub struct TypeName;

impl Field for TypeName {
    type Value = TypeId;

    ghost format = { type_name };

    #[tactic(auto, unfolding(crate::specs::Formats::passed))]
    fn read(alloc: Global, n: usize, bytes: &[u8]) -> Result<(TypeId, &[u8]), FrameFault> {
        let (text, rest) = piece_at(n, bytes)?;
        let type_id = at(place(n, bytes), TypeId::read(alloc, text))?;
        Ok((type_id, rest))
    }

    fn len(type_id: &TypeId) -> usize {
        piece_len(type_id.bytes())
    }

    fn put(type_id: &TypeId, out: &mut Vec<u8>) -> Result<(), AllocError> {
        put_piece(type_id.bytes(), out)
    }
}

/// What an alarm is about.
pub struct ResourceText;

impl Field for ResourceText {
    type Value = Resource;

    ghost format = { resource };

    #[tactic(auto, unfolding(crate::specs::Formats::passed))]
    fn read(alloc: Global, n: usize, bytes: &[u8]) -> Result<(Resource, &[u8]), FrameFault> {
        let (text, rest) = piece_at(n, bytes)?;
        let resource = at(place(n, bytes), read_resource(alloc, text))?;
        Ok((resource, rest))
    }

    fn len(resource: &Resource) -> usize {
        piece_len(resource.text().bytes())
    }

    fn put(resource: &Resource, out: &mut Vec<u8>) -> Result<(), AllocError> {
        put_piece(resource.text().bytes(), out)
    }
}

/// What resources are matched by.
pub struct MatchText;

impl Field for MatchText {
    type Value = ResourceMatch;

    ghost format = { resource_match };

    #[tactic(auto, unfolding(crate::specs::Formats::passed))]
    fn read(alloc: Global, n: usize, bytes: &[u8]) -> Result<(ResourceMatch, &[u8]), FrameFault> {
        let (text, rest) = piece_at(n, bytes)?;
        let criterion = at(place(n, bytes), read_match(alloc, text))?;
        Ok((criterion, rest))
    }

    fn len(criterion: &ResourceMatch) -> usize {
        piece_len(criterion.source())
    }

    fn put(criterion: &ResourceMatch, out: &mut Vec<u8>) -> Result<(), AllocError> {
        put_piece(criterion.source(), out)
    }
}

/// A pattern for qualifiers.
pub struct PatternText;

impl Field for PatternText {
    type Value = Pattern;

    ghost format = { text is_pattern_text };

    #[tactic(auto, unfolding(crate::specs::Formats::passed))]
    fn read(alloc: Global, n: usize, bytes: &[u8]) -> Result<(Pattern, &[u8]), FrameFault> {
        let (text, rest) = piece_at(n, bytes)?;
        let pattern = at(place(n, bytes), read_pattern(alloc, text))?;
        Ok((pattern, rest))
    }

    fn len(pattern: &Pattern) -> usize {
        piece_len(pattern.source())
    }

    fn put(pattern: &Pattern, out: &mut Vec<u8>) -> Result<(), AllocError> {
        put_piece(pattern.source(), out)
    }
}

/// The name of an operator.
pub struct OperatorName;

impl Field for OperatorName {
    type Value = Text;

    ghost format = { text is_operator_name };

    #[tactic(auto, unfolding(crate::specs::Formats::passed))]
    fn read(alloc: Global, n: usize, bytes: &[u8]) -> Result<(Text, &[u8]), FrameFault> {
        let (text, rest) = piece_at(n, bytes)?;
        let name = at(place(n, bytes), read_operator_name(alloc, text))?;
        Ok((name, rest))
    }

    fn len(name: &Text) -> usize {
        piece_len(name.bytes())
    }

    fn put(name: &Text, out: &mut Vec<u8>) -> Result<(), AllocError> {
        put_piece(name.bytes(), out)
    }
}
