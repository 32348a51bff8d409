ghost use Rattle.al_base.specs.Identifiers.{IsTypeName, begins_identifier as begins_identifier_of, continues_identifier as continues_identifier_of, is_identifier as is_identifier_of, is_type_name as is_type_name_of};
ghost use Rattle.al_base.specs.Forms.{IsReadAs};
ghost use Rattle.std.proofs.Common.{rules};
ghost use Rattle.std.specs.Bool.{◌==◌};
ghost use Rattle.std.specs.Cmp.Lexicographic.{slice_cmp};
ghost use Rattle.std.specs.Cmp.Rules.{comparing};
ghost use Rattle.std.specs.Cmp.{partial_order_from_own_ties};
ghost use Rattle.std.specs.List.{list_all};
ghost use Rattle.std.specs.Ordering.{as_partial_cmp, nat_cmp};
ghost use Rattle.std.specs.Prelude.{◌≡◌, ◌<◌, ◌↔◌, IfOk, IfSome, IsTrue, length, position};
ghost use lib.Pointwise.{pointwise};

use crate::copied::Copied;
use crate::form::FormFault;
use crate::limits::LONGEST_TYPE;
use crate::text::{Text, TextFault};
use std::alloc::{AllocError, Global};
use std::cmp::Ordering;
use std::marker::Model;

/// The identity that names a type of alarm (RFC 8632, `alarm-type-id`), with its module, as `ex:link`.
#[derive(Debug, Drop)]
pub struct TypeId {
    text: Text,
}

impl Model for TypeId {
    ghost use Rattle.std.specs.Prelude.{List, ℕ};
    ghost use Rattle.al_base.specs.Identifiers.{IsTypeName};

    ghost Value = { List ℕ };

    ghost view = { λ id. id.text };

    ghost invariant = { λ id. IsTypeName id.text };
}

impl TypeId {
    /// The alarm type of this name.
    #[tactic(auto, using(crate::proofs::TextTests::type_holds, crate::proofs::TextTests::type_fails))]
    pub fn read(alloc: Global, bytes: &[u8]) -> Result<TypeId, FormFault>
        ensures ok { IfOk result (λ id. (id ≡ bytes.now) × IsTypeName bytes.now) }
        ensures form { (result ≡ Err FormFault.Form) ↔ ¬ (IsTypeName bytes.now) }
        ensures read { IsReadAs is_type_name_of bytes.now result }
    {
        if !is_type_name(bytes) {
            return Err(FormFault::Form);
        }
        match Text::read(alloc, bytes) {
            Ok(text) => Ok(TypeId { text }),
            Err(TextFault::Memory) => Err(FormFault::Memory),
            Err(TextFault::NotUtf8) => unreachable!(),
        }
    }

    pub fn text(&self) -> &Text
        ensures text { result.now ≡ self.now }
        ensures name { IsTypeName result.now }
    {
        &self.text
    }

    pub fn bytes(&self) -> &[u8]
        ensures bytes { result.now ≡ self.now }
        ensures name { IsTypeName result.now }
    {
        self.text.bytes()
    }
}

fn is_type_name(bytes: &[u8]) -> bool
    ensures { IsTrue result ↔ IsTypeName bytes.now }
{
    if bytes.len() > LONGEST_TYPE {
        return false;
    }
    match place_of_colon(bytes) {
        Some(colon) => is_identifier(&bytes[..colon]) && is_identifier(&bytes[colon + 1..]),
        None => false,
    }
}

fn place_of_colon(bytes: &[u8]) -> Option<usize>
    ensures place { result ≡ position (λ byte. byte == 58) bytes.now }
    ensures within { IfSome result (λ place. place < length bytes.now) }
{
    bytes.iter().position(|byte| *byte == b':')
}

/// Whether the bytes are an identifier of YANG, here of ASCII alone.
pub fn is_identifier(bytes: &[u8]) -> bool
    ensures { result ≡ is_identifier_of bytes.now }
{
    match bytes.split_first() {
        Some((first, rest)) => begins_identifier(*first) && all_continue(rest),
        None => false,
    }
}

fn all_continue(bytes: &[u8]) -> bool
    ensures { result ≡ list_all continues_identifier_of bytes.now }
{
    bytes.iter().all(|byte| continues_identifier(*byte))
}

/// Whether an identifier may begin with the byte.
pub fn begins_identifier(byte: u8) -> bool
    ensures { result ≡ begins_identifier_of byte }
{
    byte.is_ascii_alphabetic() || byte == b'_'
}

/// Whether an identifier may go on with the byte.
pub fn continues_identifier(byte: u8) -> bool
    ensures { result ≡ continues_identifier_of byte }
{
    byte.is_ascii_alphanumeric() || byte == b'_' || byte == b'-' || byte == b'.'
}

// Alarm types are compared by their bytes.

impl PartialEq for TypeId {
    ghost eq = { pointwise ◌==◌ };

    ghost laws = { Prim.search (comparing, rules) };

    fn eq(&self, other: &TypeId) -> bool
        ensures value { result ≡ pointwise ◌==◌ self.now other.now }
        ensures exact { IsTrue result ↔ (self.now ≡ other.now) }
    {
        self.text == other.text
    }
}

impl Eq for TypeId {
    ghost laws = { Prim.search (comparing, rules) };
}

impl PartialOrd for TypeId {
    ghost partial_cmp = { as_partial_cmp (slice_cmp nat_cmp) };

    ghost laws = { partial_order_from_own_ties (Prim.search (comparing, rules))
        (Prim.search (comparing, rules)) };

    fn partial_cmp(&self, other: &TypeId) -> Option<Ordering> {
        Some(self.cmp(other))
    }
}

impl Ord for TypeId {
    ghost cmp = { slice_cmp nat_cmp };

    ghost total = { Prim.search (comparing, rules) };

    ghost matches_partial_cmp = { Prim.search (comparing, rules) };

    ghost matches_eq = { Prim.search (comparing, rules) };

    fn cmp(&self, other: &TypeId) -> Ordering {
        self.text.cmp(&other.text)
    }
}

impl Copied for TypeId {
    fn copy(&self, alloc: Global) -> Result<TypeId, AllocError> {
        Ok(TypeId {
            text: self.text.copy(alloc)?,
        })
    }
}
