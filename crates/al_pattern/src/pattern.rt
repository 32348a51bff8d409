//! Patterns.

ghost use Rattle.std.proofs.Common.{rules};
ghost use Rattle.std.specs.Bool.{◌==◌};
ghost use Rattle.std.specs.Cmp.Rules.{comparing};
ghost use Rattle.std.specs.Prelude.{◌≡◌, ◌↔◌, ◌-◌, ℕ, List, length, None, ◌⊎◌, IsTrue, IfOk, IfErr, IsOkUnless, MatchResult, IsUtf8, chars};
ghost use lib.Pointwise.{pointwise};
ghost use Rattle.al_pattern.specs.Faults.{Fails};
ghost use Rattle.al_pattern.specs.Language.{IsInLanguage};
ghost use Rattle.al_pattern.specs.Membership.{is_in_language};
ghost use Rattle.al_pattern.specs.Places.{IsPlaced};
ghost use Rattle.al_pattern.specs.Reading.{tree_of, first_fault, IsFirstFault, fault_named, reading};
ghost use Rattle.al_pattern.specs.Trees.{Choice, IsSpelled};

use crate::builder::compile;
use crate::fault::{Fault, FaultKind, PatternFault, ReadError};
use crate::node::Node;
use crate::program::{accepts, takes_nothing};
use std::alloc::{AllocError, Global};
use std::marker::Model;
use std::{fmt, str};

/// A pattern: a contract sees its text, of which `tree_of` is the tree.
#[derive(Drop)]
pub struct Pattern {
    source: Vec<u8>,
    nodes: Vec<Node>,
    nullable: bool,
}

impl Model for Pattern {
    ghost use Rattle.std.specs.Prelude.{List, ℕ};
    ghost use Rattle.al_pattern.specs.Patterns.{IsReady};

    ghost Value = { List ℕ };

    ghost view = { λ p. p.source.items };

    ghost invariant = { λ p. IsReady p.source.items p.nodes.items p.nullable };
}

impl Pattern {
    /// Reads a pattern, at most 256 nodes with at most 16 groups in one another.
    ///
    /// The nodes are the characters, dots, escapes, classes, groups, quantifiers and bars. Among several faults the one at
    /// the lowest byte is answered; at one byte `Unsupported` comes before `TooLarge`, `TooDeep` and `Syntax`.
    pub fn read(alloc: Global, text: &[u8]) -> Result<Self, PatternFault>
        // What is read is a pattern: the text is the spelling of its tree.
        ensures found { IfOk result (λ p. (p ≡ text.now) × IsSpelled (tree_of p) p) }
        // What is a pattern is read, unless memory runs out.
        ensures only { (tree : Choice) → IsSpelled tree text.now
            → IsOkUnless result PatternFault.Memory }
        // An error is the first fault, and what is read has none.
        ensures fault { MatchResult result (λ p. first_fault text.now ≡ None) (λ e.
            IsFirstFault text.now e) }
        // It stands where the grammar says: by what trees may begin with, and not by how the text is read.
        ensures place { IfErr result (λ e. (e ≡ PatternFault.Memory) ⊎ IsPlaced text.now e) }
    {
        match compile(alloc, text) {
            Ok(nodes) => {
                let source = Vec::from_slice(alloc, text)?;
                let nullable = takes_nothing(&nodes);
                Ok(Pattern {
                    source,
                    nodes,
                    nullable,
                })
            }
            Err(error) => Err(refusal(error, text.len())),
        }
    }

    /// Whether the whole text is in the language of the pattern.
    ///
    /// The text is walked once. A step takes each node of the pattern once. It can't fail.
    pub fn matches(&self, text: &[u8]) -> bool
        requires { IsUtf8 text.now }
        ensures language { IsTrue result ↔ IsInLanguage (tree_of self.now) (chars text.now) }
        ensures value { result ≡ is_in_language self.now (chars text.now) }
    {
        match str::from_utf8(text) {
            Ok(text) => accepts(&self.nodes, self.nullable, text),
            Err(_) => unreachable!(),
        }
    }

    /// The text that was read.
    pub fn source(&self) -> &[u8]
        ensures text { result.now ≡ self.now }
        ensures pattern { IsSpelled (tree_of self.now) self.now }
    {
        &self.source
    }

    pub fn copy(&self, alloc: Global) -> Result<Self, AllocError>
        ensures { IfOk result (λ p. p ≡ self.now) }
    {
        Ok(Pattern {
            source: Vec::from_slice(alloc, &self.source)?,
            nodes: Vec::from_slice(alloc, &self.nodes)?,
            nullable: self.nullable,
        })
    }
}

// Patterns are compared by their texts.

impl PartialEq for Pattern {
    ghost eq = { pointwise ◌==◌ };

    ghost laws = { Prim.search (comparing, rules) };

    fn eq(&self, other: &Pattern) -> bool
        ensures value { result ≡ pointwise ◌==◌ self.now other.now }
        ensures exact { IsTrue result ↔ (self.now ≡ other.now) }
    {
        self.source.as_slice() == other.source.as_slice()
    }
}

impl Eq for Pattern {
    ghost laws = { Prim.search (comparing, rules) };
}

impl fmt::Debug for Pattern {
    fn fmt<W: fmt::Write>(&self, f: &mut fmt::Formatter<W>) -> fmt::Result {
        write!(f, "Pattern({:?})", self.source)
    }
}

/// The answer where a text of that length isn't compiled.
fn refusal(error: ReadError, len: usize) -> PatternFault
    ensures { (text : List ℕ) → length text ≡ len → Fails error (reading text)
        → IsFirstFault text result }
{
    match error {
        ReadError::Fault(fault) => placed(fault, len),
        ReadError::Memory => PatternFault::Memory,
    }
}

/// The fault with its place in a text of that length.
fn placed(fault: Fault, len: usize) -> PatternFault
    ensures { result ≡ fault_named fault.kind (len - fault.left) }
{
    let place = len.saturating_sub(fault.left);
    match fault.kind {
        FaultKind::Syntax => PatternFault::Syntax(place),
        FaultKind::Unsupported => PatternFault::Unsupported(place),
        FaultKind::TooLarge => PatternFault::TooLarge(place),
        FaultKind::TooDeep => PatternFault::TooDeep(place),
    }
}
