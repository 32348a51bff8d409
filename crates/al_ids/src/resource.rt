ghost use Rattle.al_base.specs.Limits.{longest_resource};
ghost use Rattle.al_ids.specs.Oids.{IsOid};
ghost use Rattle.al_ids.specs.Paths.{IsPath};
ghost use Rattle.al_ids.specs.Resources.{IsOfKind, IsResource};
ghost use Rattle.std.proofs.Common.{rules};
ghost use Rattle.std.specs.Bool.{◌==◌};
ghost use Rattle.std.specs.Cmp.Lexicographic.{slice_cmp};
ghost use Rattle.std.specs.Cmp.Rules.{comparing};
ghost use Rattle.std.specs.Cmp.{partial_order_from_own_ties};
ghost use Rattle.std.specs.Ordering.{as_partial_cmp, nat_cmp};
ghost use Rattle.std.specs.Prelude.{◌≡◌, ◌≢◌, ◌↔◌, ◌<◌, ◌≤◌, [], IfOk, IsTrue, IsUtf8, length};
ghost use lib.Pointwise.{pointwise};

use crate::{oid, path};
use al_base::limits::LONGEST_RESOURCE;
use al_base::{Copied, Text, TextFault};
use std::alloc::{AllocError, Global};
use std::cmp::Ordering;
use std::error::Error;
use std::fmt;
use std::marker::Model;

/// What a resource names its thing by.
#[derive(Clone, Copy, Debug, PartialEq, Eq)]
pub enum Kind {
    /// A path whose first step says its module, as `/ietf-interfaces:interfaces/interface[name='eth1']`.
    Path,
    /// An object identifier, as `1.3.6.1.2.1.2.2.1.1.17`.
    Oid,
    /// Any other text, as `eth1`.
    Plain,
}

/// Why bytes are no resource.
#[derive(Clone, Copy, Debug, PartialEq, Eq)]
pub enum ResourceFault {
    /// There are no bytes.
    Empty,
    /// There are more than 512 bytes.
    TooLong,
    /// The bytes aren't UTF-8.
    NotUtf8,
    /// There was no memory for the text.
    Memory,
}

impl fmt::Display for ResourceFault {
    fn fmt<W: fmt::Write>(&self, f: &mut fmt::Formatter<W>) -> fmt::Result {
        f.write_str(match self {
            ResourceFault::Empty => "the resource is empty",
            ResourceFault::TooLong => "the resource is longer than 512 bytes",
            ResourceFault::NotUtf8 => "the resource isn't UTF-8",
            ResourceFault::Memory => "out of memory",
        })
    }
}

impl Error for ResourceFault {}

/// What an alarm is about (RFC 8632, type `resource`): a text of 1 to 512 bytes.
#[derive(Debug, Drop)]
pub struct Resource {
    text: Text,
    kind: Kind,
}

impl Model for Resource {
    ghost use Rattle.std.specs.Prelude.{List, ℕ};
    ghost use Rattle.al_ids.specs.Resources.{IsResource, IsOfKind};

    ghost Value = { List ℕ };

    ghost view = { λ resource. resource.text };

    ghost invariant = { λ resource. IsResource resource.text
        × IsOfKind resource.kind resource.text };
}

impl Resource {
    /// The resource of this text.
    pub fn read(alloc: Global, text: &[u8]) -> Result<Resource, ResourceFault>
        ensures ok { IfOk result (λ resource. (resource ≡ text.now) × IsResource text.now) }
        ensures empty { (result ≡ Err ResourceFault.Empty) ↔ (text.now ≡ []) }
        ensures too_long { (result ≡ Err ResourceFault.TooLong)
            ↔ (longest_resource < length text.now) }
        ensures not_utf8 { (result ≡ Err ResourceFault.NotUtf8)
            ↔ ((text.now ≢ []) × (length text.now ≤ longest_resource) × ¬ (IsUtf8 text.now)) }
    {
        if text.is_empty() {
            return Err(ResourceFault::Empty);
        }
        if text.len() > LONGEST_RESOURCE {
            return Err(ResourceFault::TooLong);
        }
        match Text::read(alloc, text) {
            Ok(text) => {
                let kind = kind_of(text.bytes());
                Ok(Resource { text, kind })
            }
            Err(TextFault::NotUtf8) => Err(ResourceFault::NotUtf8),
            Err(TextFault::Memory) => Err(ResourceFault::Memory),
        }
    }

    pub fn kind(&self) -> Kind
        ensures path { (result ≡ Kind.Path) ↔ IsPath self.now }
        ensures oid { (result ≡ Kind.Oid) ↔ IsOid self.now }
        ensures plain { (result ≡ Kind.Plain) ↔ ((¬ (IsPath self.now)) × (¬ (IsOid self.now))) }
    {
        self.kind
    }

    pub fn text(&self) -> &Text
        ensures text { result.now ≡ self.now }
        ensures resource { IsResource result.now }
    {
        &self.text
    }
}

fn kind_of(text: &[u8]) -> Kind
    ensures { IsOfKind result text.now }
{
    if path::is_path(text) {
        Kind::Path
    } else if oid::is_oid(text) {
        Kind::Oid
    } else {
        Kind::Plain
    }
}

// Resources are compared by their bytes.

impl PartialEq for Resource {
    ghost eq = { pointwise ◌==◌ };

    ghost laws = { Prim.search (comparing, rules) };

    fn eq(&self, other: &Resource) -> bool
        ensures value { result ≡ pointwise ◌==◌ self.now other.now }
        ensures exact { IsTrue result ↔ (self.now ≡ other.now) }
    {
        self.text == other.text
    }
}

impl Eq for Resource {
    ghost laws = { Prim.search (comparing, rules) };
}

impl PartialOrd for Resource {
    ghost partial_cmp = { as_partial_cmp (slice_cmp nat_cmp) };

    ghost laws = { partial_order_from_own_ties (Prim.search (comparing, rules))
        (Prim.search (comparing, rules)) };

    fn partial_cmp(&self, other: &Resource) -> Option<Ordering> {
        Some(self.cmp(other))
    }
}

impl Ord for Resource {
    ghost cmp = { slice_cmp nat_cmp };

    ghost total = { Prim.search (comparing, rules) };

    ghost matches_partial_cmp = { Prim.search (comparing, rules) };

    ghost matches_eq = { Prim.search (comparing, rules) };

    fn cmp(&self, other: &Resource) -> Ordering {
        self.text.cmp(&other.text)
    }
}

impl Copied for Resource {
    fn copy(&self, alloc: Global) -> Result<Resource, AllocError> {
        Ok(Resource {
            text: self.text.copy(alloc)?,
            kind: self.kind,
        })
    }
}
