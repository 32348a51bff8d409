ghost use Rattle.std.specs.Cmp.{decided, partial_equiv_from_equiv};
ghost use Rattle.std.specs.Prelude.{◌≡◌, ◌↔◌, IsTrue};
ghost use Rattle.al_types.specs.Exact.{same_identity_decides, same_row_decides};
ghost use Rattle.al_types.specs.Inventories.{Allows, allows, is_of};
ghost use Rattle.al_types.specs.Same.{same_identity, same_row};

use al_base::{Copied, EventType, List, Severity, Text, TypeId};
use std::alloc::{AllocError, Global};

/// A declared alarm type, with the type that it derives from.
#[derive(Debug, Drop)]
pub struct Identity {
    pub name: TypeId,
    pub base: TypeId,
}

/// What the alarms of one type and qualifier may be (RFC 8632, list `alarm-type` of the alarm inventory).
#[derive(Debug, Drop)]
pub struct Row {
    pub type_id: TypeId,
    pub qualifier: Text,
    /// The resources that may have such an alarm. With none any may.
    pub resources: List<Text>,
    /// Whether the device tells when such an alarm is over.
    pub will_clear: bool,
    /// The severities that it may have: bit n is that of the n-th, and bit 0 that of indeterminate.
    pub severities: u8,
    pub description: Text,
    pub event_type: EventType,
}

impl Row {
    /// Whether the row is that of the alarms of this type and qualifier.
    pub fn is_of(&self, type_id: &TypeId, qualifier: &Text) -> bool
        ensures value { result ≡ is_of type_id.now qualifier.now self.now }
        ensures exact { IsTrue result
            ↔ ((self.now.type_id ≡ type_id.now) × (self.now.qualifier ≡ qualifier.now)) }
    {
        self.type_id == *type_id && self.qualifier == *qualifier
    }

    /// Whether alarms of the row may have the severity. They may have any where the row has none.
    pub fn allows(&self, severity: Severity) -> bool
        ensures value { result ≡ allows self.now severity }
        ensures exact { IsTrue result ↔ Allows self.now severity }
    {
        self.severities == 0 || self.severities & (1 << severity.rank()) != 0
    }
}

// Identities and rows are the same where all their fields are.

impl PartialEq for Identity {
    ghost eq = { same_identity };

    ghost laws = { partial_equiv_from_equiv (decided same_identity same_identity_decides) };

    fn eq(&self, other: &Identity) -> bool
        ensures value { result ≡ same_identity self.now other.now }
        ensures exact { IsTrue result ↔ (self.now ≡ other.now) }
    {
        self.name == other.name && self.base == other.base
    }
}

impl Eq for Identity {
    ghost laws = { decided same_identity same_identity_decides };
}

impl PartialEq for Row {
    ghost eq = { same_row };

    ghost laws = { partial_equiv_from_equiv (decided same_row same_row_decides) };

    fn eq(&self, other: &Row) -> bool
        ensures value { result ≡ same_row self.now other.now }
        ensures exact { IsTrue result ↔ (self.now ≡ other.now) }
    {
        self.is_of(&other.type_id, &other.qualifier)
            && self.resources == other.resources
            && self.will_clear == other.will_clear
            && self.severities == other.severities
            && self.description == other.description
            && self.event_type == other.event_type
    }
}

impl Eq for Row {
    ghost laws = { decided same_row same_row_decides };
}

impl Copied for Identity {
    fn copy(&self, alloc: Global) -> Result<Identity, AllocError> {
        Ok(Identity {
            name: self.name.copy(alloc)?,
            base: self.base.copy(alloc)?,
        })
    }
}

impl Copied for Row {
    fn copy(&self, alloc: Global) -> Result<Row, AllocError> {
        Ok(Row {
            type_id: self.type_id.copy(alloc)?,
            qualifier: self.qualifier.copy(alloc)?,
            resources: self.resources.copy(alloc)?,
            will_clear: self.will_clear,
            severities: self.severities,
            description: self.description.copy(alloc)?,
            event_type: self.event_type,
        })
    }
}
