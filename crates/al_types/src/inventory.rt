ghost use Rattle.std.specs.Prelude.{◌≡◌, ◌↔◌, IfSome, IsTrue, find, length, option_copied};
ghost use Rattle.al_types.specs.Inventories.{is_of};

use crate::fault::InventoryFault;
use crate::place::{Place, find_bases, place_before};
use crate::repeats::{duplicate_identity, duplicate_row};
use crate::row::{Identity, Row};
use al_base::limits::{MOST_IDENTITIES, MOST_ROWS};
use al_base::{Copied, List, Text, TypeId};
use std::alloc::{AllocError, Global};
use std::marker::Model;

/// The declared alarm types, each after its base, and what alarms there may be of them (RFC 8632, section 4.2).
#[derive(Debug, Drop)]
pub struct Inventory {
    identities: List<Identity>,
    rows: List<Row>,
    /// Where the base of each identity stands.
    bases: Vec<Place>,
}

impl Model for Inventory {
    ghost use Rattle.al_types.specs.Inventories.{InventoryView};
    ghost use Rattle.al_types.specs.Places.{IsInventory};

    ghost Value = { InventoryView };

    ghost view = { λ i. record { identities = i.identities; rows = i.rows } };

    ghost invariant = { λ i. IsInventory i.identities i.rows i.bases.items };
}

impl Inventory {
    ghost use Rattle.al_types.specs.Faults.{IsBuilt, IsSound};
    ghost use Rattle.al_types.specs.Inventories.{DerivesFrom, IsOnlyRow, IsRowOf, derives_from, no_inventory, row_of};
    ghost use Rattle.al_types.specs.Places.{IsPlaceBefore, IsStanding, TellsDerivation};

    /// The inventory of these lists. A list is searched once for each of its members.
    pub fn build(
        alloc: Global,
        identities: Vec<Identity>,
        rows: Vec<Row>,
    ) -> Result<Inventory, InventoryFault>
        ensures { IsBuilt identities.items rows.items result }
    {
        if identities.len() > MOST_IDENTITIES || rows.len() > MOST_ROWS {
            return Err(InventoryFault::TooMany);
        }
        if let Some(n) = duplicate_identity(identities.as_slice()) {
            return Err(InventoryFault::DuplicateIdentity(n));
        }
        let bases = find_bases(alloc, identities.as_slice())?;
        if let Some(n) = duplicate_row(rows.as_slice()) {
            return Err(InventoryFault::DuplicateRow(n));
        }
        Ok(Inventory {
            identities: List::of(identities),
            rows: List::of(rows),
            bases,
        })
    }

    /// The inventory that declares nothing. It can't fail, whatever memory there is.
    pub fn empty(alloc: Global) -> Inventory
        ensures { result ≡ no_inventory }
    {
        Inventory {
            identities: List::of(Vec::new(alloc)),
            rows: List::of(Vec::new(alloc)),
            bases: Vec::new(alloc),
        }
    }

    /// The declared alarm types.
    pub fn identities(&self) -> &[Identity]
        ensures identities { result.now ≡ self.now.identities }
        ensures sound { IsSound self.now.identities self.now.rows }
    {
        self.identities.as_slice()
    }

    /// What alarms there may be.
    pub fn rows(&self) -> &[Row]
        ensures rows { result.now ≡ self.now.rows }
        ensures sound { IsSound self.now.identities self.now.rows }
    {
        self.rows.as_slice()
    }

    /// The row of this type and qualifier.
    pub fn row(&self, t: &TypeId, qualifier: &Text) -> Option<&Row>
        ensures value { option_copied result ≡ row_of self.now t.now qualifier.now }
        ensures found { IfSome result (λ row. IsOnlyRow self.now t.now qualifier.now row.now) }
        ensures none { (result ≡ None)
            ↔ ((row : Row) → ¬ (IsRowOf self.now t.now qualifier.now row)) }
    {
        find_row(self.rows(), t, qualifier)
    }

    /// Whether the type is the base or derives from it.
    pub fn derives(&self, t: &TypeId, base: &TypeId) -> bool
        ensures value { result ≡ derives_from self.now t.now base.now }
        ensures exact { IsTrue result ↔ DerivesFrom self.now t.now base.now }
    {
        if t == base {
            return true;
        }
        match (self.place(t), self.place(base)) {
            (Some(start), Some(goal)) => self.leads(start, goal),
            _ => false,
        }
    }

    fn place(&self, name: &TypeId) -> Option<Place>
        ensures place { IsPlaceBefore self.now.identities (length self.now.identities) name.now
            result }
        ensures sound { IsSound self.now.identities self.now.rows }
    {
        let identities = self.identities.as_slice();
        place_before(identities, identities.len(), name)
    }

    /// Whether one base after the other leads from a place to another.
    fn leads(&self, start: Place, goal: Place) -> bool
        requires { IsStanding self.now.identities start }
        ensures { TellsDerivation self.now start goal result }
    {
        let mut at = start;
        while at != goal {
            match at {
                Place::Declared(n) => at = self.bases[n],
                Place::Root => return false,
            }
        }
        true
    }
}

/// The first row of this type and qualifier.
fn find_row<'a>(rows: &'a [Row], t: &TypeId, qualifier: &Text) -> Option<&'a Row>
    ensures { option_copied result ≡ find (is_of t.now qualifier.now) rows.now }
{
    rows.iter().find(|row| row.is_of(t, qualifier))
}

// Inventories are the same where their lists are.

impl PartialEq for Inventory {
    ghost use Rattle.al_types.specs.Exact.{same_inventory_decides};
    ghost use Rattle.al_types.specs.Same.{same_inventory};
    ghost use Rattle.std.specs.Cmp.{decided, partial_equiv_from_equiv};

    ghost eq = { same_inventory };

    ghost laws = { partial_equiv_from_equiv (decided same_inventory same_inventory_decides) };

    fn eq(&self, other: &Inventory) -> bool
        ensures value { result ≡ same_inventory self.now other.now }
        ensures exact { IsTrue result ↔ (self.now ≡ other.now) }
    {
        self.identities == other.identities && self.rows == other.rows
    }
}

impl Eq for Inventory {
    ghost use Rattle.al_types.specs.Exact.{same_inventory_decides};
    ghost use Rattle.al_types.specs.Same.{same_inventory};
    ghost use Rattle.std.specs.Cmp.{decided};

    ghost laws = { decided same_inventory same_inventory_decides };
}

impl Copied for Inventory {
    fn copy(&self, alloc: Global) -> Result<Inventory, AllocError> {
        Ok(Inventory {
            identities: self.identities.copy(alloc)?,
            rows: self.rows.copy(alloc)?,
            bases: Vec::from_slice(alloc, self.bases.as_slice())?,
        })
    }
}
