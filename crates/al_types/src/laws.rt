//! What holds of the tests that specifications use, each as the contract of a function that does nothing.

ghost use Rattle.al_base.specs.declared.severity.Severity.{Severity};
ghost use Rattle.al_types.specs.Faults.{IsSound};
ghost use Rattle.al_types.specs.Inventories.{Allows, DerivesFrom, InventoryView, IsOnlyRow, IsRowOf, allows, derives_from, row_of};
ghost use Rattle.al_types.specs.Same.{same_identity, same_inventory, same_row};
ghost use Rattle.al_types.specs.Sound.{is_sound};
ghost use Rattle.al_types.specs.declared.row.Identity.{Identity};
ghost use Rattle.al_types.specs.declared.row.Row.{Row};
ghost use Rattle.std.specs.Bool.{Decides};
ghost use Rattle.std.specs.Prelude.{◌≡◌, ◌↔◌, ℕ, List, None, Some};

/// In an inventory that `build` accepts a type derives from a base exactly where the test says so.
pub fn heirs_derive()
    ensures { (i : InventoryView) → IsSound i.identities i.rows → (type_id base : List ℕ)
        → Decides (derives_from i type_id base) (DerivesFrom i type_id base) }
{}

/// The row of a type and qualifier is the only one, where `build` accepts the inventory; there is none exactly where no row is of them.
pub fn rows_are_found()
    ensures found { (i : InventoryView) → IsSound i.identities i.rows
        → (type_id qualifier : List ℕ) (row : Row) → (row_of i type_id qualifier ≡ Some row)
        ↔ IsOnlyRow i type_id qualifier row }
    ensures none { (i : InventoryView) (type_id qualifier : List ℕ)
        → (row_of i type_id qualifier ≡ None)
        ↔ ((row : Row) → ¬ (IsRowOf i type_id qualifier row)) }
{}

/// A row allows a severity exactly where the test says so.
pub fn severities_are_allowed()
    ensures { (row : Row) (severity : Severity)
        → Decides (allows row severity) (Allows row severity) }
{}

/// Two values are the same exactly where they are one.
pub fn same_is_equal()
    ensures identities { (a b : Identity) → Decides (same_identity a b) (a ≡ b) }
    ensures rows { (a b : Row) → Decides (same_row a b) (a ≡ b) }
    ensures inventories { (a b : InventoryView) → Decides (same_inventory a b) (a ≡ b) }
{}

/// Lists make an inventory exactly where the test says so.
pub fn inventories_are_tested()
    ensures { (identities : List Identity) (rows : List Row)
        → Decides (is_sound identities rows) (IsSound identities rows) }
{}
