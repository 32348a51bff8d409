//! Which identities and rows repeat earlier ones.

ghost use Rattle.al_types.specs.Known.{IsDuplicateIdentity, IsDuplicateRow, IsFirst};
ghost use Rattle.std.specs.Prelude.{◌<◌, ◌↔◌, IsTrue, length};

use crate::place::place_before;
use crate::row::{Identity, Row};

/// The first identity whose name is the root's or an earlier one's.
pub fn duplicate_identity(identities: &[Identity]) -> Option<usize>
    ensures { IsFirst (IsDuplicateIdentity identities.now) result }
{
    for n in 0..identities.len() {
        if let Some(_) = place_before(identities, n, &identities[n].name) {
            return Some(n);
        }
    }
    None
}

/// The first row with the type and the qualifier of an earlier one.
pub fn duplicate_row(rows: &[Row]) -> Option<usize>
    ensures { IsFirst (IsDuplicateRow rows.now) result }
{
    for n in 0..rows.len() {
        if repeats(rows, n) {
            return Some(n);
        }
    }
    None
}

fn repeats(rows: &[Row], n: usize) -> bool
    requires { n < length rows.now }
    ensures { IsTrue result ↔ IsDuplicateRow rows.now n }
{
    let row = &rows[n];
    for earlier in 0..n {
        if rows[earlier].is_of(&row.type_id, &row.qualifier) {
            return true;
        }
    }
    false
}
