//! What holds of all resources, resource matches and keys, each as the contract of a function that does nothing.

ghost use Rattle.al_ids.specs.Keys.{key_cmp};
ghost use Rattle.al_ids.specs.Matches.{Matches};
ghost use Rattle.al_ids.specs.Matching.{matches};
ghost use Rattle.al_ids.specs.declared.key.AlarmKey.{AlarmKey};
ghost use Rattle.std.specs.Prelude.{◌≡◌, ◌↔◌, ℕ, IsTrue, List};

use std::cmp::Ordering;

/// Whether a match takes a resource, as a function, is what the relation says.
pub fn matches_are_decided()
    ensures { (asked given : List ℕ) → (IsTrue (matches asked given) ↔ Matches asked given) }
{}

/// Two keys compare as equal exactly where they are one key.
pub fn equal_keys_are_one()
    ensures { (a b : AlarmKey) → (key_cmp a b ≡ Ordering.Equal) ↔ (a ≡ b) }
{}
