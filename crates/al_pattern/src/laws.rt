//! What holds of all patterns.

ghost use Rattle.std.specs.Prelude.{◌≡◌, ◌↔◌, ℕ, IsTrue, List, Some, None};
ghost use Rattle.al_pattern.specs.Language.{IsInLanguage};
ghost use Rattle.al_pattern.specs.Membership.{is_in_language};
ghost use Rattle.al_pattern.specs.Places.{IsPlaced};
ghost use Rattle.al_pattern.specs.declared.fault.PatternFault.{PatternFault};
ghost use Rattle.al_pattern.specs.Reading.{tree_of, first_fault};
ghost use Rattle.al_pattern.specs.Trees.{Choice, IsSpelled};

/// A text spells one tree at most.
pub fn one_tree()
    ensures { (a b : Choice) (text : List ℕ) → IsSpelled a text → IsSpelled b text → a ≡ b }
{}

/// The tree that a text spells is its `tree_of`.
pub fn tree_of_text()
    ensures { (tree : Choice) (text : List ℕ) → IsSpelled tree text → tree_of text ≡ tree }
{}

/// Exactly the texts that spell a tree have no fault.
pub fn no_fault()
    ensures { (text : List ℕ) → (first_fault text ≡ None ↔ IsSpelled (tree_of text) text) }
{}

/// The first fault of a text stands where the grammar says, and no other does.
pub fn fault_place()
    ensures { (text : List ℕ) (fault : PatternFault)
        → (first_fault text ≡ Some fault ↔ IsPlaced text fault) }
{}

/// Whether a text is in the language of a pattern, as a function, is what the relation says.
pub fn language_is_decided()
    ensures { (pattern text : List ℕ)
        → (IsTrue (is_in_language pattern text) ↔ IsInLanguage (tree_of pattern) text) }
{}
