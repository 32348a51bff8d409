//! The compiled pattern over a whole text.

ghost use Rattle.std.specs.Prelude.{◌≡◌, ◌↔◌, true, IsTrue, [], chars};
ghost use Rattle.al_pattern.specs.Language.{IsInLanguage};
ghost use Rattle.al_pattern.specs.Trees.{Choice};
ghost use Rattle.al_pattern.specs.Programs.{IsCompiled, IsProgram};

use crate::node::Node;
use crate::walk::{no_marks, step};

/// Whether the pattern takes the empty text, which a step with any character shows.
pub fn takes_nothing(nodes: &[Node]) -> bool
    requires { (x : Choice) × IsCompiled nodes.now x }
    ensures { (x : Choice) → IsCompiled nodes.now x → (result ≡ true ↔ IsInLanguage x []) }
{
    let (_, level) = step(nodes, false, 'a', &no_marks());
    level.takes_nothing()
}

/// Whether the whole text is in the language of the pattern.
pub fn accepts(nodes: &[Node], nullable: bool, text: &str) -> bool
    requires { (x : Choice) × IsProgram nodes.now nullable x }
    ensures { (x : Choice) → IsProgram nodes.now nullable x
        → (IsTrue result ↔ IsInLanguage x (chars text.now)) }
{
    let mut marks = no_marks();
    let mut start = true;
    let mut accepted = nullable;
    for c in text.chars() {
        let (after, level) = step(nodes, start, c, &marks);
        marks = after;
        accepted = level.has_ended();
        start = false;
    }
    accepted
}
