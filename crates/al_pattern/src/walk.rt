//! One step of the walk over a text.

ghost use Rattle.std.specs.Prelude.{◌≡◌, ◌≤◌, ◌<◌, ◌+◌, List, Bool, [], ◌∷◌, length, map, drop};
ghost use Rattle.al_pattern.specs.Sets.{Holds};
ghost use Rattle.al_pattern.specs.Walk.{Seen, seen, begun, may_enter, behind_atom, at_bar, has_ended, takes_nothing, may_skip, may_repeat, run, emitted, FitsIn, free_after, Nests, Steps};

use crate::bits::{contains, insert};
use crate::node::Node;
use crate::token::Quantifier;

/// What is known of a group and its current branch, before and after the character.
#[derive(Clone, Copy)]
pub struct Level {
    /// Whether each branch of the group may begin before the character.
    pub start: bool,
    /// Whether the rest of the branch may begin before the character.
    pub enter: bool,
    /// Whether the branch so far may end with the character.
    pub done: bool,
    /// Whether the branch so far takes the empty text.
    pub empty: bool,
    /// Whether a finished branch may end with the character.
    pub ended: bool,
    /// Whether a finished branch takes the empty text.
    pub skipped: bool,
}

impl Level {
    pub fn begun(begins: bool) -> Level
        ensures { result ≡ begun begins }
    {
        Level {
            start: begins,
            enter: begins,
            done: false,
            empty: true,
            ended: false,
            skipped: false,
        }
    }

    /// Whether an atom may begin before the character: behind what stands before it, or once more.
    fn may_enter(self, quantifier: Quantifier, was: bool) -> bool
        ensures { result ≡ may_enter self quantifier was }
    {
        self.enter || (quantifier.may_repeat() && was)
    }

    /// The level behind an atom that was at its end before the character, is at its end now, and may take nothing.
    fn behind_atom(self, was: bool, now: bool, nullable: bool) -> Level
        ensures { result ≡ behind_atom self was now nullable }
    {
        Level {
            enter: was || (self.enter && nullable),
            done: now || (self.done && nullable),
            empty: self.empty && nullable,
            ..self
        }
    }

    fn at_bar(self) -> Level
        ensures { result ≡ at_bar self }
    {
        Level {
            start: self.start,
            enter: self.start,
            done: false,
            empty: true,
            ended: self.ended || self.done,
            skipped: self.skipped || self.empty,
        }
    }

    pub fn has_ended(self) -> bool
        ensures { result ≡ has_ended self }
    {
        self.ended || self.done
    }

    pub fn takes_nothing(self) -> bool
        ensures { result ≡ takes_nothing self }
    {
        self.skipped || self.empty
    }
}

impl Quantifier {
    fn may_skip(self) -> bool
        ensures { result ≡ may_skip self }
    {
        matches!(self, Quantifier::Optional | Quantifier::Star)
    }

    fn may_repeat(self) -> bool
        ensures { result ≡ may_repeat self }
    {
        matches!(self, Quantifier::Star | Quantifier::Plus)
    }
}

/// A walk over the nodes with one character: the level now, and those of the groups around it, at the end of the array.
#[derive(Drop)]
struct Walk {
    levels: [Level; 16],
    free: usize,
    level: Level,
    ghost within: { free ≤ 16 },
}

impl Walk {
    fn begun(start: bool) -> Walk
        ensures { (result.free ≡ 16) × (result.level ≡ begun start) }
    {
        Walk {
            levels: [Level::begun(false); 16],
            free: 16,
            level: Level::begun(start),
        }
    }

    /// Takes node `i`, and answers whether it is marked after the character.
    #[tactic(auto, unfolding(crate::specs::Walk::run))]
    fn take(&mut self, node: Node, i: usize, old: &[u64; 8], c: char) -> bool
        requires few { i < 512 }
        requires fits { FitsIn self.old.free (seen c node) }
        ensures free { self.new.free ≡ free_after self.old.free (seen c node) }
        ensures runs { (nodes : List Seen) (olds : List Bool) → Holds old.now olds →
            run (seen c node ∷ nodes) (drop i olds) self.old.level
            (drop self.old.free self.old.levels)
            ≡ emitted result (run nodes (drop (i + 1) olds) self.new.level
            (drop self.new.free self.new.levels)) }
    {
        match node {
            Node::Bar => {
                self.level = self.level.at_bar();
                false
            }
            Node::Open(quantifier, inner) => {
                let again = contains(old, i + inner + 1);
                let begins = self.level.may_enter(quantifier, again);
                self.free -= 1;
                self.levels[self.free] = self.level;
                self.level = Level::begun(begins);
                false
            }
            Node::Close(quantifier) => {
                let now = self.level.has_ended();
                let nullable = self.level.takes_nothing() || quantifier.may_skip();
                self.level = self.levels[self.free].behind_atom(contains(old, i), now, nullable);
                self.free += 1;
                now
            }
            Node::Test(set, quantifier) => {
                let was = contains(old, i);
                let now = self.level.may_enter(quantifier, was) && set.admits(c);
                self.level = self.level.behind_atom(was, now, quantifier.may_skip());
                now
            }
        }
    }
}

/// Takes all nodes with a character, and answers the marks after it and the level at the end.
///
/// `start` says whether the pattern may begin before the character, and `old` has the marks before it.
pub fn step(nodes: &[Node], start: bool, c: char, old: &[u64; 8]) -> ([u64; 8], Level)
    requires few { length nodes.now ≤ 512 }
    requires nests { Nests 16 (map (seen c) nodes.now) }
    ensures { (olds : List Bool) → Holds old.now olds
        → Steps (map (seen c) nodes.now) olds start result.0 result.1 }
{
    let mut new = no_marks();
    let mut walk = Walk::begun(start);
    for (i, node) in nodes.iter().enumerate() {
        if walk.take(*node, i, old, c) {
            insert(&mut new, i);
        }
    }
    (new, walk.level)
}

pub fn no_marks() -> [u64; 8]
    ensures { Holds result [] }
{
    [0; 8]
}
