//! The compiled form of a pattern: its nodes in the order of the text.

ghost use Rattle.std.specs.Prelude.{◌≡◌, ℕ, ◌||◌, false};
ghost use Rattle.std.specs.List.{list_any};
ghost use Rattle.al_pattern.specs.Sets.{is_in, admits};
ghost use Rattle.al_pattern.specs.Tests.{is_in_item, is_allowed};
ghost use Rattle.al_pattern.specs.Tokens.{test_shown};

use crate::bits::{contains, insert, insert_range};
use crate::letter::Item;
use crate::token::{CharTest, Quantifier};

/// The characters that a test allows: bits for those below 256, and whether the set is all the others.
#[derive(Clone, Copy)]
pub struct CharSet {
    pub bytes: [u64; 4],
    pub negated: bool,
}

/// A node of the compiled pattern.
#[derive(Clone, Copy)]
pub enum Node {
    Bar,
    /// A group's beginning, with its quantifier and how many nodes stand before its end.
    Open(Quantifier, usize),
    Close(Quantifier),
    Test(CharSet, Quantifier),
}

impl CharSet {
    pub fn admits(&self, c: char) -> bool
        ensures { result ≡ admits self.now c }
    {
        contains(&self.bytes, c as usize) != self.negated
    }
}

/// Puts the characters of an item into a set.
fn insert_item(bytes: &mut [u64; 4], item: &Item)
    ensures { (c : ℕ) → is_in bytes.new c ≡ (is_in_item c item.now || is_in bytes.old c) }
{
    match *item {
        Item::One(letter) => insert(bytes, usize::from(letter.value())),
        Item::Range(first, last) => { insert_range(bytes, first.value(), last.value()) }
        Item::Digit => insert_range(bytes, b'0', b'9'),
        Item::Space => {
            insert(bytes, usize::from(b' '));
            insert_range(bytes, b'\t', b'\n');
            insert(bytes, usize::from(b'\r'));
        }
    }
}

fn insert_items(bytes: &mut [u64; 4], items: &[Item])
    ensures { (c : ℕ) → is_in bytes.new c
        ≡ (list_any (is_in_item c) items.now || is_in bytes.old c) }
{
    for item in items {
        insert_item(bytes, item);
    }
}

fn no_bytes() -> [u64; 4]
    ensures { (c : ℕ) → is_in result c ≡ false }
{
    [0; 4]
}

/// The characters that a test allows.
#[tactic(auto, unfolding(crate::specs::Tests::is_allowed))]
pub fn set_of(test: &CharTest) -> CharSet
    ensures { (c : ℕ) → admits result c ≡ is_allowed (test_shown test.now) c }
{
    let mut bytes = no_bytes();
    let mut negated = false;
    match test {
        CharTest::Letter(letter) => insert(&mut bytes, usize::from(letter.value())),
        CharTest::Dot => {
            insert(&mut bytes, usize::from(b'\r'));
            insert(&mut bytes, usize::from(b'\n'));
            negated = true;
        }
        CharTest::Digit => insert_item(&mut bytes, &Item::Digit),
        CharTest::Space => insert_item(&mut bytes, &Item::Space),
        CharTest::Class(is_negated, items) => {
            insert_items(&mut bytes, items);
            negated = *is_negated;
        }
    }
    CharSet { bytes, negated }
}
