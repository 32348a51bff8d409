//! The tokens of a pattern.

ghost use Rattle.std.specs.Prelude.{◌≡◌, ◌<◌, ◌≤◌, length, IfOk};
ghost use Rattle.al_pattern.specs.Faults.{Gives, fault_at};
ghost use Rattle.al_pattern.specs.Tokens.{is_unsupported, test_shown, shown, test_at, quantifier_of, quantifier_at, token_at, begins_node, escape_test};

use crate::class::{begins_left_out, read_class};
use crate::fault::{Fault, FaultKind, ReadError};
use crate::letter::{Item, Letter, is_char, is_printable, read_escape};
use std::alloc::Global;

/// How many nodes a pattern may have: characters, dots, escapes, classes, groups, quantifiers and bars.
pub const MAX_NODES: usize = 256;

/// How many groups may be open at one place.
pub const MAX_DEPTH: usize = 16;

/// How often what stands before it may be repeated.
#[derive(Clone, Copy)]
pub enum Quantifier {
    Once,
    Optional,
    Star,
    Plus,
}

/// A test of one character, as it is written.
#[derive(Drop)]
pub enum CharTest {
    Letter(Letter),
    Dot,
    Digit,
    Space,
    Class(bool, Vec<Item>),
}

/// A bar, an end of a group, or a test; what may be repeated has its quantifier with it.
#[derive(Drop)]
pub enum Token {
    Bar,
    Open,
    Close(Quantifier),
    One(CharTest, Quantifier),
}

const NODE_SIGNS: [u8; 5] = *b".\\[(|";

pub fn fault_at(kind: FaultKind, text: &[u8]) -> ReadError
    ensures { result ≡ ReadError.Fault (fault_at kind text.now) }
{
    ReadError::Fault(Fault {
        kind,
        left: text.len(),
    })
}

#[tactic(auto, unfolding(crate::specs::Tokens::is_unsupported))]
fn is_unsupported(text: &[u8]) -> bool
    ensures { result ≡ is_unsupported text.now }
{
    match text {
        [] => false,
        [b, rest @ ..] => {
            !is_printable(*b) || *b == b'{' || (*b == b'\\' && begins_left_out(rest))
        }
    }
}

fn begins_node(b: u8) -> bool
    ensures { result ≡ begins_node b }
{
    is_char(b) || NODE_SIGNS.contains(&b)
}

/// Reads a test at a byte that begins one.
#[tactic(auto, unfolding(crate::specs::Tokens::test_at))]
fn read_test(alloc: Global, text: &[u8]) -> Result<(CharTest, &[u8]), ReadError>
    ensures read { Gives (λ x. (test_shown x.0, x.1.now)) result (test_at text.now) }
    ensures shorter { IfOk result (λ x. length x.1.now < length text.now) }
{
    let [b, rest @ ..] = text else {
        return Err(fault_at(FaultKind::Syntax, text));
    };
    match *b {
        b'.' => Ok((CharTest::Dot, rest)),
        b'\\' => {
            let (item, after) = read_escape(rest)?;
            Ok((escape_test(item), after))
        }
        b'[' => {
            let (test, after) = read_class(alloc, rest)?;
            Ok((test, after))
        }
        _ => Ok((CharTest::Letter(Letter::Plain(*b)), rest)),
    }
}

fn escape_test(item: Item) -> CharTest
    ensures { test_shown result ≡ escape_test item }
{
    match item {
        Item::One(letter) | Item::Range(letter, _) => CharTest::Letter(letter),
        Item::Digit => CharTest::Digit,
        Item::Space => CharTest::Space,
    }
}

fn quantifier_of(b: u8) -> Option<Quantifier>
    ensures { result ≡ quantifier_of b }
{
    match b {
        b'?' => Some(Quantifier::Optional),
        b'*' => Some(Quantifier::Star),
        b'+' => Some(Quantifier::Plus),
        _ => None,
    }
}

/// Reads the quantifier behind an atom, and counts it where there is one.
#[tactic(auto, unfolding(crate::specs::Tokens::quantifier_at))]
fn read_quantifier(nodes: usize, text: &[u8]) -> Result<(Quantifier, usize, &[u8]), ReadError>
    requires { nodes ≤ 256 }
    ensures read { Gives (λ x. (x.0, x.1, x.2.now)) result (quantifier_at nodes text.now) }
    ensures shorter { IfOk result (λ x. length x.2.now ≤ length text.now) }
    ensures few { IfOk result (λ x. x.1 ≤ 256) }
{
    let [b, rest @ ..] = text else {
        return Ok((Quantifier::Once, nodes, text));
    };
    let Some(quantifier) = quantifier_of(*b) else {
        return Ok((Quantifier::Once, nodes, text));
    };
    if nodes >= MAX_NODES {
        return Err(fault_at(FaultKind::TooLarge, text));
    }
    Ok((quantifier, nodes + 1, rest))
}

/// Reads the token at the front of a text, where `depth` groups are open and `nodes` nodes were read.
#[tactic(auto, unfolding(crate::specs::Tokens::token_at))]
pub fn read_token(
    alloc: Global,
    depth: usize,
    nodes: usize,
    text: &[u8],
) -> Result<(Token, usize, &[u8]), ReadError>
    requires { nodes ≤ 256 }
    ensures read { Gives (λ x. (shown x.0, x.1, x.2.now)) result (token_at depth nodes text.now) }
    ensures shorter { IfOk result (λ x. length x.2.now < length text.now) }
    ensures few { IfOk result (λ x. x.1 ≤ 256) }
{
    let [b, rest @ ..] = text else {
        return Err(fault_at(FaultKind::Syntax, text));
    };
    if is_unsupported(text) {
        return Err(fault_at(FaultKind::Unsupported, text));
    }
    if *b == b')' {
        if depth == 0 {
            return Err(fault_at(FaultKind::Syntax, text));
        }
        let (quantifier, nodes, after) = read_quantifier(nodes, rest)?;
        return Ok((Token::Close(quantifier), nodes, after));
    }
    if !begins_node(*b) {
        return Err(fault_at(FaultKind::Syntax, text));
    }
    if nodes >= MAX_NODES {
        return Err(fault_at(FaultKind::TooLarge, text));
    }
    match *b {
        b'|' => Ok((Token::Bar, nodes + 1, rest)),
        b'(' if depth < MAX_DEPTH => Ok((Token::Open, nodes + 1, rest)),
        b'(' => Err(fault_at(FaultKind::TooDeep, text)),
        _ => {
            let (test, after) = read_test(alloc, text)?;
            let (quantifier, nodes, after) = read_quantifier(nodes + 1, after)?;
            Ok((Token::One(test, quantifier), nodes, after))
        }
    }
}
