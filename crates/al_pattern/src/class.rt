//! Classes of characters, as `[a-z_]`.

ghost use Rattle.std.specs.Prelude.{◌≡◌, ◌<◌, ◌≤◌, length, IfOk};
ghost use Rattle.al_pattern.specs.Faults.{Answers, Gives};
ghost use Rattle.al_pattern.specs.Classes.{is_unsupported_in_class, begins_left_out, class_stop_at, last_at, range_at, item_at, items_at, class_at};
ghost use Rattle.al_pattern.specs.Tokens.{test_shown};

use crate::fault::{Fault, FaultKind, ReadError};
use crate::letter::{
    Item, Letter, begins_with, behind, is_left_out, is_plain, is_printable, read_escape,
};
use crate::token::CharTest;
use std::alloc::Global;

pub fn begins_left_out(text: &[u8]) -> bool
    ensures { result ≡ begins_left_out text.now }
{
    match text {
        [] => false,
        [b, ..] => is_left_out(*b),
    }
}

#[tactic(auto, unfolding(crate::specs::Classes::is_unsupported_in_class))]
fn is_unsupported_in_class(text: &[u8]) -> bool
    ensures { result ≡ is_unsupported_in_class text.now }
{
    match text {
        [] => false,
        [b, rest @ ..] => {
            !is_printable(*b)
                || (*b == b'\\' && begins_left_out(rest))
                || (*b == b'-' && begins_with(rest, b'['))
        }
    }
}

/// The fault where no class has the first byte of what is left, or where it ends.
fn class_stop_at(text: &[u8]) -> Fault
    ensures { result ≡ class_stop_at text.now }
{
    let kind = if is_unsupported_in_class(text) {
        FaultKind::Unsupported
    } else {
        FaultKind::Syntax
    };
    Fault {
        kind,
        left: text.len(),
    }
}

/// Reads the last letter of a range.
#[tactic(auto, unfolding(crate::specs::Classes::last_at))]
fn read_last(text: &[u8]) -> Result<(Letter, &[u8]), Fault>
    ensures read { Answers (λ x. (x.0, x.1.now)) result (last_at text.now) }
    ensures shorter { IfOk result (λ x. length x.1.now < length text.now) }
{
    let [b, rest @ ..] = text else {
        return Err(class_stop_at(text));
    };
    if is_unsupported_in_class(text) {
        return Err(class_stop_at(text));
    }
    if is_plain(*b) {
        return Ok((Letter::Plain(*b), rest));
    }
    if *b != b'\\' {
        return Err(class_stop_at(text));
    }
    match read_escape(rest)? {
        (Item::One(last), after) => Ok((last, after)),
        _ => Err(Fault {
            kind: FaultKind::Syntax,
            left: rest.len(),
        }),
    }
}

/// Reads what may follow a letter, with which `from` begins: the rest of a range.
#[tactic(auto, unfolding(crate::specs::Classes::range_at))]
fn read_range<'a>(from: &[u8], first: Letter, text: &'a [u8]) -> Result<(Item, &'a [u8]), Fault>
    ensures read { Answers (λ x. (x.0, x.1.now)) result (range_at from.now first text.now) }
    ensures shorter { IfOk result (λ x. length x.1.now ≤ length text.now) }
{
    let [b, rest @ ..] = text else {
        return Ok((Item::One(first), text));
    };
    if *b != b'-' || begins_with(rest, b']') {
        return Ok((Item::One(first), text));
    }
    if begins_with(rest, b'[') {
        return Err(class_stop_at(text));
    }
    let (last, after) = read_last(rest)?;
    if last.value() < first.value() {
        return Err(Fault {
            kind: FaultKind::Syntax,
            left: from.len(),
        });
    }
    Ok((Item::Range(first, last), after))
}

/// Reads one item.
#[tactic(auto, unfolding(crate::specs::Classes::item_at))]
fn read_item(is_first: bool, text: &[u8]) -> Result<(Item, &[u8]), Fault>
    ensures read { Answers (λ x. (x.0, x.1.now)) result (item_at is_first text.now) }
    ensures shorter { IfOk result (λ x. length x.1.now < length text.now) }
{
    let [b, rest @ ..] = text else {
        return Err(class_stop_at(text));
    };
    if is_unsupported_in_class(text) {
        return Err(class_stop_at(text));
    }
    if is_plain(*b) {
        return read_range(text, Letter::Plain(*b), rest);
    }
    match *b {
        b'\\' => match read_escape(rest)? {
            (Item::One(letter), after) => read_range(text, letter, after),
            (item, after) => Ok((item, after)),
        },
        b'-' if is_first || begins_with(rest, b']') => Ok((Item::One(Letter::Plain(b'-')), rest)),
        b'-' => Err(class_stop_at(rest)),
        _ => Err(class_stop_at(text)),
    }
}

/// Reads the items of a class and the bracket that closes it.
fn read_items(alloc: Global, text: &[u8]) -> Result<(Vec<Item>, &[u8]), ReadError>
    ensures read { Gives (λ x. (x.0.items, x.1.now)) result (items_at text.now) }
    ensures shorter { IfOk result (λ x. length x.1.now ≤ length text.now) }
{
    let mut items = Vec::new(alloc);
    let mut rest = text;
    let mut is_first = true;
    while is_first || !begins_with(rest, b']') {
        let (item, after) = read_item(is_first, rest)?;
        items.push(item)?;
        rest = after;
        is_first = false;
    }
    Ok((items, behind(rest)))
}

/// Reads what stands behind the bracket that opens a class.
#[tactic(auto, unfolding(crate::specs::Classes::class_at))]
pub fn read_class(alloc: Global, text: &[u8]) -> Result<(CharTest, &[u8]), ReadError>
    ensures read { Gives (λ x. (test_shown x.0, x.1.now)) result (class_at text.now) }
    ensures shorter { IfOk result (λ x. length x.1.now ≤ length text.now) }
{
    let negated = begins_with(text, b'^');
    let body = if negated { behind(text) } else { text };
    let (items, rest) = read_items(alloc, body)?;
    Ok((CharTest::Class(negated, items), rest))
}
