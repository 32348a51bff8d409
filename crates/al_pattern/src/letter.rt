//! Letters and the items of a class.

ghost use Rattle.std.specs.Prelude.{◌≡◌, ◌<◌, length, drop, IfOk};
ghost use Rattle.al_pattern.specs.Bytes.{is_printable, is_char, is_plain, is_escape, is_left_out, begins_with};
ghost use Rattle.al_pattern.specs.Faults.{Answers};
ghost use Rattle.al_pattern.specs.Letters.{value_of, escape_at, stop_at};

use crate::fault::{Fault, FaultKind};

/// A letter as it is written: a byte that stands for itself, or a backslash and a byte.
#[derive(Clone, Copy)]
pub enum Letter {
    Plain(u8),
    Escaped(u8),
}

/// An item of a class.
#[derive(Clone, Copy)]
pub enum Item {
    One(Letter),
    Range(Letter, Letter),
    Digit,
    Space,
}

const SPECIAL: [u8; 12] = *b".\\?*+()|[]{}";

const CLASS_SPECIAL: [u8; 4] = *b"[]\\-";

const ESCAPES: [u8; 17] = *b"nrt\\|.?*+(){}-[]^";

const LETTERS: [u8; 5] = *b"nrtds";

impl Letter {
    /// The character that the letter stands for.
    pub fn value(self) -> u8
        ensures { result ≡ value_of self }
    {
        match self {
            Letter::Plain(b) => b,
            Letter::Escaped(b'n') => b'\n',
            Letter::Escaped(b'r') => b'\r',
            Letter::Escaped(b't') => b'\t',
            Letter::Escaped(b) => b,
        }
    }
}

pub fn is_printable(b: u8) -> bool
    ensures { result ≡ is_printable b }
{
    b >= 0x20 && b <= 0x7e
}

#[tactic(auto, unfolding(crate::specs::Bytes::is_char))]
pub fn is_char(b: u8) -> bool
    ensures { result ≡ is_char b }
{
    is_printable(b) && !SPECIAL.contains(&b)
}

#[tactic(auto, unfolding(crate::specs::Bytes::is_plain))]
pub fn is_plain(b: u8) -> bool
    ensures { result ≡ is_plain b }
{
    is_printable(b) && !CLASS_SPECIAL.contains(&b)
}

#[tactic(auto, unfolding(crate::specs::Bytes::is_escape))]
pub fn is_escape(b: u8) -> bool
    ensures { result ≡ is_escape b }
{
    ESCAPES.contains(&b)
}

#[tactic(auto, unfolding(crate::specs::Bytes::is_left_out))]
pub fn is_left_out(b: u8) -> bool
    ensures { result ≡ is_left_out b }
{
    b.is_ascii_alphanumeric() && !LETTERS.contains(&b)
}

pub fn begins_with(text: &[u8], b: u8) -> bool
    ensures { result ≡ begins_with b text.now }
{
    text.first() == Some(&b)
}

/// Reads what stands behind a backslash.
#[tactic(auto, unfolding(crate::specs::Letters::escape_at))]
pub fn read_escape(text: &[u8]) -> Result<(Item, &[u8]), Fault>
    ensures read { Answers (λ x. (x.0, x.1.now)) result (escape_at text.now) }
    ensures shorter { IfOk result (λ x. length x.1.now < length text.now) }
{
    let Some((&b, rest)) = text.split_first() else {
        return Err(stop_at(text));
    };
    if is_escape(b) {
        return Ok((Item::One(Letter::Escaped(b)), rest));
    }
    match b {
        b'd' => Ok((Item::Digit, rest)),
        b's' => Ok((Item::Space, rest)),
        _ => Err(stop_at(text)),
    }
}

/// The fault where no pattern has the first byte of what is left, or where it ends.
pub fn stop_at(text: &[u8]) -> Fault
    ensures { result ≡ stop_at text.now }
{
    let kind = match text.first() {
        Some(&b) if !is_printable(b) => FaultKind::Unsupported,
        _ => FaultKind::Syntax,
    };
    Fault {
        kind,
        left: text.len(),
    }
}

/// What stands behind the first byte.
pub fn behind(text: &[u8]) -> &[u8]
    ensures { result.now ≡ drop 1 text.now }
{
    match text {
        [] => text,
        [_, rest @ ..] => rest,
    }
}
