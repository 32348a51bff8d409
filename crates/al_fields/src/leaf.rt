ghost use Rattle.al_base.specs.Times.{stamp_text};
ghost use Rattle.al_fields.specs.Leaves.{leaf_data};
ghost use Rattle.serde_json.specs.Data.{array, item, no_items, null, string};
ghost use Rattle.serde_json.specs.View.{view};
ghost use Rattle.std.specs.Prelude.{◌≡◌, IfOk, option_copied, option_map};

use crate::length::{number_len, quoted_len, time_len};
use crate::shown::Shown;
use crate::writer::{put_bytes, put_number, put_quoted, put_time};
use al_base::{Stamp, Text};
use serde_json::Value;
use std::alloc::{AllocError, Global};
use std::str;

/// What a member without members of its own says.
#[derive(Clone, Copy)]
pub enum Leaf<'a> {
    /// Nothing: the member is left out.
    Absent,
    Text(&'a Text),
    Word(&'a str),
    Flag(bool),
    Number(u64),
    Time(Stamp),
    /// YANG's `empty` (RFC 7951, section 6.9).
    Empty,
}

impl Shown for Leaf<'_> {
    ghost use Rattle.al_fields.specs.Leaves.{leaf_data};

    ghost said = { leaf_data };

    fn is_there(&self) -> bool {
        !matches!(self, Leaf::Absent)
    }

    fn value(&self, alloc: Global) -> Result<Option<Value>, AllocError> {
        match self {
            Leaf::Absent => Ok(None),
            Leaf::Text(text) => Ok(Some(Value::try_from_str(alloc, text.as_str())?)),
            Leaf::Word(word) => Ok(Some(Value::try_from_str(alloc, word)?)),
            Leaf::Flag(flag) => Ok(Some(Value::Bool(*flag))),
            Leaf::Number(n) => Ok(Some(Value::from(*n))),
            Leaf::Time(time) => Ok(Some(time_value(alloc, *time)?)),
            Leaf::Empty => Ok(Some(empty_value(alloc)?)),
        }
    }

    fn put(&self, out: &mut Vec<u8>) {
        match self {
            Leaf::Absent => {}
            Leaf::Text(text) => put_quoted(out, text.bytes()),
            Leaf::Word(word) => put_quoted(out, word.as_bytes()),
            Leaf::Flag(true) => put_bytes(out, b"true"),
            Leaf::Flag(false) => put_bytes(out, b"false"),
            Leaf::Number(n) => put_number(out, *n),
            Leaf::Time(time) => put_time(out, *time),
            Leaf::Empty => put_bytes(out, b"[null]"),
        }
    }

    fn text_len(&self) -> u64 {
        match self {
            Leaf::Absent => 0,
            Leaf::Text(text) => quoted_len(text.bytes()),
            Leaf::Word(word) => quoted_len(word.as_bytes()),
            Leaf::Flag(true) => 4,
            Leaf::Flag(false) => 5,
            Leaf::Number(n) => number_len(*n),
            Leaf::Time(time) => time_len(*time),
            Leaf::Empty => 6,
        }
    }
}

impl<'a> Leaf<'a> {
    /// The text, if there is one.
    pub fn of_text(text: Option<&'a Text>) -> Leaf<'a>
        ensures { leaf_data result ≡ option_map string (option_copied text.entry) }
    {
        match text {
            Some(text) => Leaf::Text(text),
            None => Leaf::Absent,
        }
    }

    /// The time, if there is one.
    pub fn of_time(time: Option<Stamp>) -> Leaf<'a>
        ensures { leaf_data result ≡ option_map (λ ms. string (stamp_text ms)) time }
    {
        match time {
            Some(time) => Leaf::Time(time),
            None => Leaf::Absent,
        }
    }
}

fn time_value(alloc: Global, time: Stamp) -> Result<Value, AllocError>
    ensures { IfOk result (λ value. view value ≡ string (stamp_text time)) }
{
    let mut text = [0; 24];
    time.print(&mut text);
    match str::from_utf8(text.as_slice()) {
        Ok(text) => Value::try_from_str(alloc, text),
        Err(_) => unreachable!(),
    }
}

fn empty_value(alloc: Global) -> Result<Value, AllocError>
    ensures { IfOk result (λ value. view value ≡ array (item null no_items)) }
{
    let mut items = Vec::new(alloc);
    items.push(Value::Null)?;
    Ok(Value::Array(items))
}
