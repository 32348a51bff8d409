//! Objects of one member, which aren't there where the member says nothing.

ghost use Rattle.al_fields.specs.Lengths.{saturated};
ghost use Rattle.al_fields.specs.Members.{object_of, whole};
ghost use Rattle.al_fields.specs.Texts.{single_text, text_of};
ghost use Rattle.serde_json.specs.View.{view};
ghost use Rattle.serde_json.specs.Written.{compact_text};
ghost use Rattle.std.specs.Prelude.{◌≡◌, ◌+◌, ◌++◌, ◌≤◌, ◌∷◌, [], IfOk, Some, length, option_map, vec_capacity, vec_len};

use crate::object::{member_len, put_member};
use crate::shown::Shown;
use crate::writer::put_byte;
use serde_json::{Map, Value};
use std::alloc::{AllocError, Global};

/// The object with what stands under the name, if anything does.
pub fn whole_value<P: Shown>(
    alloc: Global,
    name: &str,
    piece: &P,
) -> Result<Option<Value>, AllocError>
    ensures { IfOk result (λ value. option_map view value ≡ whole name.now (P.said piece.now)) }
{
    match piece.value(alloc)? {
        Some(value) => Ok(Some(single(alloc, name, value)?)),
        None => Ok(None),
    }
}

fn single(alloc: Global, name: &str, value: Value) -> Result<Value, AllocError>
    ensures { IfOk result (λ object. view object ≡ object_of ((name.now, Some (view value)) ∷ [])) }
{
    let mut members = Map::new(alloc);
    serde_json::put(&mut members, alloc, name, value)?;
    Ok(Value::Object(members))
}

/// Writes the text of that object, if there is one. It can't fail, whatever memory there is.
#[tactic(auto, using(crate::proofs::Steps::whole_text, crate::proofs::Steps::whole_absent))]
pub fn put_whole<P: Shown>(out: &mut Vec<u8>, name: &str, piece: &P)
    requires { vec_len out.old + length (text_of (whole name.now (P.said piece.now)))
        ≤ vec_capacity out.old }
    ensures items { out.new.items ≡ out.old.items ++ text_of (whole name.now (P.said piece.now)) }
    ensures len { vec_len out.new
        ≡ vec_len out.old + length (text_of (whole name.now (P.said piece.now))) }
    ensures room { vec_capacity out.old ≤ vec_capacity out.new }
{
    if piece.is_there() {
        put_single(out, name, piece);
    }
}

fn put_single<P: Shown>(out: &mut Vec<u8>, name: &str, piece: &P)
    requires { vec_len out.old + length (single_text name.now (text_of (P.said piece.now)))
        ≤ vec_capacity out.old }
    ensures items { out.new.items
        ≡ out.old.items ++ single_text name.now (text_of (P.said piece.now)) }
    ensures len { vec_len out.new
        ≡ vec_len out.old + length (single_text name.now (text_of (P.said piece.now))) }
    ensures room { vec_capacity out.old ≤ vec_capacity out.new }
{
    put_byte(out, b'{');
    put_member(out, false, name, piece);
    put_byte(out, b'}');
}

/// How long that text is, or the greatest number where it is longer.
#[tactic(auto, using(crate::proofs::Steps::whole_long, crate::proofs::Steps::whole_absent))]
pub fn whole_len<P: Shown>(name: &str, piece: &P) -> Option<u64>
    ensures { result ≡ option_map (λ d.
        saturated (length (compact_text d))) (whole name.now (P.said piece.now)) }
{
    if piece.is_there() {
        Some(single_len(name, piece))
    } else {
        None
    }
}

fn single_len<P: Shown>(name: &str, piece: &P) -> u64
    ensures { result ≡ saturated (length (single_text name.now (text_of (P.said piece.now)))) }
{
    member_len(false, name, piece).saturating_add(2)
}
