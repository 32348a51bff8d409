ghost use Rattle.al_fields.specs.Lengths.{saturated};
ghost use Rattle.al_fields.specs.Members.{AreRising, fields_by, members_with, object_of, with_member};
ghost use Rattle.al_fields.specs.Texts.{braced, member_text, run_text, some_text, text_of};
ghost use Rattle.serde_json.specs.View.{members_view, view};
ghost use Rattle.serde_json.specs.Written.{compact_text};
ghost use Rattle.std.specs.Prelude.{◌≡◌, ◌+◌, ◌++◌, ◌≤◌, ◌||◌, IfOk, OnOk, [], false, is_some, length, map, vec_capacity, vec_len};

use crate::field::Field;
use crate::length::quoted_len;
use crate::shown::Shown;
use crate::writer::{put_byte, put_comma, put_quoted};
use serde_json::{Map, Value};
use std::alloc::{AllocError, Global};

/// The fields of an object.
pub trait Table: Drop {
    ghost use Rattle.al_fields.specs.Members.{fields_by};
    ghost use Rattle.serde_json.specs.Data.{Data};
    ghost use Rattle.std.specs.Prelude.{List, Option, ℕ};

    type Piece: Shown;

    // the names, and what stands under each
    ghost fields: { Self → List (List ℕ × Option Data) };

    fn as_fields(&self) -> &[Field<Self::Piece>]
        ensures { fields_by Self.Piece.said result.now ≡ fields self.now };
}

/// An object of these fields, which stand in the order of their names' bytes.
#[derive(Drop)]
pub struct Object<T: Table> {
    pub table: T,
    ghost rising: { AreRising (T.fields table) },
}

impl<T: Table> Shown for Object<T> {
    ghost use Rattle.al_fields.specs.Members.{object_of};
    ghost use Rattle.std.specs.Prelude.{Some};

    ghost said = { λ object. Some (object_of (T.fields object.table)) };

    fn is_there(&self) -> bool {
        true
    }

    fn value(&self, alloc: Global) -> Result<Option<Value>, AllocError> {
        Ok(Some(object_value(alloc, self.table.as_fields())?))
    }

    fn put(&self, out: &mut Vec<u8>) {
        put_object(out, self.table.as_fields());
    }

    fn text_len(&self) -> u64 {
        object_len(self.table.as_fields())
    }
}

/// The object of the fields.
fn object_value<P: Shown>(alloc: Global, fields: &[Field<P>]) -> Result<Value, AllocError>
    ensures { IfOk result (λ value. view value ≡ object_of (fields_by P.said fields.now)) }
{
    let mut members = Map::new(alloc);
    add_fields(&mut members, alloc, fields)?;
    Ok(Value::Object(members))
}

/// Writes the text of the fields' object. It can't fail, whatever memory there is.
#[tactic(auto, using(crate::proofs::ObjectTexts::object_text))]
fn put_object<P: Shown>(out: &mut Vec<u8>, fields: &[Field<P>])
    requires rising { AreRising (fields_by P.said fields.now) }
    requires room { vec_len out.old
        + length (compact_text (object_of (fields_by P.said fields.now))) ≤ vec_capacity out.old }
    ensures items { out.new.items
        ≡ out.old.items ++ compact_text (object_of (fields_by P.said fields.now)) }
    ensures len { vec_len out.new
        ≡ vec_len out.old + length (compact_text (object_of (fields_by P.said fields.now))) }
    ensures room { vec_capacity out.old ≤ vec_capacity out.new }
{
    put_braced(out, fields);
}

/// How long that text is, or the greatest number where it is longer.
#[tactic(auto, using(crate::proofs::ObjectTexts::object_text))]
fn object_len<P: Shown>(fields: &[Field<P>]) -> u64
    requires { AreRising (fields_by P.said fields.now) }
    ensures { result ≡ saturated (length (compact_text (object_of (fields_by P.said fields.now)))) }
{
    braced_len(fields)
}

/// Adds what each field says to the members.
fn add_fields<P: Shown>(
    members: &mut Map<String, Value>,
    alloc: Global,
    fields: &[Field<P>],
) -> Result<(), AllocError>
    ensures { OnOk result (members_view members.new.entries
        ≡ members_with (members_view members.old.entries) (fields_by P.said fields.now)) }
{
    for field in fields {
        add_field(members, alloc, field)?;
    }
    Ok(())
}

fn add_field<P: Shown>(
    members: &mut Map<String, Value>,
    alloc: Global,
    field: &Field<P>,
) -> Result<(), AllocError>
    ensures { OnOk result (members_view members.new.entries
        ≡ with_member field.now.name.now (P.said field.now.piece)
        (members_view members.old.entries)) }
{
    match field.piece.value(alloc)? {
        Some(value) => serde_json::put(members, alloc, field.name, value),
        None => Ok(()),
    }
}

/// Writes the fields between braces.
fn put_braced<P: Shown>(out: &mut Vec<u8>, fields: &[Field<P>])
    requires { vec_len out.old + length (braced (fields_by P.said fields.now))
        ≤ vec_capacity out.old }
    ensures items { out.new.items ≡ out.old.items ++ braced (fields_by P.said fields.now) }
    ensures len { vec_len out.new
        ≡ vec_len out.old + length (braced (fields_by P.said fields.now)) }
    ensures room { vec_capacity out.old ≤ vec_capacity out.new }
{
    put_byte(out, b'{');
    put_fields(out, fields);
    put_byte(out, b'}');
}

fn put_fields<P: Shown>(out: &mut Vec<u8>, fields: &[Field<P>])
    requires { vec_len out.old + length (run_text false (fields_by P.said fields.now))
        ≤ vec_capacity out.old }
    ensures items { out.new.items ≡ out.old.items ++ run_text false (fields_by P.said fields.now) }
    ensures len { vec_len out.new
        ≡ vec_len out.old + length (run_text false (fields_by P.said fields.now)) }
    ensures room { vec_capacity out.old ≤ vec_capacity out.new }
{
    let mut later = false;
    for field in fields {
        later = put_field(out, later, field);
    }
}

/// Writes the field, if it says anything, and tells whether anything stands before the next one.
#[tactic(auto, using(crate::proofs::Steps::some_there, crate::proofs::Steps::some_absent))]
fn put_field<P: Shown>(out: &mut Vec<u8>, later: bool, field: &Field<P>) -> bool
    requires { vec_len out.old
        + length (some_text later field.now.name.now (P.said field.now.piece))
        ≤ vec_capacity out.old }
    ensures items { out.new.items
        ≡ out.old.items ++ some_text later field.now.name.now (P.said field.now.piece) }
    ensures len { vec_len out.new
        ≡ vec_len out.old + length (some_text later field.now.name.now (P.said field.now.piece)) }
    ensures room { vec_capacity out.old ≤ vec_capacity out.new }
    ensures later { result ≡ (is_some (P.said field.now.piece) || later) }
{
    if !field.piece.is_there() {
        return later;
    }
    put_member(out, later, field.name, &field.piece);
    true
}

#[tactic(auto, unfolding(crate::specs::Texts::member_text))]
pub(crate) fn put_member<P: Shown>(out: &mut Vec<u8>, later: bool, name: &str, piece: &P)
    requires { vec_len out.old + length (member_text later name.now (text_of (P.said piece.now)))
        ≤ vec_capacity out.old }
    ensures items { out.new.items
        ≡ out.old.items ++ member_text later name.now (text_of (P.said piece.now)) }
    ensures len { vec_len out.new
        ≡ vec_len out.old + length (member_text later name.now (text_of (P.said piece.now))) }
    ensures room { vec_capacity out.old ≤ vec_capacity out.new }
{
    put_comma(out, later);
    put_quoted(out, name.as_bytes());
    put_byte(out, b':');
    piece.put(out);
}

fn braced_len<P: Shown>(fields: &[Field<P>]) -> u64
    ensures { result ≡ saturated (length (braced (fields_by P.said fields.now))) }
{
    let mut total: u64 = 2;
    let mut later = false;
    for field in fields {
        total = total.saturating_add(field_len(later, field));
        later = field.piece.is_there() || later;
    }
    total
}

#[tactic(auto, using(crate::proofs::Steps::some_there, crate::proofs::Steps::some_absent))]
fn field_len<P: Shown>(later: bool, field: &Field<P>) -> u64
    ensures { result ≡ saturated
        (length (some_text later field.now.name.now (P.said field.now.piece))) }
{
    if field.piece.is_there() {
        member_len(later, field.name, &field.piece)
    } else {
        0
    }
}

#[tactic(auto, unfolding(crate::specs::Texts::member_text))]
pub(crate) fn member_len<P: Shown>(later: bool, name: &str, piece: &P) -> u64
    ensures { result ≡ saturated
        (length (member_text later name.now (text_of (P.said piece.now)))) }
{
    let before = quoted_len(name.as_bytes()).saturating_add(1);
    before
        .saturating_add(u64::from(later))
        .saturating_add(piece.text_len())
}

/// Fields, each `name: piece`.
#[macro_export]
macro_rules! fields {
    ($($name:literal: $piece:expr),* $(,)?) => {
        [$($crate::Field { name: $name, piece: $piece }),*]
    };
}

/// An object of fields, each `name: piece`, in the order of their names' bytes.
#[macro_export]
macro_rules! object {
    ($($name:literal: $piece:expr),* $(,)?) => {
        $crate::Object { table: [$($crate::Field { name: $name, piece: $piece }),*] }
    };
}
