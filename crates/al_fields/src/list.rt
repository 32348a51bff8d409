ghost use Rattle.al_fields.specs.Lengths.{saturated};
ghost use Rattle.al_fields.specs.Members.{list_of};
ghost use Rattle.al_fields.specs.Texts.{item_text, text_of};
ghost use Rattle.serde_json.specs.View.{items_of, items_view, view};
ghost use Rattle.serde_json.specs.Written.{items_text};
ghost use Rattle.std.specs.Prelude.{◌≡◌, ◌+◌, ◌++◌, ◌<◌, ◌≤◌, ◌∷◌, IfOk, Some, false, length, map, option_map, slice_get, vec_capacity, vec_len};

use crate::shown::Shown;
use crate::writer::{put_byte, put_comma};
use serde_json::Value;
use std::alloc::{AllocError, Global};

/// What stands one after the other, each found by its place, which is counted from 0.
pub trait Series: Drop {
    ghost use Rattle.serde_json.specs.Data.{Data};
    ghost use Rattle.std.specs.Prelude.{List};

    // what the elements say
    ghost trees: { Self → List Data };

    fn count(&self) -> usize
        ensures { result ≡ length (trees self.now) };

    /// The element as a value, None past the last one.
    fn value_at(&self, alloc: Global, i: usize) -> Result<Option<Value>, AllocError>
        ensures { IfOk result (λ value. option_map view value ≡ slice_get (trees self.now) i) };

    /// Writes the element's compact text. It can't fail, whatever memory there is.
    fn put_at(&self, out: &mut Vec<u8>, i: usize)
        requires { vec_len out.old + length (text_of (slice_get (trees self.now) i))
            ≤ vec_capacity out.old }
        ensures items { out.new.items ≡ out.old.items ++ text_of (slice_get (trees self.now) i) }
        ensures len { vec_len out.new
            ≡ vec_len out.old + length (text_of (slice_get (trees self.now) i)) }
        ensures room { vec_capacity out.old ≤ vec_capacity out.new };

    /// How long that text is, or the greatest number where it is longer.
    fn len_at(&self, i: usize) -> u64
        ensures { result ≡ saturated (length (text_of (slice_get (trees self.now) i))) };
}

/// A list of these elements, left out where there are none.
#[derive(Clone, Copy)]
pub struct Items<S>(pub S);

impl<S: Series> Shown for Items<S> {
    ghost use Rattle.al_fields.specs.Members.{list_of};

    ghost said = { λ items. list_of (S.trees items.0) };

    fn is_there(&self) -> bool {
        self.0.count() > 0
    }

    fn value(&self, alloc: Global) -> Result<Option<Value>, AllocError> {
        if self.0.count() == 0 {
            return Ok(None);
        }
        Ok(Some(Value::Array(values(alloc, &self.0)?)))
    }

    fn put(&self, out: &mut Vec<u8>) {
        if self.0.count() > 0 {
            put_items(out, &self.0);
        }
    }

    fn text_len(&self) -> u64 {
        if self.0.count() == 0 {
            return 0;
        }
        items_len(&self.0)
    }
}

#[tactic(auto, using(crate::proofs::Steps::next_at))]
fn values<S: Series>(alloc: Global, series: &S) -> Result<Vec<Value>, AllocError>
    ensures { IfOk result (λ values. map view values.items ≡ S.trees series.now) }
{
    let count = series.count();
    let mut values = Vec::with_capacity(alloc, count)?;
    for i in 0..count {
        let value = value_at(alloc, series, i)?;
        values.push(value)?;
    }
    Ok(values)
}

fn value_at<S: Series>(alloc: Global, series: &S, i: usize) -> Result<Value, AllocError>
    requires { i < length (S.trees series.now) }
    ensures { IfOk result (λ value. Some (view value) ≡ slice_get (S.trees series.now) i) }
{
    match series.value_at(alloc, i)? {
        Some(value) => Ok(value),
        None => unreachable!(),
    }
}

fn put_items<S: Series>(out: &mut Vec<u8>, series: &S)
    requires { vec_len out.old + 1 + length (items_text false (items_of (S.trees series.now)))
        ≤ vec_capacity out.old }
    ensures items { out.new.items
        ≡ out.old.items ++ 91 ∷ items_text false (items_of (S.trees series.now)) }
    ensures len { vec_len out.new
        ≡ vec_len out.old + 1 + length (items_text false (items_of (S.trees series.now))) }
    ensures room { vec_capacity out.old ≤ vec_capacity out.new }
{
    put_byte(out, b'[');
    for i in 0..series.count() {
        put_item(out, series, i);
    }
    put_byte(out, b']');
}

/// Writes the element at this place, behind a comma where it isn't the first.
fn put_item<S: Series>(out: &mut Vec<u8>, series: &S, i: usize)
    requires within { i < length (S.trees series.now) }
    requires room { vec_len out.old + length (item_text (S.trees series.now) i)
        ≤ vec_capacity out.old }
    ensures items { out.new.items ≡ out.old.items ++ item_text (S.trees series.now) i }
    ensures len { vec_len out.new ≡ vec_len out.old + length (item_text (S.trees series.now) i) }
    ensures room { vec_capacity out.old ≤ vec_capacity out.new }
{
    put_comma(out, i > 0);
    series.put_at(out, i);
}

fn items_len<S: Series>(series: &S) -> u64
    ensures { result ≡ saturated (1 + length (items_text false (items_of (S.trees series.now)))) }
{
    let mut total: u64 = 1;
    for i in 0..series.count() {
        total = total.saturating_add(item_len(series, i));
    }
    total.saturating_add(1)
}

fn item_len<S: Series>(series: &S, i: usize) -> u64
    requires { i < length (S.trees series.now) }
    ensures { result ≡ saturated (length (item_text (S.trees series.now) i)) }
{
    u64::from(i > 0).saturating_add(series.len_at(i))
}
