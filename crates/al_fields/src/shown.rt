ghost use Rattle.al_fields.specs.Lengths.{saturated};
ghost use Rattle.al_fields.specs.Texts.{text_of};
ghost use Rattle.serde_json.specs.View.{view};
ghost use Rattle.std.specs.Prelude.{◌≡◌, ◌+◌, ◌++◌, ◌≤◌, IfOk, is_some, length, option_map, vec_capacity, vec_len};

use crate::length::number_len;
use crate::writer::put_number;
use serde_json::Value;
use std::alloc::{AllocError, Global};

/// What is shown as a JSON value, or left out.
pub trait Shown: Drop {
    ghost use Rattle.serde_json.specs.Data.{Data};
    ghost use Rattle.std.specs.Prelude.{Option};

    // what it says, if anything
    ghost said: { Self → Option Data };

    /// Whether it says anything.
    fn is_there(&self) -> bool
        ensures { result ≡ is_some (said self.now) };

    /// The value itself, which owns its text.
    fn value(&self, alloc: Global) -> Result<Option<Value>, AllocError>
        ensures { IfOk result (λ value. option_map view value ≡ said self.now) };

    /// Writes the value's compact text behind what is there. It can't fail, whatever memory there is.
    fn put(&self, out: &mut Vec<u8>)
        requires { vec_len out.old + length (text_of (said self.now)) ≤ vec_capacity out.old }
        ensures items { out.new.items ≡ out.old.items ++ text_of (said self.now) }
        ensures len { vec_len out.new ≡ vec_len out.old + length (text_of (said self.now)) }
        ensures room { vec_capacity out.old ≤ vec_capacity out.new };

    /// How long that text is, or the greatest number where it is longer.
    fn text_len(&self) -> u64
        ensures { result ≡ saturated (length (text_of (said self.now))) };
}

impl Shown for u64 {
    ghost use Rattle.serde_json.specs.Data.{number, unsigned};
    ghost use Rattle.std.specs.Prelude.{Some};

    ghost said = { λ n. Some (number (unsigned n)) };

    fn is_there(&self) -> bool {
        true
    }

    fn value(&self, _alloc: Global) -> Result<Option<Value>, AllocError> {
        Ok(Some(Value::from(*self)))
    }

    fn put(&self, out: &mut Vec<u8>) {
        put_number(out, *self);
    }

    fn text_len(&self) -> u64 {
        number_len(*self)
    }
}

/// What is shown as it is. An enum is held so where a function keeps it in a variable, since its parts would have to be named there.
#[derive(Clone, Copy)]
pub struct Held<P>(pub P);

impl<P: Shown> Shown for Held<P> {
    ghost said = { λ held. P.said held.0 };

    fn is_there(&self) -> bool {
        self.0.is_there()
    }

    fn value(&self, alloc: Global) -> Result<Option<Value>, AllocError> {
        self.0.value(alloc)
    }

    fn put(&self, out: &mut Vec<u8>) {
        self.0.put(out);
    }

    fn text_len(&self) -> u64 {
        self.0.text_len()
    }
}
