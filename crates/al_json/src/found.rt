//! What a key or a name finds.

ghost use Rattle.al_model.specs.Validity.{IsMarked};
ghost use Rattle.std.specs.Option.{ForSome, option_to_list};
ghost use Rattle.std.specs.Prelude.{◌≡◌, IfSome, option_copied, slice_get};

use crate::alarm::alarm_object;
use crate::shelf::shelf_object;
use al_fields::{Series, Shown};
use al_lists::{Alarm, Tables};
use al_model::Side;
use al_shelf::Shelf;
use serde_json::Value;
use std::alloc::{AllocError, Global};

/// An alarm of a side, if there is one.
pub struct FoundAlarm<'a> {
    pub(crate) tables: &'a Tables,
    pub(crate) side: Side,
    pub(crate) alarm: Option<&'a Alarm>,
    ghost marked: { ForSome alarm (λ a. IsMarked tables.now.state a.now.state) },
}

impl Clone for FoundAlarm<'_> {
    fn clone(&self) -> Result<Self, AllocError> {
        Ok(*self)
    }
}

impl Copy for FoundAlarm<'_> {}

impl<'a> FoundAlarm<'a> {
    fn at(&self, i: usize) -> Option<&'a Alarm>
        ensures alarm { option_copied result
            ≡ slice_get (option_to_list (option_copied self.now.alarm)) i }
        ensures marked { IfSome result (λ a. IsMarked self.now.tables.now.state a.now.state) }
    {
        if i == 0 { self.alarm } else { None }
    }
}

impl<'a> Series for FoundAlarm<'a> {
    ghost use Rattle.al_json.specs.Alarms.{alarm_tree};
    ghost use Rattle.std.specs.Option.{option_copied, option_to_list};
    ghost use Rattle.std.specs.Prelude.{map};

    ghost trees = { λ s. map (λ view.
        alarm_tree s.tables.now.state s.side view.state) (option_to_list (option_copied s.alarm)) };

    fn count(&self) -> usize {
        usize::from(self.alarm.is_some())
    }

    fn value_at(&self, alloc: Global, i: usize) -> Result<Option<Value>, AllocError> {
        match self.at(i) {
            Some(found) => alarm_object(self.tables, self.side, found).value(alloc),
            None => Ok(None),
        }
    }

    fn put_at(&self, out: &mut Vec<u8>, i: usize) {
        if let Some(found) = self.at(i) {
            alarm_object(self.tables, self.side, found).put(out);
        }
    }

    fn len_at(&self, i: usize) -> u64 {
        match self.at(i) {
            Some(found) => alarm_object(self.tables, self.side, found).text_len(),
            None => 0,
        }
    }
}

/// A shelf, if there is one.
#[derive(Clone, Copy)]
pub struct FoundShelf<'a>(pub(crate) Option<&'a Shelf>);

impl<'a> FoundShelf<'a> {
    fn at(&self, i: usize) -> Option<&'a Shelf>
        ensures { option_copied result ≡ slice_get (option_to_list (option_copied self.now.0)) i }
    {
        if i == 0 { self.0 } else { None }
    }
}

impl<'a> Series for FoundShelf<'a> {
    ghost use Rattle.al_json.specs.Shelves.{shelf_tree};
    ghost use Rattle.std.specs.Option.{option_to_list};
    ghost use Rattle.std.specs.Prelude.{map, option_copied};

    ghost trees = { λ s. map shelf_tree (option_to_list (option_copied s.0)) };

    fn count(&self) -> usize {
        usize::from(self.0.is_some())
    }

    fn value_at(&self, alloc: Global, i: usize) -> Result<Option<Value>, AllocError> {
        match self.at(i) {
            Some(found) => shelf_object(found).value(alloc),
            None => Ok(None),
        }
    }

    fn put_at(&self, out: &mut Vec<u8>, i: usize) {
        if let Some(found) = self.at(i) {
            shelf_object(found).put(out);
        }
    }

    fn len_at(&self, i: usize) -> u64 {
        match self.at(i) {
            Some(found) => shelf_object(found).text_len(),
            None => 0,
        }
    }
}
