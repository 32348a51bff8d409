ghost use Rattle.std.specs.Prelude.{◌≡◌, ◌+◌, ◌-◌, ◌<◌, ◌≤◌, ◌↔◌, max, [], ◌∷◌, length, take, reverse, OnOk, OnErr, IsTrue, slice_get, option_copied, vec_len, vec_capacity};
ghost use Rattle.al_record.specs.Histories.{newest, IsWithin};

use std::alloc::{AllocError, Global};
use std::marker::Model;

/// A list, newest first, that keeps at most as many items as its bound says, and all where it has none.
///
/// A bound of 0 keeps nothing; those that stand for `max-alarm-status-changes` of RFC 8632 begin at 1.
/// `spare` is for how many more items memory was reserved. Cutting a history moves what it keeps, so an `add` past the bound
/// takes time in proportion to the bound.
#[derive(Debug, Drop)]
pub struct History<E> {
    // oldest first, so that the newest comes at the end
    stored: Vec<E>,
    bound: Option<usize>,
    spare: usize,
}

impl<E> Model for History<E> {
    ghost use Rattle.std.specs.Prelude.{◌+◌, ◌≤◌, reverse, vec_len, vec_capacity};
    ghost use Rattle.al_record.specs.Histories.{HistoryView, IsWithin};

    ghost Value = { HistoryView E };

    ghost view = { λ h. record {
      items = reverse h.stored.items;
      bound = h.bound;
      spare = h.spare;
    } };

    ghost invariant = { λ h. IsWithin h.bound (vec_len h.stored)
        × (vec_len h.stored + h.spare ≤ vec_capacity h.stored) };
}

impl<E> History<E> {
    /// A history without items. It can't fail, whatever memory there is.
    pub fn new(alloc: Global, bound: Option<usize>) -> History<E>
        ensures items { result.items ≡ [] }
        ensures bound { result.bound ≡ bound }
        ensures spare { result.spare ≡ 0 }
    {
        History {
            stored: Vec::new(alloc),
            bound,
            spare: 0,
        }
    }

    /// How many items there are.
    pub fn len(&self) -> usize
        ensures len { result ≡ length self.now.items }
        ensures within { IsWithin self.now.bound result }
    {
        self.stored.len()
    }

    pub fn is_empty(&self) -> bool
        ensures { IsTrue result ↔ (self.now.items ≡ []) }
    {
        self.stored.is_empty()
    }

    /// The item at this place: the newest at 0, and none past the oldest.
    pub fn at(&self, i: usize) -> Option<&E>
        ensures { option_copied result ≡ slice_get self.now.items i }
    {
        let count = self.stored.len();
        if i < count {
            Some(&self.stored[count - 1 - i])
        } else {
            None
        }
    }

    /// Takes the memory that the next `add` needs, unless it is at hand already.
    pub fn reserve(&mut self) -> Result<(), AllocError>
        ensures items { self.new.items ≡ self.old.items }
        ensures bound { self.new.bound ≡ self.old.bound }
        ensures ok { OnOk result (self.new.spare ≡ max self.old.spare 1) }
        ensures err { OnErr result (self.new.spare ≡ self.old.spare) }
    {
        if self.spare == 0 {
            self.stored.reserve(1)?;
            self.spare = 1;
        }
        Ok(())
    }
}

impl<E: Drop> History<E> {
    /// Puts the item first, and lets go what is then past the bound. It can't fail, whatever memory there is.
    pub fn add(&mut self, e: E)
        requires { 0 < self.old.spare }
        ensures items { self.new.items ≡ newest self.old.bound (e ∷ self.old.items) }
        ensures bound { self.new.bound ≡ self.old.bound }
        ensures spare { self.new.spare ≡ self.old.spare - 1 }
    {
        self.stored.push_reserved(e);
        self.spare -= 1;
        keep_bound(&mut self.stored, self.bound);
    }

    /// Sets the bound, and lets go at once what is past it. What was reserved counts no longer.
    pub fn set_bound(&mut self, bound: Option<usize>)
        ensures items { self.new.items ≡ newest bound self.old.items }
        ensures bound { self.new.bound ≡ bound }
        ensures spare { self.new.spare ≡ 0 }
    {
        keep_bound(&mut self.stored, bound);
        self.bound = bound;
        self.spare = 0;
    }

    /// Keeps the newest item alone, and says whether any other was let go.
    pub fn compress(&mut self) -> bool
        ensures items { self.new.items ≡ take 1 self.old.items }
        ensures bound { self.new.bound ≡ self.old.bound }
        ensures spare { self.new.spare ≡ self.old.spare }
        ensures gone { IsTrue result ↔ (1 < length self.old.items) }
    {
        let gone = self.stored.len() > 1;
        keep_newest(&mut self.stored, 1);
        gone
    }
}

/// Lets go the oldest items of a list, oldest first, that the bound doesn't allow.
fn keep_bound<E: Drop>(stored: &mut Vec<E>, bound: Option<usize>)
    ensures items { reverse stored.new.items ≡ newest bound (reverse stored.old.items) }
    ensures within { IsWithin bound (vec_len stored.new) }
    ensures fewer { vec_len stored.new ≤ vec_len stored.old }
    ensures capacity { vec_capacity stored.new ≡ vec_capacity stored.old }
{
    if let Some(bound) = bound {
        keep_newest(stored, bound);
    }
}

/// Lets go the oldest items of a list, oldest first, until there are at most so many.
fn keep_newest<E: Drop>(stored: &mut Vec<E>, count: usize)
    ensures items { reverse stored.new.items ≡ take count (reverse stored.old.items) }
    ensures within { vec_len stored.new ≤ count }
    ensures fewer { vec_len stored.new ≤ vec_len stored.old }
    ensures capacity { vec_capacity stored.new ≡ vec_capacity stored.old }
{
    let excess = stored.len().saturating_sub(count);
    stored.drain(..excess);
}
