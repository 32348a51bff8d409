ghost use Rattle.std.specs.Option.{option_copied, option_map};
ghost use Rattle.std.specs.Prelude.{◌≡◌, ◌+◌, ◌<◌, ◌^◌, ◌↔◌, IfOk, IsTrue, length, slice_get};
ghost use Rattle.al_model.specs.Alarms.{alarm_of};
ghost use Rattle.al_model.specs.Decision.{decision_of};
ghost use Rattle.al_model.specs.History.{Fits};
ghost use Rattle.al_model.specs.Limits.{IsEntryWithin};
ghost use Rattle.al_model.specs.State.{listed, shelved, start};
ghost use Rattle.al_model.specs.Summary.{has_shelved, summary_of};
ghost use Rattle.al_model.specs.Validity.{IsValid};
ghost use Rattle.al_lists.specs.Prepared.{IsPreparedFor};

use crate::decide::decide;
use crate::fits::fits;
use crate::prepare::prepare;
use crate::prepared::Prepared;
use crate::summary::{Summary, rows};
use al_base::Stamp;
use al_contents::{Alarm, Contents, if_at};
use al_ids::AlarmKey;
use al_model::{Decision, Entry, Request, Side};
use al_notify::{NoteLog, NotifyRule};
use al_shelf::Shelves;
use al_types::Inventory;
use std::alloc::{AllocError, Global};
use std::marker::Model;

/// What is known after a history, and for how much more memory is at hand.
#[derive(Debug, Drop)]
pub struct Tables {
    alloc: Global,
    contents: Contents,
}

impl Model for Tables {
    ghost use Rattle.al_model.specs.Validity.{IsValid};
    ghost use Rattle.al_contents.specs.Tables.{TablesView};

    ghost Value = { TablesView };

    ghost view = { λ t. t.contents };

    ghost invariant = { λ t. IsValid t.contents.state };
}

impl Tables {
    ghost use Rattle.al_lists.specs.Prepared.{IsReady, with_prepared};

    /// The tables before the first entry: no inventory, no shelves and no alarms, of which each will keep 32 status entries, and
    /// all status changes are told.
    pub fn new(alloc: Global) -> Result<Tables, AllocError>
        ensures { IfOk result (λ tables. tables.state ≡ start) }
    {
        let contents = Contents::new(alloc)?;
        Ok(Tables { alloc, contents })
    }

    /// The state is valid, whatever was done to it.
    pub fn state_is_valid(&self)
        ensures { IsValid self.now.state }
    {
        let _ = &self.contents;
    }

    /// The alarm of the key, None exactly where the list has none of it.
    pub fn alarm(&self, key: &AlarmKey) -> Option<&Alarm>
        ensures { option_map (λ v. v.state) (option_copied result)
            ≡ alarm_of key.now (listed self.now.state) }
    {
        if_at(self.contents.find(key), Side::List)
    }

    /// The alarm of the key, None exactly where no shelf has one of it.
    pub fn shelved(&self, key: &AlarmKey) -> Option<&Alarm>
        ensures { option_map (λ v. v.state) (option_copied result)
            ≡ alarm_of key.now (shelved self.now.state) }
    {
        if_at(self.contents.find(key), Side::Shelf)
    }

    /// The alarm at this place of the list, in the order of keys.
    pub fn alarm_at(&self, i: usize) -> Option<&Alarm>
        ensures { option_map (λ v. v.state) (option_copied result)
            ≡ slice_get (listed self.now.state) i }
    {
        self.contents.listed_at(i)
    }

    /// The alarm at this place among those on shelves, in the order of keys.
    pub fn shelved_at(&self, i: usize) -> Option<&Alarm>
        ensures { option_map (λ v. v.state) (option_copied result)
            ≡ slice_get (shelved self.now.state) i }
    {
        self.contents.shelved_at(i)
    }

    /// How many alarms the list has (RFC 8632, `number-of-alarms`).
    pub fn alarms(&self) -> usize
        ensures { result ≡ length (listed self.now.state) }
    {
        self.contents.listed_count()
    }

    /// How many alarms are on shelves (RFC 8632, `number-of-shelved-alarms`).
    pub fn shelved_count(&self) -> usize
        ensures { result ≡ length (shelved self.now.state) }
    {
        self.contents.shelved_count()
    }

    /// How many status entries an alarm keeps, or all of them (RFC 8632, `max-alarm-status-changes`).
    pub fn max(&self) -> Option<u16>
        ensures { result ≡ self.now.state.max }
    {
        self.contents.max()
    }

    /// Which status changes are told.
    pub fn rule(&self) -> &NotifyRule
        ensures { result.now ≡ self.now.state.rule }
    {
        self.contents.rule()
    }

    /// The shelves in their order.
    pub fn shelves(&self) -> &Shelves
        ensures { result.now.shelves ≡ self.now.state.shelves }
    {
        self.contents.shelves()
    }

    /// What alarms the device may raise, once that is declared.
    pub fn inventory(&self) -> Option<&Inventory>
        ensures { option_copied result ≡ self.now.state.inventory }
    {
        self.contents.inventory()
    }

    /// The notifications that were sent.
    pub fn log(&self) -> &NoteLog
        ensures { result.now ≡ self.now.state.log }
    {
        self.contents.log()
    }

    /// When the alarms of the list last changed in anything (RFC 8632, `last-changed` of the list).
    pub fn list_changed(&self) -> Option<Stamp>
        ensures { result ≡ self.now.state.list_time }
    {
        self.contents.list_changed()
    }

    /// When the alarms on shelves last changed in anything (RFC 8632, `shelved-alarms-last-changed`).
    pub fn shelf_changed(&self) -> Option<Stamp>
        ensures { result ≡ self.now.state.shelf_time }
    {
        self.contents.shelf_changed()
    }

    /// The time of the last entry, and before the first one the moment that all stamps count from.
    pub fn time(&self) -> Stamp
        ensures { result ≡ self.now.state.time }
    {
        self.contents.time()
    }

    /// How many alarms the list has, by severity and by what became of them, and whether any alarm is on a shelf.
    pub fn summary(&self) -> Summary
        ensures rows { result.rows ≡ summary_of self.now.state }
        ensures shelves { result.shelves_active ≡ has_shelved self.now.state }
    {
        Summary {
            rows: rows(&self.contents),
            shelves_active: self.contents.shelved_count() > 0,
        }
    }

    /// What is to become of a request at a reading of the clock. It can't fail: the event of a change has what the request has.
    pub fn decide(&self, request: Request, now: Stamp) -> Decision
        ensures { result ≡ decision_of self.now.state request now }
    {
        decide(&self.contents, request, now)
    }

    /// Whether the entry may come next. It can't fail, whatever memory there is.
    pub fn fits(&self, entry: &Entry) -> bool
        requires { IsEntryWithin entry.now }
        ensures { IsTrue result ↔ Fits self.now.state entry.now }
    {
        fits(&self.contents, entry)
    }

    // ---- changes

    /// Takes the memory for all that an entry does, so that it can be carried out without any. Till then the state stays, also
    /// where there is no memory.
    pub fn prepare(&mut self, entry: &Entry) -> Result<Prepared, AllocError>
        requires fits { Fits self.old.state entry.now }
        // A note of it gets a number.
        requires number { self.old.state.log.sent + 1 < 2 ^ 32 }
        ensures state { self.new.state ≡ self.old.state }
        ensures ok { IfOk result (IsPreparedFor self.new entry.now) }
    {
        prepare(self.alloc, &mut self.contents, entry)
    }

    /// Carries out the change that was prepared. It can't fail.
    pub fn apply(&mut self, prepared: Prepared)
        requires { IsReady self.old prepared }
        ensures { self.new.state ≡ with_prepared self.old.state prepared }
    {
        let Prepared {
            time,
            change,
            note,
            list,
            shelf,
        } = prepared;
        self.contents.carry(time, change);
        self.contents.conclude(time, note, list, shelf);
    }
}
