ghost use Rattle.std.specs.List.{insert};
ghost use Rattle.std.specs.Option.{option_copied, option_map};
ghost use Rattle.std.specs.Prelude.{◌≡◌, ◌+◌, ◌<◌, ◌≤◌, ◌^◌, IfOk, IfSome, None, OnOk, Some, filter as kept, length, map, not, slice_get, vec_capacity, vec_len};
ghost use Rattle.al_model.specs.Alarms.{alarm_of, bounded, reported, with_operator};
ghost use Rattle.al_model.specs.State.{start};
ghost use Rattle.al_model.specs.Step.{built, log_after, time_of_change};
ghost use Rattle.al_model.specs.Validity.{IsInOrder};
ghost use Rattle.al_contents.specs.Edits.{HasAlarm, HaveRoom, IsListedAt, after_moves, at_place};
ghost use Rattle.al_contents.specs.Positions.{IsPositionOf};
ghost use Rattle.al_contents.specs.Views.{compressed, goes, is_marked, is_unmarked, marked, states};

use crate::alarm::Alarm;
use crate::change::Change;
use crate::edits::{
    apply_moves, compress, operate_at, purge, report_at, reserve_moves, reserve_operator_at,
    reserve_status_at, set_max,
};
use crate::places::{at_side, find, position_of, put_in_place, set_sides};
use al_base::{Severity, Stamp, Status, Text};
use al_ids::AlarmKey;
use al_model::{OperatorEntry, Side};
use al_notify::{Mode, Note, NoteBody, NoteLog, NotifyRule};
use al_select::{CompressFilter, PurgeFilter};
use al_shelf::Shelves;
use al_types::Inventory;
use std::alloc::{AllocError, Global};
use std::marker::Model;

/// The state of the alarm list. The alarms stand in the order of their keys, and those of each side are found by their places.
#[derive(Debug, Drop)]
pub struct Contents {
    inventory: Option<Inventory>,
    max: Option<u16>,
    rule: NotifyRule,
    shelves: Shelves,
    alarms: Vec<Alarm>,
    listed: Vec<usize>,
    shelved: Vec<usize>,
    log: NoteLog,
    time: Stamp,
    list_time: Option<Stamp>,
    shelf_time: Option<Stamp>,
}

impl Model for Contents {
    ghost use Rattle.std.specs.List.{AllByRecursion};
    ghost use Rattle.std.specs.Prelude.{◌≡◌, ◌-◌, ◌≤◌, min, vec_capacity, vec_len};
    ghost use Rattle.al_contents.specs.Places.{AreSides};
    ghost use Rattle.al_contents.specs.Tables.{TablesView};
    ghost use Rattle.al_contents.specs.Views.{states};

    ghost Value = { TablesView };

    ghost view = { λ c. record {
      state = record {
        inventory = c.inventory;
        max = c.max;
        rule = c.rule;
        shelves = c.shelves.shelves;
        alarms = states c.alarms.items;
        log = c.log;
        time = c.time;
        list_time = c.list_time;
        shelf_time = c.shelf_time;
      };
      alarms = c.alarms.items;
      room = min (vec_capacity c.alarms) (min (vec_capacity c.listed) (vec_capacity c.shelved))
          - vec_len c.alarms;
    } };

    ghost invariant = { λ c. AreSides c.alarms.items c.listed.items c.shelved.items
        × (vec_len c.alarms ≤ vec_capacity c.listed) × (vec_len c.alarms ≤ vec_capacity c.shelved)
        × AllByRecursion (λ view. view.max ≡ c.max) c.alarms.items };
}

impl Contents {
    ghost use Rattle.al_contents.specs.Changes.{HasPlace, HasRoom, with_change};

    /// What stands before the first entry.
    pub fn new(alloc: Global) -> Result<Contents, AllocError>
        ensures { IfOk result (λ contents. contents.state ≡ start) }
    {
        Ok(Contents {
            inventory: None,
            max: Some(32),
            rule: NotifyRule {
                mode: Mode::AllStateChanges,
                level: Severity::Indeterminate,
            },
            shelves: Shelves::new(alloc),
            alarms: Vec::new(alloc),
            listed: Vec::new(alloc),
            shelved: Vec::new(alloc),
            log: NoteLog::new(alloc)?,
            time: Stamp::EPOCH,
            list_time: None,
            shelf_time: None,
        })
    }

    /// What alarms the device may raise, once that is declared.
    pub fn inventory(&self) -> Option<&Inventory>
        ensures { option_copied result ≡ self.now.state.inventory }
    {
        self.inventory.as_ref()
    }

    /// How many status entries an alarm keeps, or all of them.
    pub fn max(&self) -> Option<u16>
        ensures { result ≡ self.now.state.max }
    {
        self.max
    }

    /// Which status changes are told.
    pub fn rule(&self) -> &NotifyRule
        ensures { result.now ≡ self.now.state.rule }
    {
        &self.rule
    }

    /// The shelves in their order.
    pub fn shelves(&self) -> &Shelves
        ensures { result.now.shelves ≡ self.now.state.shelves }
    {
        &self.shelves
    }

    /// The notifications that were sent.
    pub fn log(&self) -> &NoteLog
        ensures { result.now ≡ self.now.state.log }
    {
        &self.log
    }

    /// The time of the last entry.
    pub fn time(&self) -> Stamp
        ensures { result ≡ self.now.state.time }
    {
        self.time
    }

    /// When the alarms of the list last changed in anything.
    pub fn list_changed(&self) -> Option<Stamp>
        ensures { result ≡ self.now.state.list_time }
    {
        self.list_time
    }

    /// When the alarms on shelves last changed in anything.
    pub fn shelf_changed(&self) -> Option<Stamp>
        ensures { result ≡ self.now.state.shelf_time }
    {
        self.shelf_time
    }

    /// The alarm of the key, on either side.
    pub fn find(&self, key: &AlarmKey) -> Option<&Alarm>
        requires { IsInOrder self.now.state.alarms }
        ensures { option_map (λ v. v.state) (option_copied result)
            ≡ alarm_of key.now self.now.state.alarms }
    {
        find(self.alarms.as_slice(), key)
    }

    /// Where the alarm of the key stands, or else where it would.
    pub fn position(&self, key: &AlarmKey) -> Result<usize, usize>
        requires { IsInOrder self.now.state.alarms }
        ensures { IsPositionOf key.now self.now.state.alarms result }
    {
        position_of(self.alarms.as_slice(), key)
    }

    /// All alarms in the order of their keys.
    pub fn alarms(&self) -> &[Alarm]
        ensures alarms { result.now ≡ self.now.alarms }
        ensures states { states result.now ≡ self.now.state.alarms }
    {
        self.alarms.as_slice()
    }

    /// The alarm of the list at this place of it.
    pub fn listed_at(&self, i: usize) -> Option<&Alarm>
        ensures { option_map (λ v. v.state) (option_copied result)
            ≡ slice_get (kept is_unmarked self.now.state.alarms) i }
    {
        let alarms = self.alarms.as_slice();
        let places = self.listed.as_slice();
        at_side(alarms, places, i)
    }

    /// The alarm on a shelf at this place among those on shelves.
    pub fn shelved_at(&self, i: usize) -> Option<&Alarm>
        ensures { option_map (λ v. v.state) (option_copied result)
            ≡ slice_get (kept is_marked self.now.state.alarms) i }
    {
        let alarms = self.alarms.as_slice();
        let places = self.shelved.as_slice();
        at_side(alarms, places, i)
    }

    /// How many alarms are on the list.
    pub fn listed_count(&self) -> usize
        ensures { result ≡ length (kept is_unmarked self.now.state.alarms) }
    {
        self.listed.len()
    }

    /// How many alarms are on shelves.
    pub fn shelved_count(&self) -> usize
        ensures { result ≡ length (kept is_marked self.now.state.alarms) }
    {
        self.shelved.len()
    }

    // ---- memory for a change

    /// Takes the memory for one more alarm.
    pub fn reserve_alarm(&mut self) -> Result<(), AllocError>
        ensures state { self.new.state ≡ self.old.state }
        ensures ok { OnOk result (0 < self.new.room) }
    {
        self.alarms.reserve(1)?;
        let count = self.alarms.len() + 1;
        reserve_places(&mut self.listed, count)?;
        reserve_places(&mut self.shelved, count)
    }

    /// Takes the memory for one more status entry of the alarm at the place.
    pub fn reserve_status(&mut self, place: usize) -> Result<(), AllocError>
        requires { place < length self.old.state.alarms }
        ensures state { self.new.state ≡ self.old.state }
        ensures ok { OnOk result (HasAlarm self.new.alarms place (λ v. 0 < v.status_room)) }
    {
        reserve_status_at(&mut self.alarms, place)
    }

    /// Takes the memory for one more operator entry of the alarm at the place.
    pub fn reserve_operator(&mut self, place: usize) -> Result<(), AllocError>
        requires { place < length self.old.state.alarms }
        ensures state { self.new.state ≡ self.old.state }
        ensures ok { OnOk result (HasAlarm self.new.alarms place (λ v. 0 < v.operator_room)) }
    {
        reserve_operator_at(&mut self.alarms, place)
    }

    /// Takes the memory for these moves, of which there is one for each alarm, or none.
    pub fn reserve_moves(&mut self, moves: &[Option<OperatorEntry>]) -> Result<(), AllocError>
        requires { length moves.now ≡ length self.old.state.alarms }
        ensures state { self.new.state ≡ self.old.state }
        ensures ok { OnOk result (HaveRoom moves.now self.new.alarms) }
    {
        reserve_moves(&mut self.alarms, moves)
    }

    // ---- changes, for which all memory was taken before

    /// Carries a change out, without its note and its times.
    pub fn carry(&mut self, time: Stamp, change: Change)
        requires { HasRoom self.old change }
        ensures { self.new.state ≡ with_change time change self.old.state }
    {
        match change {
            Change::Report {
                place,
                status,
                text,
                entry_text,
            } => self.report(place, time, status, text, entry_text),
            Change::Insert { place, alarm } => self.insert(place, alarm),
            Change::Operate { place, entry } => self.operate(place, entry),
            Change::Max(max) => self.set_max(max),
            Change::Rule(rule) => self.set_rule(rule),
            Change::Shelves { shelves, moves } => self.set_shelves(shelves, moves),
            Change::Inventory { inventory, moves } => self.set_inventory(inventory, moves),
            Change::Purge { side, filter } => self.purge(side, filter, time),
            Change::Compress { side, filter } => self.compress(side, filter),
        }
    }

    fn report(&mut self, place: usize, time: Stamp, status: Status, text: Text, entry_text: Text)
        requires room { HasAlarm self.old.alarms place (λ v. 0 < v.status_room) }
        requires same_text { entry_text ≡ text }
        ensures { self.new.state ≡ record self.old.state {
          alarms = at_place place (reported self.old.state.max time status text)
              self.old.state.alarms;
        } }
    {
        report_at(&mut self.alarms, place, time, status, text, entry_text);
    }

    fn insert(&mut self, place: usize, alarm: Alarm)
        requires { HasPlace self.old place alarm }
        ensures { self.new.state ≡ record self.old.state
            { alarms = insert self.old.state.alarms place alarm.state } }
    {
        put_in_place(&alarm, place, &mut self.listed, &mut self.shelved);
        // There is room for it, so it can't fail.
        let _ = self.alarms.insert(place, alarm);
    }

    fn operate(&mut self, place: usize, entry: OperatorEntry)
        requires room { HasAlarm self.old.alarms place (λ v. 0 < v.operator_room) }
        requires listed { IsListedAt self.old.state.alarms place }
        requires stays { marked entry.state entry.text ≡ None }
        ensures { self.new.state ≡ record self.old.state
            { alarms = at_place place (with_operator (Some entry)) self.old.state.alarms } }
    {
        operate_at(&mut self.alarms, place, entry);
    }

    fn set_max(&mut self, max: Option<u16>)
        ensures { self.new.state ≡ record self.old.state {
          max = max;
          alarms = map (bounded max) self.old.state.alarms;
        } }
    {
        self.max = max;
        set_max(&mut self.alarms, max);
    }

    fn set_rule(&mut self, rule: NotifyRule)
        ensures { self.new.state ≡ record self.old.state { rule = rule } }
    {
        self.rule = rule;
    }

    fn set_shelves(&mut self, shelves: Shelves, moves: Vec<Option<OperatorEntry>>)
        requires { HaveRoom moves.items self.old.alarms }
        ensures { self.new.state ≡ record self.old.state {
          shelves = shelves.shelves;
          alarms = after_moves moves.items self.old.state.alarms;
        } }
    {
        self.shelves = shelves;
        apply_moves(&mut self.alarms, moves);
        set_sides(self.alarms.as_slice(), &mut self.listed, &mut self.shelved);
    }

    fn set_inventory(&mut self, inventory: Inventory, moves: Vec<Option<OperatorEntry>>)
        requires { HaveRoom moves.items self.old.alarms }
        ensures { self.new.state ≡ record self.old.state {
          inventory = Some inventory;
          alarms = after_moves moves.items self.old.state.alarms;
        } }
    {
        self.inventory = Some(inventory);
        apply_moves(&mut self.alarms, moves);
        set_sides(self.alarms.as_slice(), &mut self.listed, &mut self.shelved);
    }

    fn purge(&mut self, side: Side, filter: PurgeFilter, time: Stamp)
        ensures { self.new.state ≡ record self.old.state
            { alarms = kept (λ a. not (goes side filter time a)) self.old.state.alarms } }
    {
        purge(&mut self.alarms, side, &filter, time.ms());
        set_sides(self.alarms.as_slice(), &mut self.listed, &mut self.shelved);
    }

    fn compress(&mut self, side: Side, filter: CompressFilter)
        ensures { self.new.state ≡ record self.old.state
            { alarms = map (compressed side filter) self.old.state.alarms } }
    {
        compress(&mut self.alarms, side, &filter);
    }

    /// Adds the note of a change, if there is one, and sets the times of the sides that it changes.
    pub fn conclude(&mut self, time: Stamp, note: Option<NoteBody>, list: bool, shelf: bool)
        requires { IfSome note (λ _. self.old.state.log.sent + 1 < 2 ^ 32) }
        ensures { self.new.state ≡ built self.old.state self.old.state.alarms note list shelf time }
    {
        add_note(&mut self.log, note, time);
        self.list_time = time_of_change(list, time, self.list_time);
        self.shelf_time = time_of_change(shelf, time, self.shelf_time);
        self.time = time;
    }
}

/// Makes room for so many places in all.
fn reserve_places(places: &mut Vec<usize>, count: usize) -> Result<(), AllocError>
    ensures items { places.new.items ≡ places.old.items }
    ensures capacity { vec_capacity places.old ≤ vec_capacity places.new }
    ensures ok { OnOk result (count ≤ vec_capacity places.new) }
{
    places.reserve(count.saturating_sub(places.len()))
}

fn add_note(log: &mut NoteLog, note: Option<NoteBody>, time: Stamp)
    requires { IfSome note (λ _. log.old.sent + 1 < 2 ^ 32) }
    ensures { log.new ≡ log_after note time log.old }
{
    if let Some(body) = note {
        let number = log.sent() + 1;
        log.append(Note { number, time, body });
    }
}

/// When a side last changed, if it changes or not at this time.
fn time_of_change(changes: bool, time: Stamp, before: Option<Stamp>) -> Option<Stamp>
    ensures { result ≡ time_of_change changes time before }
{
    if changes { Some(time) } else { before }
}
