ghost use Rattle.std.specs.Prelude.{◌≡◌, ◌<◌, ◌≤◌, OnOk, Some, filter as kept, length, map, not, vec_capacity, vec_len};
ghost use Rattle.al_model.specs.Alarms.{reported, with_operator};
ghost use Rattle.al_contents.specs.Edits.{AreMaxesKept, ChangesAt, HasAlarm, HasRoomFor, HaveRoom, ReservesOnly, after_moves};
ghost use Rattle.al_contents.specs.Views.{compressed_view, goes, states, with_max};

use crate::alarm::Alarm;
use al_base::{Stamp, Status, Text};
use al_model::{OperatorEntry, Side};
use al_select::{CompressFilter, PurgeFilter};
use std::alloc::AllocError;

// ---- memory for changes

/// Takes the memory for one more status entry of the alarm at the place.
pub(crate) fn reserve_status_at(alarms: &mut Vec<Alarm>, place: usize) -> Result<(), AllocError>
    requires { place < vec_len alarms.old }
    ensures same { ReservesOnly alarms.old.items alarms.new.items }
    ensures ok { OnOk result (HasAlarm alarms.new.items place (λ v. 0 < v.status_room)) }
    ensures capacity { vec_capacity alarms.new ≡ vec_capacity alarms.old }
    ensures len { vec_len alarms.new ≡ vec_len alarms.old }
{
    alarms[place].reserve_status()
}

/// Takes the memory for one more operator entry of the alarm at the place.
pub(crate) fn reserve_operator_at(alarms: &mut Vec<Alarm>, place: usize) -> Result<(), AllocError>
    requires { place < vec_len alarms.old }
    ensures same { ReservesOnly alarms.old.items alarms.new.items }
    ensures ok { OnOk result (HasAlarm alarms.new.items place (λ v. 0 < v.operator_room)) }
    ensures capacity { vec_capacity alarms.new ≡ vec_capacity alarms.old }
    ensures len { vec_len alarms.new ≡ vec_len alarms.old }
{
    alarms[place].reserve_operator()
}

/// Takes the memory for moves, of which there is one for each alarm, or none.
pub(crate) fn reserve_moves(
    alarms: &mut Vec<Alarm>,
    moves: &[Option<OperatorEntry>],
) -> Result<(), AllocError>
    requires { length moves.now ≡ vec_len alarms.old }
    ensures same { ReservesOnly alarms.old.items alarms.new.items }
    ensures ok { OnOk result (HaveRoom moves.now alarms.new.items) }
    ensures capacity { vec_capacity alarms.new ≡ vec_capacity alarms.old }
    ensures len { vec_len alarms.new ≡ vec_len alarms.old }
{
    for (place, entry) in moves.iter().enumerate() {
        reserve_move(&mut alarms[place], entry)?;
    }
    Ok(())
}

fn reserve_move(alarm: &mut Alarm, entry: &Option<OperatorEntry>) -> Result<(), AllocError>
    ensures state { alarm.new.state ≡ alarm.old.state }
    ensures max { alarm.new.max ≡ alarm.old.max }
    ensures ok { OnOk result (HasRoomFor entry.now alarm.new) }
{
    match entry {
        Some(_) => alarm.reserve_operator(),
        None => Ok(()),
    }
}

// ---- changes: none can fail, whatever memory there is

/// Changes the alarm at the place by a report.
pub(crate) fn report_at(
    alarms: &mut Vec<Alarm>,
    place: usize,
    time: Stamp,
    status: Status,
    text: Text,
    entry_text: Text,
)
    requires room { HasAlarm alarms.old.items place (λ v. 0 < v.status_room) }
    requires same_text { entry_text ≡ text }
    ensures change { ChangesAt (λ max.
        reported max time status text) place alarms.old.items alarms.new.items }
    ensures capacity { vec_capacity alarms.new ≡ vec_capacity alarms.old }
    ensures len { vec_len alarms.new ≡ vec_len alarms.old }
{
    alarms[place].report(time, status, text, entry_text);
}

/// Adds an operator entry to the alarm at the place.
pub(crate) fn operate_at(alarms: &mut Vec<Alarm>, place: usize, entry: OperatorEntry)
    requires { HasAlarm alarms.old.items place (λ v. 0 < v.operator_room) }
    ensures change { ChangesAt (λ max.
        with_operator (Some entry)) place alarms.old.items alarms.new.items }
    ensures capacity { vec_capacity alarms.new ≡ vec_capacity alarms.old }
    ensures len { vec_len alarms.new ≡ vec_len alarms.old }
{
    alarms[place].operate(entry);
}

/// Lets each alarm keep so many status entries from now on.
pub(crate) fn set_max(alarms: &mut Vec<Alarm>, max: Option<u16>)
    ensures items { alarms.new.items ≡ map (with_max max) alarms.old.items }
    ensures capacity { vec_capacity alarms.new ≡ vec_capacity alarms.old }
    ensures len { vec_len alarms.new ≡ vec_len alarms.old }
{
    for alarm in alarms.iter_mut() {
        alarm.set_max(max);
    }
}

/// Lets each alarm of the side that the filter takes keep its newest status entry alone.
pub(crate) fn compress(alarms: &mut Vec<Alarm>, side: Side, filter: &CompressFilter)
    ensures items { alarms.new.items ≡ map (compressed_view side filter.now) alarms.old.items }
    ensures capacity { vec_capacity alarms.new ≡ vec_capacity alarms.old }
    ensures len { vec_len alarms.new ≡ vec_len alarms.old }
{
    for alarm in alarms.iter_mut() {
        compress_one(alarm, side, filter);
    }
}

fn compress_one(alarm: &mut Alarm, side: Side, filter: &CompressFilter)
    ensures { alarm.new ≡ compressed_view side filter.now alarm.old }
{
    if alarm.is_at(side) && filter.takes(alarm.key()) {
        alarm.compress();
    }
}

/// Removes the alarms of the side that the filter takes at the time, in milliseconds since 1970.
pub(crate) fn purge(alarms: &mut Vec<Alarm>, side: Side, filter: &PurgeFilter, time: u64)
    ensures items { alarms.new.items
        ≡ kept (λ v. not (goes side filter.now time v.state)) alarms.old.items }
    ensures capacity { vec_capacity alarms.new ≡ vec_capacity alarms.old }
    ensures len { vec_len alarms.new ≤ vec_len alarms.old }
{
    alarms.retain(|alarm| !alarm.goes(side, filter, time));
}

/// Moves the alarms of which there is an entry.
pub(crate) fn apply_moves(alarms: &mut Vec<Alarm>, mut moves: Vec<Option<OperatorEntry>>)
    requires { HaveRoom moves.items alarms.old.items }
    ensures states { states alarms.new.items ≡ after_moves moves.items (states alarms.old.items) }
    ensures maxes { AreMaxesKept alarms.old.items alarms.new.items }
    ensures capacity { vec_capacity alarms.new ≡ vec_capacity alarms.old }
    ensures len { vec_len alarms.new ≡ vec_len alarms.old }
{
    while let Some(entry) = moves.pop() {
        let place = moves.len();
        apply_move(&mut alarms[place], entry);
    }
}

fn apply_move(alarm: &mut Alarm, entry: Option<OperatorEntry>)
    requires { HasRoomFor entry alarm.old }
    ensures state { alarm.new.state ≡ with_operator entry alarm.old.state }
    ensures max { alarm.new.max ≡ alarm.old.max }
{
    if let Some(entry) = entry {
        alarm.operate(entry);
    }
}
