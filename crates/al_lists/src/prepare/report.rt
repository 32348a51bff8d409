ghost use Rattle.std.specs.Prelude.{◌≡◌, ◌≢◌, ◌<◌, ◌&&◌, IfOk, None, Some, cond, length, not, slice_get};
ghost use Rattle.al_base.specs.declared.severity.Status.TheVariants.{Active, Cleared};
ghost use Rattle.al_model.specs.Alarms.{new_alarm, status_of};
ghost use Rattle.al_model.specs.State.{is_shelved, shelf_name};
ghost use Rattle.al_model.specs.Validity.{IsValid, KeepsOne};
ghost use Rattle.al_model.specs.declared.event.Event.TheVariants as events;
ghost use Rattle.al_notify.specs.Rules.{sends};
ghost use Rattle.al_notify.specs.declared.note.NoteBody.TheVariants as notes;
ghost use Rattle.al_contents.specs.Positions.{IsAbsentAt, IsKnownAt};
ghost use Rattle.al_contents.specs.Views.{is_marked};
ghost use Rattle.al_lists.specs.Prepares.{Comes, Prepares};

use crate::prepare::moves::{first_name, installed_or, move_entry};
use crate::prepared::Prepared;
use al_base::{Copied, Severity, Stamp, Status, Text};
use al_contents::{Alarm, Change, Contents};
use al_ids::AlarmKey;
use al_notify::{NoteBody, NotifyRule};
use al_types::Inventory;
use std::alloc::{AllocError, Global};

/// Prepares a report.
pub(crate) fn report(
    alloc: Global,
    contents: &mut Contents,
    time: Stamp,
    key: &AlarmKey,
    status: Status,
    text: &Text,
) -> Result<Prepared, AllocError>
    requires valid { IsValid contents.old.state }
    requires comes { Comes contents.old.state time (events.Report key.now status text.now) }
    ensures state { contents.new.state ≡ contents.old.state }
    ensures ok { IfOk result (Prepares contents.new time (events.Report key.now status text.now)) }
{
    match contents.position(key) {
        Ok(place) => change(alloc, contents, time, place, key, status, text),
        Err(place) => raise(alloc, contents, time, place, key, severity_of(status), text),
    }
}

/// The severity of a status of an alarm that isn't cleared.
fn severity_of(status: Status) -> Severity
    requires { status ≢ Cleared }
    ensures { status ≡ Active result }
{
    match status {
        Status::Active(severity) => severity,
        Status::Cleared => unreachable!(),
    }
}

/// Prepares a report of the alarm at the place.
fn change(
    alloc: Global,
    contents: &mut Contents,
    time: Stamp,
    place: usize,
    key: &AlarmKey,
    status: Status,
    text: &Text,
) -> Result<Prepared, AllocError>
    requires known { IsKnownAt key.now contents.old.state.alarms place }
    requires valid { IsValid contents.old.state }
    requires comes { Comes contents.old.state time (events.Report key.now status text.now) }
    ensures state { contents.new.state ≡ contents.old.state }
    ensures ok { IfOk result (Prepares contents.new time (events.Report key.now status text.now)) }
{
    contents.reserve_status(place)?;
    let alarm = alarm_at(contents, place);
    let shelved = alarm.is_shelved();
    let told = is_told(contents.rule(), shelved, Some(alarm.status()), status);
    let texts = Texts::of(alloc, text)?;
    let note = status_note(alloc, told, key, status, text)?;
    Ok(Prepared {
        time,
        change: Change::Report {
            place,
            status,
            text: texts.text,
            entry_text: texts.entry_text,
        },
        note,
        list: !shelved,
        shelf: shelved,
    })
}

/// The alarm at the place among all.
fn alarm_at(contents: &Contents, place: usize) -> &Alarm
    requires { place < length contents.now.state.alarms }
    ensures { slice_get contents.now.state.alarms place ≡ Some result.now.state }
{
    &contents.alarms()[place]
}

/// A text twice: for an alarm, and for the entry of its history.
#[derive(Debug, Drop)]
struct Texts {
    text: Text,
    entry_text: Text,
}

impl Texts {
    fn of(alloc: Global, text: &Text) -> Result<Texts, AllocError>
        ensures { IfOk result (λ texts. (texts.text ≡ text.now) × (texts.entry_text ≡ text.now)) }
    {
        Ok(Texts {
            text: text.copy(alloc)?,
            entry_text: text.copy(alloc)?,
        })
    }
}

/// Whether a change of status is told: only one of an alarm of the list, and by the rule.
fn is_told(rule: &NotifyRule, shelved: bool, before: Option<Status>, after: Status) -> bool
    ensures { result ≡ (not shelved && sends rule.now before after) }
{
    !shelved && rule.sends(before, after)
}

/// The note of a report, if it is told.
fn status_note(
    alloc: Global,
    told: bool,
    key: &AlarmKey,
    status: Status,
    text: &Text,
) -> Result<Option<NoteBody>, AllocError>
    ensures { IfOk result (λ note.
        note ≡ cond told (Some (notes.Status key.now status text.now)) None) }
{
    if !told {
        return Ok(None);
    }
    Ok(Some(NoteBody::Status(key.copy(alloc)?, status, text.copy(alloc)?)))
}

/// Prepares a report that makes an alarm, at the place where it is put in.
fn raise(
    alloc: Global,
    contents: &mut Contents,
    time: Stamp,
    place: usize,
    key: &AlarmKey,
    severity: Severity,
    text: &Text,
) -> Result<Prepared, AllocError>
    requires absent { IsAbsentAt key.now contents.old.state.alarms place }
    requires valid { IsValid contents.old.state }
    ensures state { contents.new.state ≡ contents.old.state }
    ensures ok { IfOk result (Prepares contents.new time
        (events.Report key.now (Active severity) text.now)) }
{
    contents.reserve_alarm()?;
    let new = New::of(alloc, contents, time, key, severity, text)?;
    let shelved = new.shelved;
    let status = Status::Active(severity);
    let told = is_told(contents.rule(), shelved, None, status);
    let note = status_note(alloc, told, key, status, text)?;
    Ok(Prepared {
        time,
        change: Change::Insert {
            place,
            alarm: new.alarm,
        },
        note,
        list: !shelved,
        shelf: shelved,
    })
}

/// A new alarm, and whether a shelf takes it.
#[derive(Debug, Drop)]
struct New {
    alarm: Alarm,
    shelved: bool,
}

impl New {
    fn of(
        alloc: Global,
        contents: &Contents,
        time: Stamp,
        key: &AlarmKey,
        severity: Severity,
        text: &Text,
    ) -> Result<New, AllocError>
        requires { KeepsOne contents.now.state.max }
        ensures alarm { IfOk result (λ new.
            new.alarm.state ≡ new_alarm (shelf_name contents.now.state key.now) time key.now
            severity text.now) }
        ensures max { IfOk result (λ new. new.alarm.max ≡ contents.now.state.max) }
        ensures shelved { IfOk result (λ new. new.shelved ≡ is_shelved contents.now.state key.now) }
    {
        let none = Inventory::empty(alloc);
        let inventory = installed_or(contents.inventory(), &none);
        let name = first_name(contents.shelves(), inventory, key);
        let entry = move_entry(alloc, time, None, name)?;
        let shelved = name.is_some();
        let key = key.copy(alloc)?;
        let text = text.copy(alloc)?;
        let alarm = Alarm::new(alloc, contents.max(), time, key, severity, text, entry)?;
        Ok(New { alarm, shelved })
    }
}
