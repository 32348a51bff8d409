ghost use Rattle.std.specs.Prelude.{◌≡◌, IfOk, IsSome};
ghost use Rattle.al_model.specs.Alarms.{alarm_of};
ghost use Rattle.al_model.specs.Validity.{IsInOrder, IsValid};
ghost use Rattle.al_model.specs.declared.event.Event.TheVariants as events;
ghost use Rattle.al_notify.specs.declared.note.NoteBody.TheVariants as notes;
ghost use Rattle.al_contents.specs.Positions.{IsKnownAt};
ghost use Rattle.al_lists.specs.Prepares.{Comes, Prepares};

use crate::prepared::Prepared;
use al_base::{Copied, OperatorState, Stamp, Text};
use al_contents::{Change, Contents};
use al_ids::AlarmKey;
use al_model::OperatorEntry;
use al_notify::NoteBody;
use std::alloc::{AllocError, Global};

/// Prepares an operator's action.
pub(crate) fn operate(
    alloc: Global,
    contents: &mut Contents,
    time: Stamp,
    key: &AlarmKey,
    state: OperatorState,
    operator: &Text,
    text: &Option<Text>,
) -> Result<Prepared, AllocError>
    requires valid { IsValid contents.old.state }
    requires comes { Comes contents.old.state time
        (events.Operate key.now state operator.now text.now) }
    ensures state { contents.new.state ≡ contents.old.state }
    ensures ok { IfOk result (Prepares contents.new time
        (events.Operate key.now state operator.now text.now)) }
{
    let place = place_of(contents, key);
    contents.reserve_operator(place)?;
    let entry = operator_entry(alloc, time, state, operator, text)?;
    let note = action_note(alloc, key, state, operator, text)?;
    // An operator says nothing of alarms on shelves.
    Ok(Prepared {
        time,
        change: Change::Operate { place, entry },
        note: Some(note),
        list: true,
        shelf: false,
    })
}

/// Where the alarm of the key stands.
fn place_of(contents: &Contents, key: &AlarmKey) -> usize
    requires order { IsInOrder contents.now.state.alarms }
    requires known { IsSome (alarm_of key.now contents.now.state.alarms) }
    ensures { IsKnownAt key.now contents.now.state.alarms result }
{
    match contents.position(key) {
        Ok(place) => place,
        Err(_) => unreachable!(),
    }
}

fn operator_entry(
    alloc: Global,
    time: Stamp,
    state: OperatorState,
    operator: &Text,
    text: &Option<Text>,
) -> Result<OperatorEntry, AllocError>
    ensures { IfOk result (λ entry.
        entry ≡ record { time = time; state = state; operator = operator.now; text = text.now }) }
{
    Ok(OperatorEntry {
        time,
        state,
        operator: operator.copy(alloc)?,
        text: text.copy(alloc)?,
    })
}

fn action_note(
    alloc: Global,
    key: &AlarmKey,
    state: OperatorState,
    operator: &Text,
    text: &Option<Text>,
) -> Result<NoteBody, AllocError>
    ensures { IfOk result (λ note. note ≡ notes.Action key.now operator.now state text.now) }
{
    Ok(NoteBody::Action(
        key.copy(alloc)?,
        operator.copy(alloc)?,
        state,
        text.copy(alloc)?,
    ))
}
