//! Notes.

ghost use Rattle.al_fields.specs.Leaves.{leaf_data};
ghost use Rattle.al_fields.specs.Members.{fields_by, object_of};
ghost use Rattle.al_json.specs.Notes.{action_tree, done_by, note_tree, notification_tree, told_by};
ghost use Rattle.al_json.specs.Pieces.{inner_data};
ghost use Rattle.std.specs.Prelude.{◌≡◌, option_copied};

use crate::inner::Inner;
use al_base::{OperatorState, Stamp, Status, Text};
use al_fields::{Field, Leaf, Object, object};
use al_ids::AlarmKey;
use al_notify::{Note, NoteBody};

/// What a note tells of a status (RFC 8632, `alarm-notification`).
#[tactic(auto, unfolding(crate::specs::Notes::notification_tree))]
pub(crate) fn notification_object<'a>(
    time: Stamp,
    key: &'a AlarmKey,
    status: Status,
    text: &'a Text,
) -> Object<[Field<Leaf<'a>>; 6]>
    ensures { object_of (fields_by leaf_data result.table)
        ≡ notification_tree time key.now status text.now }
{
    object! {
        "alarm-text": Leaf::Text(text),
        "alarm-type-id": Leaf::Text(key.type_id.text()),
        "alarm-type-qualifier": Leaf::Text(&key.qualifier),
        "perceived-severity": Leaf::Word(status.name()),
        "resource": Leaf::Text(key.resource.text()),
        "time": Leaf::Time(time),
    }
}

/// What a note tells of an operator (RFC 8632, `operator-action`).
#[tactic(auto, unfolding(crate::specs::Notes::action_tree))]
pub(crate) fn action_object<'a>(
    time: Stamp,
    key: &'a AlarmKey,
    operator: &'a Text,
    state: OperatorState,
    text: Option<&'a Text>,
) -> Object<[Field<Leaf<'a>>; 7]>
    ensures { object_of (fields_by leaf_data result.table)
        ≡ action_tree time key.now operator.now state (option_copied text.entry) }
{
    object! {
        "alarm-type-id": Leaf::Text(key.type_id.text()),
        "alarm-type-qualifier": Leaf::Text(&key.qualifier),
        "operator": Leaf::Text(operator),
        "resource": Leaf::Text(key.resource.text()),
        "state": Leaf::Word(state.name()),
        "text": Leaf::of_text(text),
        "time": Leaf::Time(time),
    }
}

/// What the note tells of a status, if it does.
fn told(note: &Note) -> Inner<'_>
    ensures { inner_data result ≡ told_by note.now.time note.now.body }
{
    match &note.body {
        NoteBody::Status(key, status, text) => Inner::Notification(note.time, key, *status, text),
        NoteBody::Action(_, _, _, _) => Inner::Leaf(Leaf::Absent),
    }
}

/// What the note tells of an operator, if it does.
fn done(note: &Note) -> Inner<'_>
    ensures { inner_data result ≡ done_by note.now.time note.now.body }
{
    match &note.body {
        NoteBody::Status(_, _, _) => Inner::Leaf(Leaf::Absent),
        NoteBody::Action(key, operator, state, text) => {
            Inner::Action(note.time, key, operator, *state, text.as_ref())
        }
    }
}

#[tactic(auto, unfolding(crate::specs::Notes::note_tree))]
pub(crate) fn note_object(note: &Note) -> Object<[Field<Inner<'_>>; 4]>
    ensures { object_of (fields_by inner_data result.table) ≡ note_tree note.now }
{
    object! {
        "event-time": Inner::Leaf(Leaf::Time(note.time)),
        "ietf-alarms:alarm-notification": told(note),
        "ietf-alarms:operator-action": done(note),
        "number": Inner::Leaf(Leaf::Number(u64::from(note.number))),
    }
}
