ghost use Rattle.al_base.specs.Limits.{most_operator_entries};
ghost use Rattle.std.specs.Option.{option_copied, option_map, option_to_list};
ghost use Rattle.std.specs.Prelude.{◌≡◌, ◌<◌, ◌∷◌, [], IfOk, IfSome, OnOk, Some, cond, length, slice_get};
ghost use Rattle.al_base.specs.declared.operator.OperatorState.{OperatorState};
ghost use Rattle.al_base.specs.declared.operator.OperatorState.TheVariants.{Closed};
ghost use Rattle.al_base.specs.declared.text.Text.{Text};
ghost use Rattle.al_ids.specs.Keys.{key_cmp};
ghost use Rattle.al_select.specs.Filters.{purge_takes, same_state};
ghost use Rattle.al_model.specs.Alarms.{bounded, facts_of, reported, says_more, status_of, with_operator};
ghost use Rattle.al_record.specs.Histories.{newest};
ghost use Rattle.al_model.specs.Summary.{is_closed};
ghost use Rattle.al_contents.specs.Views.{first_state, goes, is_at, is_marked, loses, mark_of, marked, newest_said, with_max};

use al_base::limits::MOST_OPERATOR_ENTRIES;
use al_base::{Copied, OperatorState, Severity, Stamp, Status, Text};
use al_ids::AlarmKey;
use al_model::{OperatorEntry, Side, StatusEntry};
use al_record::History;
use al_select::{AlarmFacts, CompressFilter, PurgeFilter};
use std::alloc::{AllocError, Global};
use std::cmp::Ordering;
use std::marker::Model;

/// An alarm, on the list or on a shelf (RFC 8632, lists `alarm` and `shelved-alarm`).
#[derive(Debug, Drop)]
pub struct Alarm {
    key: AlarmKey,
    created: Stamp,
    raised: Stamp,
    changed: Stamp,
    cleared: bool,
    severity: Severity,
    text: Text,
    statuses: History<StatusEntry>,
    operators: History<OperatorEntry>,
}

impl Model for Alarm {
    ghost use Rattle.al_contents.specs.Views.{AlarmView};
    ghost use Rattle.al_base.specs.Limits.{most_operator_entries};
    ghost use Rattle.std.specs.Prelude.{◌≡◌, Some};

    ghost Value = { AlarmView };

    ghost view = { λ a. record {
      state = record {
        key = a.key;
        created = a.created;
        raised = a.raised;
        changed = a.changed;
        cleared = a.cleared;
        severity = a.severity;
        text = a.text;
        statuses = a.statuses.items;
        operators = a.operators.items;
      };
      max = a.statuses.bound;
      status_room = a.statuses.spare;
      operator_room = a.operators.spare;
    } };

    ghost invariant = { λ a. a.operators.bound ≡ Some most_operator_entries };
}

impl Alarm {
    /// The alarm that a report makes at the time. It keeps so many status entries, or all. `shelving` is the operator entry that puts it
    /// on a shelf, where one takes it.
    pub fn new(
        alloc: Global,
        max: Option<u16>,
        time: Stamp,
        key: AlarmKey,
        severity: Severity,
        text: Text,
        shelving: Option<OperatorEntry>,
    ) -> Result<Alarm, AllocError>
        requires { IfSome max (λ most. 0 < most) }
        ensures state { IfOk result (λ alarm.
            alarm.state ≡ first_state time key severity text shelving) }
        ensures max { IfOk result (λ alarm. alarm.max ≡ max) }
    {
        let entry = StatusEntry {
            time,
            status: Status::Active(severity),
            text: text.copy(alloc)?,
        };
        let statuses = first_statuses(alloc, max, entry)?;
        let operators = first_operators(alloc, shelving)?;
        Ok(Alarm {
            key,
            created: time,
            raised: time,
            changed: time,
            cleared: false,
            severity,
            text,
            statuses,
            operators,
        })
    }

    /// What identifies the alarm.
    pub fn key(&self) -> &AlarmKey
        ensures { result.now ≡ self.now.state.key }
    {
        &self.key
    }

    /// When it was made (RFC 8632, `time-created`).
    pub fn created(&self) -> Stamp
        ensures { result ≡ self.now.state.created }
    {
        self.created
    }

    /// When it was last raised.
    pub fn raised(&self) -> Stamp
        ensures { result ≡ self.now.state.raised }
    {
        self.raised
    }

    /// When it last got a status or operator entry (RFC 8632, `last-changed`).
    pub fn changed(&self) -> Stamp
        ensures { result ≡ self.now.state.changed }
    {
        self.changed
    }

    /// Whether its condition is over (RFC 8632, `is-cleared`).
    pub fn cleared(&self) -> bool
        ensures { result ≡ self.now.state.cleared }
    {
        self.cleared
    }

    /// How grave it is, and of a cleared alarm how grave it was (RFC 8632, `perceived-severity`).
    pub fn severity(&self) -> Severity
        ensures { result ≡ self.now.state.severity }
    {
        self.severity
    }

    /// The text of its last status (RFC 8632, `alarm-text`).
    pub fn text(&self) -> &Text
        ensures { result.now ≡ self.now.state.text }
    {
        &self.text
    }

    /// The name of the shelf that its newest operator entry puts it on, None where that entry doesn't (RFC 8632, `shelf-name`).
    pub fn shelf_name(&self) -> Option<&Text>
        ensures { option_copied result ≡ mark_of self.now.state.operators }
    {
        match self.operators.at(0) {
            Some(entry) => shelf_of(entry),
            None => None,
        }
    }

    /// How many status entries it keeps (RFC 8632, `number-of-status-changes`).
    pub fn statuses(&self) -> usize
        ensures { result ≡ length self.now.state.statuses }
    {
        self.statuses.len()
    }

    /// How many operator entries it keeps.
    pub fn operators(&self) -> usize
        ensures { result ≡ length self.now.state.operators }
    {
        self.operators.len()
    }

    /// The status entry at this place: the newest at 0, None past the oldest.
    pub fn status_at(&self, i: usize) -> Option<&StatusEntry>
        ensures { option_copied result ≡ slice_get self.now.state.statuses i }
    {
        self.statuses.at(i)
    }

    /// The operator entry at this place: the newest at 0, None past the oldest.
    pub fn operator_at(&self, i: usize) -> Option<&OperatorEntry>
        ensures { option_copied result ≡ slice_get self.now.state.operators i }
    {
        self.operators.at(i)
    }

    /// Whether it is on a shelf by its newest operator entry.
    pub fn is_shelved(&self) -> bool
        ensures { result ≡ is_marked self.now.state }
    {
        self.shelf_name().is_some()
    }

    /// Whether a report of its key says more than what stands.
    pub fn is_changed_by(&self, status: Status, text: &Text) -> bool
        ensures { result ≡ says_more self.now.state status text.now }
    {
        match status {
            Status::Active(severity) => self.cleared
                || severity.rank() != self.severity.rank()
                || *text != self.text,
            Status::Cleared => !self.cleared,
        }
    }

    /// Whether it is on this side by its newest operator entry.
    pub fn is_at(&self, side: Side) -> bool
        ensures { result ≡ is_at side self.now.state }
    {
        match side {
            Side::List => !self.is_shelved(),
            Side::Shelf => self.is_shelved(),
        }
    }

    /// Whether it goes by a purge of the side at the time, in milliseconds since 1970.
    pub fn goes(&self, side: Side, filter: &PurgeFilter, time: u64) -> bool
        ensures { result ≡ goes side filter.now time self.now.state }
    {
        self.is_at(side) && self.is_taken(filter, time)
    }

    fn is_taken(&self, filter: &PurgeFilter, time: u64) -> bool
        ensures { result ≡ purge_takes filter.now (facts_of self.now.state) time }
    {
        let newest = newest_of(self.operators.at(0));
        let facts = AlarmFacts {
            cleared: self.cleared,
            severity: self.severity,
            changed: self.changed,
            newest,
        };
        filter.takes(&facts, time)
    }

    /// Whether a compression of the side lets go an entry of it.
    pub fn loses(&self, side: Side, filter: &CompressFilter) -> bool
        ensures { result ≡ loses side filter.now self.now.state }
    {
        self.is_at(side) && filter.takes(&self.key) && self.statuses.len() > 1
    }

    /// Whether its newest operator entry closes it.
    pub fn is_closed(&self) -> bool
        ensures { result ≡ is_closed self.now.state.operators }
    {
        match self.operators.at(0) {
            Some(entry) => is_closing(entry),
            None => false,
        }
    }

    /// What its status is.
    pub fn status(&self) -> Status
        ensures { result ≡ status_of self.now.state }
    {
        if self.cleared {
            Status::Cleared
        } else {
            Status::Active(self.severity)
        }
    }

    /// Where it stands to the alarm of this key.
    pub fn order(&self, key: &AlarmKey) -> Ordering
        ensures { result ≡ key_cmp self.now.state.key key.now }
    {
        self.key.cmp(key)
    }

    // ---- changes, each with room that was taken before

    /// Takes the memory for one more status entry.
    pub fn reserve_status(&mut self) -> Result<(), AllocError>
        ensures state { self.new.state ≡ self.old.state }
        ensures max { self.new.max ≡ self.old.max }
        ensures ok { OnOk result (0 < self.new.status_room) }
    {
        self.statuses.reserve()
    }

    /// Takes the memory for one more operator entry.
    pub fn reserve_operator(&mut self) -> Result<(), AllocError>
        ensures state { self.new.state ≡ self.old.state }
        ensures max { self.new.max ≡ self.old.max }
        ensures ok { OnOk result (0 < self.new.operator_room) }
    {
        self.operators.reserve()
    }

    /// Changes it by a report that says more. `entry_text` is a second copy of the text, for the entry.
    pub fn report(&mut self, time: Stamp, status: Status, text: Text, entry_text: Text)
        requires room { 0 < self.old.status_room }
        requires same_text { entry_text ≡ text }
        ensures state { self.new.state ≡ reported self.old.max time status text self.old.state }
        ensures max { self.new.max ≡ self.old.max }
    {
        let entry = StatusEntry {
            time,
            status,
            text: entry_text,
        };
        match status {
            Status::Active(severity) => {
                let raised = raised_at(self.cleared, self.raised, time);
                self.set_status(raised, false, severity, text, entry)
            }
            Status::Cleared => self.set_status(self.raised, true, self.severity, text, entry),
        }
    }

    fn set_status(
        &mut self,
        raised: Stamp,
        cleared: bool,
        severity: Severity,
        text: Text,
        entry: StatusEntry,
    )
        requires { 0 < self.old.status_room }
        ensures state { self.new.state ≡ record self.old.state {
          raised = raised;
          changed = entry.time;
          cleared = cleared;
          severity = severity;
          text = text;
          statuses = newest self.old.max (entry ∷ self.old.state.statuses);
        } }
        ensures max { self.new.max ≡ self.old.max }
    {
        self.raised = raised;
        self.changed = entry.time;
        self.cleared = cleared;
        self.severity = severity;
        self.text = text;
        self.statuses.add(entry);
    }

    /// Adds an operator entry. It has the time of the change.
    pub fn operate(&mut self, entry: OperatorEntry)
        requires { 0 < self.old.operator_room }
        ensures state { self.new.state ≡ with_operator (Some entry) self.old.state }
        ensures max { self.new.max ≡ self.old.max }
    {
        self.changed = entry.time;
        self.operators.add(entry);
    }

    /// Keeps so many status entries from now on, or all.
    pub fn set_max(&mut self, max: Option<u16>)
        ensures { self.new ≡ with_max max self.old }
    {
        self.statuses.set_bound(bound_of(max));
    }

    /// Keeps its newest status entry alone.
    pub fn compress(&mut self)
        ensures { self.new ≡ record self.old { state = bounded (Some 1) self.old.state } }
    {
        let _ = self.statuses.compress();
    }
}

/// When an alarm is raised last that is raised now, if it was cleared, and at this time before.
fn raised_at(cleared: bool, raised: Stamp, now: Stamp) -> Stamp
    ensures { result ≡ cond cleared now raised }
{
    if cleared { now } else { raised }
}

/// The bound of a history of status entries.
fn bound_of(max: Option<u16>) -> Option<usize>
    ensures { result ≡ max }
{
    match max {
        Some(most) => Some(usize::from(most)),
        None => None,
    }
}

/// Whether the entry closes its alarm.
fn is_closing(entry: &OperatorEntry) -> bool
    ensures { result ≡ same_state entry.now.state Closed }
{
    entry.state == OperatorState::Closed
}

/// The status entries of a new alarm.
fn first_statuses(
    alloc: Global,
    max: Option<u16>,
    entry: StatusEntry,
) -> Result<History<StatusEntry>, AllocError>
    requires { IfSome max (λ most. 0 < most) }
    ensures { IfOk result (λ statuses. (statuses.items ≡ entry ∷ []) × (statuses.bound ≡ max)) }
{
    let mut statuses = History::new(alloc, bound_of(max));
    statuses.reserve()?;
    statuses.add(entry);
    Ok(statuses)
}

/// The operator entries of a new alarm.
fn first_operators(
    alloc: Global,
    shelving: Option<OperatorEntry>,
) -> Result<History<OperatorEntry>, AllocError>
    ensures { IfOk result (λ operators. (operators.items ≡ option_to_list shelving)
        × (operators.bound ≡ Some most_operator_entries)) }
{
    let mut operators = History::new(alloc, Some(MOST_OPERATOR_ENTRIES));
    match shelving {
        Some(entry) => {
            operators.reserve()?;
            operators.add(entry);
            Ok(operators)
        }
        None => Ok(operators),
    }
}

/// The state and the operator of an entry.
fn newest_of(entry: Option<&OperatorEntry>) -> Option<(OperatorState, &Text)>
    ensures { option_map (λ n. (let said : OperatorState × Text = (n.0, n.1.now) in said)) result
        ≡ newest_said (option_copied entry.entry) }
{
    match entry {
        Some(entry) => Some((entry.state, &entry.operator)),
        None => None,
    }
}

/// The text of an entry that shelves an alarm.
fn shelf_of(entry: &OperatorEntry) -> Option<&Text>
    ensures { option_copied result ≡ marked entry.now.state entry.now.text }
{
    match entry.state {
        OperatorState::Shelved => entry.text.as_ref(),
        _ => None,
    }
}
