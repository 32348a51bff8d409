ghost use Rattle.std.specs.List.{filter};
ghost use Rattle.std.specs.Option.{option_copied, option_map};
ghost use Rattle.std.specs.Prelude.{◌≡◌, ◌≤◌, ◌&&◌, ◌||◌, ◌↔◌, ℕ, List, Option, IsTrue, None, Some, is_some, length, nat_le, nat_lt, not, slice_get, true, unwrap_or};
ghost use Rattle.al_base.specs.Limits.{most_alarms, most_shelves};
ghost use Rattle.al_base.specs.declared.operator.OperatorState.{OperatorState};
ghost use Rattle.al_model.specs.Decision.{changes, decision_of, entry_time, event_of, full, made_or_replaced, shelf_place, undeclared};
ghost use Rattle.al_model.specs.Sames.{same_rule};
ghost use Rattle.al_model.specs.Step.{is_news};
ghost use Rattle.al_model.specs.Validity.{IsValid};
ghost use Rattle.al_shelf.specs.Places.{place_for, place_of, without};
ghost use Rattle.al_types.specs.Inventories.{InventoryView};
ghost use Rattle.al_contents.specs.Views.{goes, loses};
ghost use Rattle.al_lists.specs.Verdicts.{judged, room_for, row_refusal, verdict_at};

use crate::verdict::{Verdict, judge, room};
use al_base::limits::{MOST_ALARMS, MOST_SHELVES};
use al_base::{Severity, Stamp, Status, Text};
use al_contents::{Alarm, Contents, if_at};
use al_ids::AlarmKey;
use al_model::{Decision, Event, Refusal, Reply, Request, Side};
use al_notify::{Mode, NotifyRule};
use al_select::{CompressFilter, PurgeFilter};
use al_shelf::{Shelf, Shelves, Spot};
use al_types::Row;

/// What is to become of a request at a reading of the clock. It can't fail: the event of a change has what the request has.
pub(crate) fn decide(contents: &Contents, request: Request, now: Stamp) -> Decision
    requires { IsValid contents.now.state }
    ensures { result ≡ decision_of contents.now.state request now }
{
    match judge_request(contents, &request, entry_time(contents, now)) {
        Verdict::Refuse(refusal) => Decision::Refuse(refusal),
        Verdict::Same(reply) => Decision::Same(reply),
        Verdict::Change(reply) => Decision::Change(event_of(contents, request), reply),
    }
}

/// When the next entry is, in milliseconds. After the last moment there is no stamp for it.
fn entry_time(contents: &Contents, now: Stamp) -> u64
    ensures { result ≡ entry_time contents.now.state now }
{
    now.ms().max(contents.time().ms() + 1)
}

/// The verdict on a request that would be carried out at the time, in milliseconds.
fn judge_request(contents: &Contents, request: &Request, time: u64) -> Verdict
    requires { IsValid contents.now.state }
    ensures { result ≡ verdict_at contents.now.state time request.now }
{
    match request {
        Request::Report { key, status, text } => judge_report(contents, key, *status, text),
        Request::Operate {
            key,
            state: _,
            operator: _,
            text: _,
        } => judge_operate(contents, key),
        Request::SetMax(max) => judge_max(contents, *max),
        Request::SetMode(mode) => judge_mode(contents, *mode),
        Request::SetLevel(level) => judge_level(contents, *level),
        Request::CreateShelf { shelf, spot } => judge_creation(contents, shelf, spot),
        Request::PutShelf { shelf, spot } => judge_put(contents, shelf, spot),
        Request::DropShelf { name } => judge_drop(contents, name),
        Request::Purge { side, filter } => judge_purge(contents, *side, filter, time),
        Request::Compress { side, filter } => judge_compression(contents, *side, filter),
        Request::Install(_) => judge_installation(contents),
    }
}

// ---- reports

pub(crate) fn judge_report(
    contents: &Contents,
    key: &AlarmKey,
    status: Status,
    text: &Text,
) -> Verdict
    requires { IsValid contents.now.state }
    ensures { (time : ℕ) → result
        ≡ verdict_at contents.now.state time (Request.Report key.now status text.now) }
{
    let stands = contents.find(key);
    let news = is_news(stands, status, text);
    let fits = alarms_fit(contents, stands.is_none(), news);
    let refused = undeclared(contents, key, status);
    judge(refused, news, room(contents, fits, true), Reply::Done)
}

/// Whether a report says something new of the alarm of its key, or makes one.
fn is_news(stands: Option<&Alarm>, status: Status, text: &Text) -> bool
    ensures { result ≡ is_news (option_map (λ v. v.state) (option_copied stands.entry)) status
        text.now }
{
    match stands {
        Some(alarm) => alarm.is_changed_by(status, text),
        None => is_active(status),
    }
}

fn is_active(status: Status) -> bool
    ensures { (text : List ℕ) → result ≡ is_news None status text }
{
    match status {
        Status::Active(_) => true,
        Status::Cleared => false,
    }
}

/// Whether there is room for the alarm that a report makes, if it makes one.
fn alarms_fit(contents: &Contents, is_new: bool, news: bool) -> bool
    ensures { result ≡ (not (is_new && news)
        || nat_lt (length contents.now.state.alarms) most_alarms) }
{
    !(is_new && news) || contents.alarms().len() < MOST_ALARMS
}

/// What the inventory has against a report.
fn undeclared(contents: &Contents, key: &AlarmKey, status: Status) -> Option<Refusal>
    ensures { (text : List ℕ)
        → result ≡ undeclared contents.now.state (Request.Report key.now status text) }
{
    match contents.inventory() {
        Some(inventory) => row_refusal(inventory.row(&key.type_id, &key.qualifier), status),
        None => Some(Refusal::NotInInventory),
    }
}

fn row_refusal(row: Option<&Row>, status: Status) -> Option<Refusal>
    ensures { result ≡ row_refusal (option_copied row.entry) status }
{
    match row {
        Some(row) => status_refusal(row, status),
        None => Some(Refusal::NotInInventory),
    }
}

fn status_refusal(row: &Row, status: Status) -> Option<Refusal>
    ensures { result ≡ row_refusal (Some row.now) status }
{
    match status {
        Status::Cleared => None,
        Status::Active(severity) => severity_refusal(row, severity),
    }
}

fn severity_refusal(row: &Row, severity: Severity) -> Option<Refusal>
    ensures { result ≡ row_refusal (Some row.now) (Status.Active severity) }
{
    if row.allows(severity) {
        None
    } else {
        Some(Refusal::SeverityNotInInventory)
    }
}

// ---- operator actions

pub(crate) fn judge_operate(contents: &Contents, key: &AlarmKey) -> Verdict
    requires { IsValid contents.now.state }
    ensures { (time : ℕ) (state : OperatorState) (operator : List ℕ) (text : Option (List ℕ))
        → result ≡ verdict_at contents.now.state time
        (Request.Operate key.now state operator text) }
{
    match if_at(contents.find(key), Side::List) {
        Some(_) => judge(None, true, room(contents, true, true), Reply::Done),
        None => Verdict::Refuse(Refusal::NoAlarm),
    }
}

// ---- settings

pub(crate) fn judge_max(contents: &Contents, max: Option<u16>) -> Verdict
    requires { IsValid contents.now.state }
    ensures { (time : ℕ) → result ≡ verdict_at contents.now.state time (Request.SetMax max) }
{
    judge(
        None,
        contents.max() != max,
        room(contents, true, true),
        Reply::Done,
    )
}

pub(crate) fn judge_mode(contents: &Contents, mode: Mode) -> Verdict
    requires { IsValid contents.now.state }
    ensures { (time : ℕ) → result ≡ verdict_at contents.now.state time (Request.SetMode mode) }
{
    let level = contents.rule().level;
    judge_rule(contents, NotifyRule { mode, level })
}

pub(crate) fn judge_level(contents: &Contents, level: Severity) -> Verdict
    requires { IsValid contents.now.state }
    ensures { (time : ℕ) → result ≡ verdict_at contents.now.state time (Request.SetLevel level) }
{
    let mode = contents.rule().mode;
    judge_rule(contents, NotifyRule { mode, level })
}

fn judge_rule(contents: &Contents, rule: NotifyRule) -> Verdict
    ensures { result ≡ judged None (not (same_rule contents.now.state.rule rule))
        (room_for true true contents.now.state.time) Reply.Done }
{
    let changing = *contents.rule() != rule;
    judge(None, changing, room(contents, true, true), Reply::Done)
}

// ---- shelves

fn judge_creation(contents: &Contents, shelf: &Shelf, spot: &Spot) -> Verdict
    requires { IsValid contents.now.state }
    ensures { (time : ℕ) → result
        ≡ verdict_at contents.now.state time (Request.CreateShelf shelf.now spot.now) }
{
    let shelves = contents.shelves();
    match shelves.place_for(spot, &shelf.name) {
        Some(place) => match shelves.place_of(&shelf.name) {
            None => judge_place(contents, shelf, place, Reply::Made),
            Some(_) => Verdict::Refuse(Refusal::ShelfExists),
        },
        None => Verdict::Refuse(Refusal::NoPoint),
    }
}

fn judge_put(contents: &Contents, shelf: &Shelf, spot: &Spot) -> Verdict
    requires { IsValid contents.now.state }
    ensures { (time : ℕ) → result
        ≡ verdict_at contents.now.state time (Request.PutShelf shelf.now spot.now) }
{
    let shelves = contents.shelves();
    match shelves.place_for(spot, &shelf.name) {
        Some(place) => {
            let reply = made_or_replaced(shelves.place_of(&shelf.name));
            judge_place(contents, shelf, place, reply)
        }
        None => Verdict::Refuse(Refusal::NoPoint),
    }
}

fn made_or_replaced(before: Option<usize>) -> Reply
    ensures { result ≡ made_or_replaced before }
{
    match before {
        Some(_) => Reply::Replaced,
        None => Reply::Made,
    }
}

/// The verdict on a shelf that is to stand at this position among those of other names.
pub(crate) fn judge_place(contents: &Contents, shelf: &Shelf, place: usize, reply: Reply) -> Verdict
    requires valid { IsValid contents.now.state }
    requires within { place ≤ length (without shelf.now.name contents.now.state.shelves) }
    ensures { (time : ℕ) → result
        ≡ judged None (changes contents.now.state time (Event.PutShelf shelf.now place))
        (full contents.now.state time (Event.PutShelf shelf.now place)) reply }
{
    let shelves = contents.shelves();
    let there = stands_at(shelves, shelf, place);
    let fits = shelf_fits(shelves, &shelf.name);
    judge(None, !there, room(contents, true, fits), reply)
}

/// Whether a shelf of the name goes, or there is room for one more.
fn shelf_fits(shelves: &Shelves, name: &Text) -> bool
    ensures { result ≡ (is_some (place_of name.now shelves.now.shelves)
        || nat_lt (length shelves.now.shelves) most_shelves) }
{
    shelves.place_of(name).is_some() || shelves.len() < MOST_SHELVES
}

/// Whether this very shelf stands at the position.
fn stands_at(shelves: &Shelves, shelf: &Shelf, place: usize) -> bool
    ensures { IsTrue result ↔ (slice_get shelves.now.shelves place ≡ Some shelf.now) }
{
    match shelves.at(place) {
        Some(other) => *other == *shelf,
        None => false,
    }
}

pub(crate) fn judge_drop(contents: &Contents, name: &Text) -> Verdict
    requires { IsValid contents.now.state }
    ensures { (time : ℕ) → result
        ≡ verdict_at contents.now.state time (Request.DropShelf name.now) }
{
    match contents.shelves().place_of(name) {
        Some(_) => judge(None, true, room(contents, true, true), Reply::Done),
        None => Verdict::Refuse(Refusal::NoShelf),
    }
}

// ---- purges and compressions

pub(crate) fn judge_purge(
    contents: &Contents,
    side: Side,
    chosen: &PurgeFilter,
    time: u64,
) -> Verdict
    requires { IsValid contents.now.state }
    ensures { result ≡ verdict_at contents.now.state time (Request.Purge side chosen.now) }
{
    judge_count(contents, count_going(contents.alarms(), side, chosen, time))
}

fn count_going(alarms: &[Alarm], side: Side, chosen: &PurgeFilter, time: u64) -> usize
    ensures { result ≡ length (filter (λ v. goes side chosen.now time v.state) alarms.now) }
{
    alarms
        .iter()
        .filter(|alarm| alarm.goes(side, chosen, time))
        .count()
}

pub(crate) fn judge_compression(contents: &Contents, side: Side, chosen: &CompressFilter) -> Verdict
    requires { IsValid contents.now.state }
    ensures { (time : ℕ) → result
        ≡ verdict_at contents.now.state time (Request.Compress side chosen.now) }
{
    judge_count(contents, count_losing(contents.alarms(), side, chosen))
}

fn count_losing(alarms: &[Alarm], side: Side, chosen: &CompressFilter) -> usize
    ensures { result ≡ length (filter (λ v. loses side chosen.now v.state) alarms.now) }
{
    alarms
        .iter()
        .filter(|alarm| alarm.loses(side, chosen))
        .count()
}

/// The verdict on a change of so many alarms.
fn judge_count(contents: &Contents, count: usize) -> Verdict
    requires { count ≤ most_alarms }
    ensures { result ≡ judged None (nat_lt 0 count) (room_for true true contents.now.state.time)
        (Reply.Count count) }
{
    judge(
        None,
        count > 0,
        room(contents, true, true),
        Reply::Count(count as u32),
    )
}

// ---- inventories

pub(crate) fn judge_installation(contents: &Contents) -> Verdict
    requires { IsValid contents.now.state }
    ensures { (time : ℕ) (inventory : InventoryView)
        → result ≡ verdict_at contents.now.state time (Request.Install inventory) }
{
    match contents.inventory() {
        None => judge(None, true, room(contents, true, true), Reply::Done),
        Some(_) => Verdict::Refuse(Refusal::Installed),
    }
}

// ---- events

/// The event by which a request is carried out. It has what the request has, uncopied.
fn event_of(contents: &Contents, request: Request) -> Event
    requires { IsValid contents.now.state }
    ensures { result ≡ event_of contents.now.state request }
{
    let place = shelf_place(contents, &request);
    request.into_event(contents.rule(), place)
}

/// Where the shelf of a request is to stand, if it puts one.
fn shelf_place(contents: &Contents, request: &Request) -> u8
    requires { IsValid contents.now.state }
    ensures { result ≡ shelf_place contents.now.state request.now }
{
    match request {
        Request::CreateShelf { shelf, spot } | Request::PutShelf { shelf, spot } => place_for(
            contents, shelf, spot,
        ),
        _ => 0,
    }
}

/// The position of the spot, the first where its point isn't there.
fn place_for(contents: &Contents, shelf: &Shelf, spot: &Spot) -> u8
    requires { IsValid contents.now.state }
    ensures { result ≡ unwrap_or (place_for spot.now shelf.now.name contents.now.state.shelves) 0 }
{
    let shelves = contents.shelves();
    shelves.place_for(spot, &shelf.name).unwrap_or(0) as u8
}
