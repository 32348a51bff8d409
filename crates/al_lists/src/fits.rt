ghost use Rattle.std.specs.Prelude.{◌≡◌, ◌==◌, ◌↔◌, ℕ, IsTrue, length};
ghost use Rattle.al_base.specs.Names.{rank_of};
ghost use Rattle.al_model.specs.History.{Fits};
ghost use Rattle.al_model.specs.Limits.{IsEntryWithin};
ghost use Rattle.al_model.specs.Sames.{same_mode};
ghost use Rattle.al_model.specs.Validity.{IsValid};
ghost use Rattle.al_shelf.specs.Places.{without};
ghost use Rattle.al_lists.specs.Asked.{IsAsked};

use crate::decide::{
    judge_compression, judge_drop, judge_installation, judge_level, judge_max, judge_mode,
    judge_operate, judge_place, judge_purge, judge_report,
};
use al_base::{Severity, Text};
use al_contents::Contents;
use al_model::{Entry, Event, Reply};
use al_notify::{Mode, NotifyRule};
use al_shelf::{Shelf, Shelves};

/// Whether the entry may come next. It can't fail, whatever memory there is.
pub(crate) fn fits(contents: &Contents, entry: &Entry) -> bool
    requires valid { IsValid contents.now.state }
    requires within { IsEntryWithin entry.now }
    ensures { IsTrue result ↔ Fits contents.now.state entry.now }
{
    let time = entry.time.ms();
    if time <= contents.time().ms() {
        return false;
    }
    is_asked(contents, &entry.event, time)
}

/// Whether there is a request that asks for the event and would be carried out by it at the time, in milliseconds.
fn is_asked(contents: &Contents, event: &Event, time: u64) -> bool
    requires { IsValid contents.now.state }
    ensures { IsTrue result ↔ IsAsked contents.now.state time event.now }
{
    match event {
        Event::Report { key, status, text } => judge_report(
            contents, key, *status, text,
        ).is_change(),
        Event::Operate {
            key,
            state: _,
            operator: _,
            text: _,
        } => judge_operate(contents, key).is_change(),
        Event::SetMax(max) => judge_max(contents, *max).is_change(),
        Event::SetNotify(rule) => is_rule_asked(contents, *rule),
        Event::PutShelf { shelf, at } => is_place_asked(contents, shelf, usize::from(*at)),
        Event::DropShelf { name } => judge_drop(contents, name).is_change(),
        Event::Purge { side, filter } => judge_purge(contents, *side, filter, time).is_change(),
        Event::Compress { side, filter } => judge_compression(contents, *side, filter).is_change(),
        Event::Install(_) => judge_installation(contents).is_change(),
    }
}

/// Whether a request for the rule's mode, or for its level, would be carried out by the rule.
fn is_rule_asked(contents: &Contents, rule: NotifyRule) -> bool
    requires { IsValid contents.now.state }
    ensures { (time : ℕ) → IsTrue result ↔ IsAsked contents.now.state time (Event.SetNotify rule) }
{
    let before = contents.rule();
    if is_same_mode(before.mode, rule.mode) {
        return judge_level(contents, rule.level).is_change();
    }
    if is_same_level(before.level, rule.level) {
        return judge_mode(contents, rule.mode).is_change();
    }
    false
}

fn is_same_mode(a: Mode, b: Mode) -> bool
    ensures { result ≡ same_mode a b }
{
    a == b
}

fn is_same_level(a: Severity, b: Severity) -> bool
    ensures { result ≡ (rank_of a == rank_of b) }
{
    a == b
}

/// Whether a request for the shelf at the position would be carried out.
fn is_place_asked(contents: &Contents, shelf: &Shelf, place: usize) -> bool
    requires { IsValid contents.now.state }
    ensures { (time : ℕ) → IsTrue result
        ↔ IsAsked contents.now.state time (Event.PutShelf shelf.now place) }
{
    if place > others(contents.shelves(), &shelf.name) {
        return false;
    }
    judge_place(contents, shelf, place, Reply::Done).is_change()
}

/// How many shelves have another name.
fn others(shelves: &Shelves, name: &Text) -> usize
    ensures { result ≡ length (without name.now shelves.now.shelves) }
{
    match shelves.place_of(name) {
        Some(_) => shelves.len() - 1,
        None => shelves.len(),
    }
}
