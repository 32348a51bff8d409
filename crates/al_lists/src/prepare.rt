ghost use Rattle.std.specs.Prelude.{◌≡◌, IfOk};
ghost use Rattle.al_model.specs.History.{Fits};
ghost use Rattle.al_model.specs.Validity.{IsValid};
ghost use Rattle.al_lists.specs.Prepares.{Prepares};

mod choose;
mod moves;
mod operate;
mod report;
mod shelve;

use crate::prepared::Prepared;
use al_contents::Contents;
use al_model::{Entry, Event};
use std::alloc::{AllocError, Global};

/// Takes the memory for all that an entry does, and says what that is.
pub(crate) fn prepare(
    alloc: Global,
    contents: &mut Contents,
    entry: &Entry,
) -> Result<Prepared, AllocError>
    requires valid { IsValid contents.old.state }
    requires fits { Fits contents.old.state entry.now }
    ensures state { contents.new.state ≡ contents.old.state }
    ensures ok { IfOk result (Prepares contents.new entry.now.time entry.now.event) }
{
    let time = entry.time;
    match &entry.event {
        Event::Report { key, status, text } => report::report(
            alloc, contents, time, key, *status, text,
        ),
        Event::Operate {
            key,
            state,
            operator,
            text,
        } => operate::operate(alloc, contents, time, key, *state, operator, text),
        Event::SetMax(max) => Ok(choose::set_max(contents, time, *max)),
        Event::SetNotify(rule) => Ok(choose::set_rule(time, *rule)),
        Event::PutShelf { shelf, at } => shelve::put(alloc, contents, time, shelf, *at),
        Event::DropShelf { name } => shelve::drop_shelf(alloc, contents, time, name),
        Event::Purge { side, filter } => choose::purge(alloc, time, *side, filter),
        Event::Compress { side, filter } => choose::compress(alloc, time, *side, filter),
        Event::Install(inventory) => shelve::install(alloc, contents, time, inventory),
    }
}
