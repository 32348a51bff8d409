//! Events: a byte for the kind, and the kind's fields.

ghost use Rattle.al_frame.specs.Formats.{Gives};
ghost use Rattle.al_frame.specs.Frames.{event, event_by, fits_event, inventory, kind_at, kind_of, maximum, rule, shelf_dropped, shelf_name, spelled_fields};
ghost use Rattle.std.specs.Prelude.{◌≡◌, ◌++◌, true, OnOk, length, min};

use crate::criteria::{ShelfFields, ShelfName, put_shelf, shelf_put_at};
use crate::fault::FrameFault;
use crate::field::Field;
use crate::filter::{CompressFields, PurgeFields, compress_at, purge_at, put_compress, put_purge};
use crate::inventory::InventoryFields;
use crate::number::{place, u8_at};
use crate::report::{operate_at, operate_len, put_operate, put_report, report_at, report_len};
use crate::rules::{Maximum, Rule};
use crate::word::Coded;
use al_model::{Event, Side};
use std::alloc::{AllocError, Global};

/// What happened.
pub struct EventFields;

impl Field for EventFields {
    type Value = Event;

    ghost format = { event };

    #[tactic(auto, unfolding(crate::specs::Frames::event_at))]
    fn read(alloc: Global, n: usize, bytes: &[u8]) -> Result<(Event, &[u8]), FrameFault> {
        let (kind, rest) = u8_at(n, bytes)?;
        fields_at(alloc, kind, place(n, bytes), n, rest)
    }

    fn len(event: &Event) -> usize {
        fields_len(event).saturating_add(1)
    }

    fn put(event: &Event, out: &mut Vec<u8>) -> Result<(), AllocError> {
        out.push(kind_of(event))?;
        put_fields(event, out)
    }
}

/// The event of a kind, whose byte stands at this place, from its fields.
fn fields_at(
    alloc: Global,
    kind: u8,
    place: usize,
    n: usize,
    bytes: &[u8],
) -> Result<(Event, &[u8]), FrameFault>
    ensures { Gives (λ x. (x.0, x.1.now)) result (kind_at kind place n bytes.now) }
{
    match kind {
        1 => report_at(alloc, n, bytes),
        2 => operate_at(alloc, n, bytes),
        3 => set_max_at(alloc, n, bytes),
        4 => set_notify_at(alloc, n, bytes),
        5 => shelf_put_at(alloc, n, bytes),
        6 => shelf_dropped_at(alloc, n, bytes),
        7 => purge_at(alloc, n, bytes),
        8 => compress_at(alloc, n, bytes),
        9 => install_at(alloc, n, bytes),
        _ => Err(FrameFault::Byte(place)),
    }
}

fn set_max_at(alloc: Global, n: usize, bytes: &[u8]) -> Result<(Event, &[u8]), FrameFault>
    ensures { Gives (λ x. (x.0, x.1.now)) result (event_by Event.SetMax maximum n bytes.now) }
{
    let (max, rest) = Maximum::read(alloc, n, bytes)?;
    Ok((Event::SetMax(max), rest))
}

fn set_notify_at(alloc: Global, n: usize, bytes: &[u8]) -> Result<(Event, &[u8]), FrameFault>
    ensures { Gives (λ x. (x.0, x.1.now)) result (event_by Event.SetNotify rule n bytes.now) }
{
    let (rule, rest) = Rule::read(alloc, n, bytes)?;
    Ok((Event::SetNotify(rule), rest))
}

fn shelf_dropped_at(alloc: Global, n: usize, bytes: &[u8]) -> Result<(Event, &[u8]), FrameFault>
    ensures { Gives (λ x. (x.0, x.1.now)) result (event_by shelf_dropped shelf_name n bytes.now) }
{
    let (name, rest) = ShelfName::read(alloc, n, bytes)?;
    Ok((Event::DropShelf { name }, rest))
}

fn install_at(alloc: Global, n: usize, bytes: &[u8]) -> Result<(Event, &[u8]), FrameFault>
    ensures { Gives (λ x. (x.0, x.1.now)) result (event_by Event.Install inventory n bytes.now) }
{
    let (inventory, rest) = InventoryFields::read(alloc, n, bytes)?;
    Ok((Event::Install(inventory), rest))
}

fn kind_of(event: &Event) -> u8
    ensures { result ≡ kind_of event.now }
{
    match event {
        Event::Report { .. } => 1,
        Event::Operate { .. } => 2,
        Event::SetMax(_) => 3,
        Event::SetNotify(_) => 4,
        Event::PutShelf { .. } => 5,
        Event::DropShelf { .. } => 6,
        Event::Purge { .. } => 7,
        Event::Compress { .. } => 8,
        Event::Install(_) => 9,
    }
}

fn fields_len(event: &Event) -> usize
    ensures { result ≡ min usize.MAX (length (spelled_fields event.now)) }
{
    match event {
        Event::Report { key, status, text } => report_len(key, status, text),
        Event::Operate {
            key,
            state,
            operator,
            text,
        } => operate_len(key, state, operator, text),
        Event::SetMax(max) => Maximum::len(max),
        Event::SetNotify(rule) => Rule::len(rule),
        Event::PutShelf { shelf, at: _ } => ShelfFields::len(shelf).saturating_add(1),
        Event::DropShelf { name } => ShelfName::len(name),
        Event::Purge { side, filter } => {
            Coded::<Side>::len(side).saturating_add(PurgeFields::len(filter))
        }
        Event::Compress { side, filter } => {
            Coded::<Side>::len(side).saturating_add(CompressFields::len(filter))
        }
        Event::Install(inventory) => InventoryFields::len(inventory),
    }
}

fn put_fields(event: &Event, out: &mut Vec<u8>) -> Result<(), AllocError>
    requires { fits_event event.now ≡ true }
    ensures { OnOk result (out.new.items ≡ out.old.items ++ spelled_fields event.now) }
{
    match event {
        Event::Report { key, status, text } => put_report(key, status, text, out),
        Event::Operate {
            key,
            state,
            operator,
            text,
        } => put_operate(key, state, operator, text, out),
        Event::SetMax(max) => Maximum::put(max, out),
        Event::SetNotify(rule) => Rule::put(rule, out),
        Event::PutShelf { shelf, at } => put_shelf(shelf, *at, out),
        Event::DropShelf { name } => ShelfName::put(name, out),
        Event::Purge { side, filter } => put_purge(side, filter, out),
        Event::Compress { side, filter } => put_compress(side, filter, out),
        Event::Install(inventory) => InventoryFields::put(inventory, out),
    }
}
