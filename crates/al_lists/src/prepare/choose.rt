ghost use Rattle.std.specs.List.{list_any};
ghost use Rattle.std.specs.Prelude.{◌≡◌, ◌&&◌, IfOk};
ghost use Rattle.al_model.specs.Validity.{IsValid};
ghost use Rattle.al_model.specs.declared.event.Event.TheVariants as events;
ghost use Rattle.al_contents.specs.Views.{is_at, states};
ghost use Rattle.al_lists.specs.Moves.{is_cut, is_in};
ghost use Rattle.al_lists.specs.Prepares.{Prepares, PreparesAnywhere};

use crate::prepared::Prepared;
use al_base::{Copied, Stamp};
use al_contents::{Alarm, Change, Contents};
use al_model::Side;
use al_notify::NotifyRule;
use al_select::{CompressFilter, PurgeFilter};
use std::alloc::{AllocError, Global};

/// Prepares that each alarm keeps so many status entries, or all.
pub(crate) fn set_max(contents: &Contents, time: Stamp, max: Option<u16>) -> Prepared
    requires { IsValid contents.now.state }
    ensures { Prepares contents.now time (events.SetMax max) result }
{
    Prepared {
        time,
        change: Change::Max(max),
        note: None,
        list: cuts(contents.alarms(), Side::List, max),
        shelf: cuts(contents.alarms(), Side::Shelf, max),
    }
}

/// Whether an alarm of the side has more status entries than this maximum allows.
fn cuts(alarms: &[Alarm], side: Side, max: Option<u16>) -> bool
    ensures { result ≡ list_any (λ a. is_at side a && is_cut max a) (states alarms.now) }
{
    alarms
        .iter()
        .any(|alarm| alarm.is_at(side) && is_cut(alarm, max))
}

fn is_cut(alarm: &Alarm, max: Option<u16>) -> bool
    ensures { result ≡ is_cut max alarm.now.state }
{
    match max {
        Some(most) => alarm.statuses() > usize::from(most),
        None => false,
    }
}

/// Prepares that status changes are told by this rule.
pub(crate) fn set_rule(time: Stamp, rule: NotifyRule) -> Prepared
    ensures { PreparesAnywhere time (events.SetNotify rule) result }
{
    Prepared {
        time,
        change: Change::Rule(rule),
        note: None,
        list: false,
        shelf: false,
    }
}

/// Prepares a purge, by which an alarm of the side goes.
pub(crate) fn purge(
    alloc: Global,
    time: Stamp,
    side: Side,
    filter: &PurgeFilter,
) -> Result<Prepared, AllocError>
    ensures { IfOk result (PreparesAnywhere time (events.Purge side filter.now)) }
{
    Ok(Prepared {
        time,
        change: Change::Purge {
            side,
            filter: filter.copy(alloc)?,
        },
        note: None,
        list: is_in(side, Side::List),
        shelf: is_in(side, Side::Shelf),
    })
}

/// Prepares a compression, by which an alarm of the side loses entries.
pub(crate) fn compress(
    alloc: Global,
    time: Stamp,
    side: Side,
    filter: &CompressFilter,
) -> Result<Prepared, AllocError>
    ensures { IfOk result (PreparesAnywhere time (events.Compress side filter.now)) }
{
    Ok(Prepared {
        time,
        change: Change::Compress {
            side,
            filter: filter.copy(alloc)?,
        },
        note: None,
        list: is_in(side, Side::List),
        shelf: is_in(side, Side::Shelf),
    })
}

/// Whether alarms that are chosen on one side are on the other one.
fn is_in(chosen: Side, side: Side) -> bool
    ensures { result ≡ is_in chosen side }
{
    match chosen {
        Side::List => matches!(side, Side::List),
        Side::Shelf => matches!(side, Side::Shelf),
    }
}
