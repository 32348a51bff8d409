ghost use Rattle.al_uri.specs.Faults.{Answers};
ghost use Rattle.al_uri.specs.Limits.{IsTargetWithin};
ghost use Rattle.al_uri.specs.Targets.{target_of};
ghost use Rattle.std.specs.Option.{option_copied};
ghost use Rattle.std.specs.Prelude.{◌≡◌, IfOk, Ok, true};

use crate::fault::UriFault;
use crate::place::Place;
use crate::{path, query};
use al_base::Text;
use al_ids::AlarmKey;
use al_shelf::Spot;
use std::alloc::Global;

/// What a path and a query name. The paths are told below; A is `/restconf/data/ietf-alarms:alarms`, and below it each name may be
/// written with the module `ietf-alarms` or without it.
#[derive(Debug, Drop)]
pub enum Target {
    /// `/.well-known/host-meta` (RFC 8040, section 3.1)
    HostMeta,
    /// A
    Alarms,
    /// A`/control`
    Control,
    /// A`/control/max-alarm-status-changes`
    MaxChanges,
    /// A`/control/notify-status-changes`
    NotifyMode,
    /// A`/control/notify-severity-level`
    NotifyLevel,
    /// A`/control/alarm-shelving`, with the spot that the query asks for: Keep where it has no `insert`
    Shelving { spot: Spot },
    /// A`/control/alarm-shelving/shelf=NAME`, with the spot that the query asks for
    OneShelf { name: Text, spot: Spot },
    /// A`/alarm-inventory`
    AlarmInventory,
    /// A`/summary`
    Summary,
    /// A`/alarm-list`
    AlarmList,
    /// A`/alarm-list/number-of-alarms`
    AlarmCount,
    /// A`/alarm-list/last-changed`
    AlarmsChanged,
    /// A`/alarm-list/alarm=RESOURCE,TYPE,QUALIFIER`
    OneAlarm { key: AlarmKey },
    /// A`/alarm-list/alarm=RESOURCE,TYPE,QUALIFIER/set-operator-state`
    SetState { key: AlarmKey },
    /// A`/alarm-list/purge-alarms`
    PurgeAlarms,
    /// A`/alarm-list/compress-alarms`
    CompressAlarms,
    /// A`/shelved-alarms`
    ShelvedAlarms,
    /// A`/shelved-alarms/number-of-shelved-alarms`
    ShelvedCount,
    /// A`/shelved-alarms/shelved-alarms-last-changed`
    ShelvedChanged,
    /// A`/shelved-alarms/shelved-alarm=RESOURCE,TYPE,QUALIFIER`
    OneShelved { key: AlarmKey },
    /// A`/shelved-alarms/purge-shelved-alarms`
    PurgeShelved,
    /// A`/shelved-alarms/compress-shelved-alarms`
    CompressShelved,
    /// `/restconf/operations/alarmd:report`
    Report,
    /// `/restconf/data/alarmd:inventory`
    Inventory,
    /// `/restconf/data/alarmd:notification-log`, from the note of this number on: 1 where the query has no `from`
    NotificationLog { start: u32 },
    /// `/restconf/data/alarmd:journal`, from the entry of this number on: 0 where the query has no `from`
    JournalPage { start: u32 },
}

impl Target {
    /// What the path and the query name: the bytes of a request's target before its first `?`, and those behind it where it has one.
    #[tactic(auto, unfolding(crate::specs::Targets::target_of))]
    pub fn read(alloc: Global, path: &[u8], query: Option<&[u8]>) -> Result<Target, UriFault>
        ensures exact { Answers (target_of path.now (option_copied query.entry)) result }
        ensures within { IfOk result IsTargetWithin }
    {
        if is_plain_report(path, query) {
            return Ok(Target::Report);
        }
        let place = path::walk(alloc, Place::Start, path)?;
        let target = place.resource()?;
        let asked = query::read(alloc, target.known(), query)?;
        target.with_parameters(asked)
    }
}

/// Whether it is the path of reports as instrumentation mostly spells it. It is known without a walk, since most requests of a server have it.
fn is_plain_report(path: &[u8], query: Option<&[u8]>) -> bool
    ensures { result ≡ true → target_of path.now (option_copied query.entry) ≡ Ok Target.Report }
{
    match query {
        None => path == b"/restconf/operations/alarmd:report".as_slice(),
        Some(_) => false,
    }
}
