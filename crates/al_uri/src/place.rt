//! The tree of names: where each leads.

ghost use Rattle.al_uri.specs.Resources.{child, unqualified, way_of, ways};
ghost use Rattle.al_uri.specs.Faults.{Answers};
ghost use Rattle.al_uri.specs.Paths.{resource_at};
ghost use Rattle.std.specs.Prelude.{◌≡◌};

use crate::fault::UriFault;
use crate::target::Target;
use al_shelf::Spot;

/// Where a path has led.
#[derive(Drop)]
pub enum Place {
    /// `/`
    Start,
    /// `/.well-known`
    WellKnown,
    /// `/restconf`
    Restconf,
    /// `/restconf/data`
    Data,
    /// `/restconf/operations`
    Operations,
    /// At a resource, without a query.
    At(Target),
}

/// Where a name leads.
#[derive(Drop)]
pub enum Way {
    To(Place),
    /// To the shelf that the key names.
    ToShelf,
    /// To the alarm on the list that the keys name.
    ToAlarm,
    /// To the alarm on the shelf that the keys name.
    ToShelved,
}

impl Place {
    /// The resource at the place; NoSuchPath where there is none.
    pub fn resource(self) -> Result<Target, UriFault>
        ensures { Answers (resource_at self) result }
    {
        match self {
            Place::At(target) => Ok(target),
            _ => Err(UriFault::NoSuchPath),
        }
    }

    /// Where the name leads from the place, if it stands there.
    #[tactic(auto, unfolding(crate::specs::Resources::child))]
    pub fn child(self, name: &[u8]) -> Option<Way>
        ensures { result ≡ child self name.now }
    {
        match self {
            Place::Start => start_way(name),
            Place::WellKnown => well_known_way(name),
            Place::Restconf => restconf_way(name),
            Place::Data => data_way(name),
            Place::Operations => operations_way(name),
            Place::At(target) => target.way(unqualified(name)),
        }
    }
}

fn to(target: Target) -> Option<Way>
    ensures { result ≡ Some (Way.To (Place.At target)) }
{
    Some(Way::To(Place::At(target)))
}

fn start_way(name: &[u8]) -> Option<Way>
    ensures { result ≡ way_of name.now (ways Place.Start) }
{
    if name == b".well-known".as_slice() {
        Some(Way::To(Place::WellKnown))
    } else if name == b"restconf".as_slice() {
        Some(Way::To(Place::Restconf))
    } else {
        None
    }
}

fn well_known_way(name: &[u8]) -> Option<Way>
    ensures { result ≡ way_of name.now (ways Place.WellKnown) }
{
    if name == b"host-meta".as_slice() {
        to(Target::HostMeta)
    } else {
        None
    }
}

fn restconf_way(name: &[u8]) -> Option<Way>
    ensures { result ≡ way_of name.now (ways Place.Restconf) }
{
    if name == b"data".as_slice() {
        Some(Way::To(Place::Data))
    } else if name == b"operations".as_slice() {
        Some(Way::To(Place::Operations))
    } else {
        None
    }
}

fn operations_way(name: &[u8]) -> Option<Way>
    ensures { result ≡ way_of name.now (ways Place.Operations) }
{
    if name == b"alarmd:report".as_slice() {
        to(Target::Report)
    } else {
        None
    }
}

fn data_way(name: &[u8]) -> Option<Way>
    ensures { result ≡ way_of name.now (ways Place.Data) }
{
    if name == b"ietf-alarms:alarms".as_slice() {
        to(Target::Alarms)
    } else if name == b"alarmd:inventory".as_slice() {
        to(Target::Inventory)
    } else if name == b"alarmd:notification-log".as_slice() {
        to(Target::NotificationLog { start: 1 })
    } else if name == b"alarmd:journal".as_slice() {
        to(Target::JournalPage { start: 0 })
    } else {
        None
    }
}

/// The name without the module `ietf-alarms`, where it is written with it.
#[tactic(auto, unfolding(crate::specs::Resources::unqualified))]
fn unqualified(name: &[u8]) -> &[u8]
    ensures { result.now ≡ unqualified name.now }
{
    match name.strip_prefix(b"ietf-alarms:".as_slice()) {
        Some(plain) => plain,
        None => name,
    }
}

impl Target {
    /// Where a name, without its module, leads from the resource.
    fn way(self, name: &[u8]) -> Option<Way>
        ensures { result ≡ way_of name.now (ways (Place.At self)) }
    {
        match self {
            Target::Alarms => alarms_way(name),
            Target::Control => control_way(name),
            Target::Shelving { spot: _ } => shelving_way(name),
            Target::AlarmList => list_way(name),
            Target::OneAlarm { key } => {
                if name == b"set-operator-state".as_slice() {
                    to(Target::SetState { key })
                } else {
                    None
                }
            }
            Target::ShelvedAlarms => shelved_way(name),
            _ => None,
        }
    }
}

fn alarms_way(name: &[u8]) -> Option<Way>
    ensures { result ≡ way_of name.now (ways (Place.At Target.Alarms)) }
{
    if name == b"control".as_slice() {
        to(Target::Control)
    } else if name == b"alarm-inventory".as_slice() {
        to(Target::AlarmInventory)
    } else if name == b"summary".as_slice() {
        to(Target::Summary)
    } else if name == b"alarm-list".as_slice() {
        to(Target::AlarmList)
    } else if name == b"shelved-alarms".as_slice() {
        to(Target::ShelvedAlarms)
    } else {
        None
    }
}

fn control_way(name: &[u8]) -> Option<Way>
    ensures { result ≡ way_of name.now (ways (Place.At Target.Control)) }
{
    if name == b"max-alarm-status-changes".as_slice() {
        to(Target::MaxChanges)
    } else if name == b"notify-status-changes".as_slice() {
        to(Target::NotifyMode)
    } else if name == b"notify-severity-level".as_slice() {
        to(Target::NotifyLevel)
    } else if name == b"alarm-shelving".as_slice() {
        to(Target::Shelving { spot: Spot::Keep })
    } else {
        None
    }
}

fn shelving_way(name: &[u8]) -> Option<Way>
    ensures { result ≡ way_of name.now (ways (Place.At (Target.Shelving Spot.Keep))) }
{
    if name == b"shelf".as_slice() {
        Some(Way::ToShelf)
    } else {
        None
    }
}

fn list_way(name: &[u8]) -> Option<Way>
    ensures { result ≡ way_of name.now (ways (Place.At Target.AlarmList)) }
{
    if name == b"alarm".as_slice() {
        Some(Way::ToAlarm)
    } else if name == b"number-of-alarms".as_slice() {
        to(Target::AlarmCount)
    } else if name == b"last-changed".as_slice() {
        to(Target::AlarmsChanged)
    } else if name == b"purge-alarms".as_slice() {
        to(Target::PurgeAlarms)
    } else if name == b"compress-alarms".as_slice() {
        to(Target::CompressAlarms)
    } else {
        None
    }
}

fn shelved_way(name: &[u8]) -> Option<Way>
    ensures { result ≡ way_of name.now (ways (Place.At Target.ShelvedAlarms)) }
{
    if name == b"shelved-alarm".as_slice() {
        Some(Way::ToShelved)
    } else if name == b"number-of-shelved-alarms".as_slice() {
        to(Target::ShelvedCount)
    } else if name == b"shelved-alarms-last-changed".as_slice() {
        to(Target::ShelvedChanged)
    } else if name == b"purge-shelved-alarms".as_slice() {
        to(Target::PurgeShelved)
    } else if name == b"compress-shelved-alarms".as_slice() {
        to(Target::CompressShelved)
    } else {
        None
    }
}
