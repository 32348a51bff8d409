//! The filters of purges and compressions.

ghost use Rattle.al_frame.specs.Formats.{Gives, checked, number};
ghost use Rattle.al_base.specs.Limits.{is_age as is_age_of};
ghost use Rattle.al_frame.specs.Frames.{asked, compress, compressed, event_by, purge, purged, sided_compress, sided_purge};
ghost use Rattle.std.specs.Int.{w64};
ghost use Rattle.std.specs.Prelude.{◌≡◌, ◌++◌, true, OnOk};

use crate::fault::FrameFault;
use crate::field::{Field, Opt};
use crate::number::{bad, put_u64, u64_at};
use crate::report::Qualifier;
use crate::text::{MatchText, TextOf, TypeName};
use crate::word::{Coded, Word};
use al_base::limits::{LONGEST_OPERATOR_NAME, MOST_AGE_UNITS};
use al_base::{OperatorState, Severity};
use al_model::{Event, Side};
use al_select::{Clearance, Compare, CompressFilter, PurgeFilter};
use std::alloc::{AllocError, Global};

/// The milliseconds of a second, a minute, an hour, a day and a week.
const AGE_UNITS: [u64; 5] = [1000, 60_000, 3_600_000, 86_400_000, 604_800_000];

/// An age in milliseconds, which is up to 65,535 of a unit.
pub struct Age;

impl Field for Age {
    type Value = u64;

    ghost format = { checked is_age_of (number w64) };

    #[tactic(auto, unfolding(crate::specs::Formats::passed))]
    fn read(_alloc: Global, n: usize, bytes: &[u8]) -> Result<(u64, &[u8]), FrameFault> {
        let (age, rest) = u64_at(n, bytes)?;
        if !is_age(age) {
            return Err(bad(n, bytes));
        }
        Ok((age, rest))
    }

    fn len(_age: &u64) -> usize {
        8
    }

    fn put(age: &u64, out: &mut Vec<u8>) -> Result<(), AllocError> {
        put_u64(*age, out)
    }
}

#[tactic(auto, unfolding(al_base::specs::Limits::is_age))]
fn is_age(age: u64) -> bool
    ensures { result ≡ is_age_of age }
{
    AGE_UNITS.iter().any(|unit| age % unit == 0 && age / unit <= u64::from(MOST_AGE_UNITS))
}

/// How an alarm's severity has to stand to another: 0 where nothing is asked.
pub struct Asked;

impl Field for Asked {
    type Value = Option<(Compare, Severity)>;

    ghost format = { asked };

    #[tactic(auto, unfolding(crate::specs::Frames::asked_at))]
    fn read(
        alloc: Global,
        n: usize,
        bytes: &[u8],
    ) -> Result<(Option<(Compare, Severity)>, &[u8]), FrameFault> {
        match bytes {
            [] => Err(FrameFault::Truncated(n)),
            [0, rest @ ..] => Ok((None, rest)),
            [code, rest @ ..] => match Compare::of(*code) {
                Some(compare) => {
                    let (severity, rest) = Coded::<Severity>::read(alloc, n, rest)?;
                    Ok((Some((compare, severity)), rest))
                }
                None => Err(bad(n, bytes)),
            },
        }
    }

    fn len(asked: &Option<(Compare, Severity)>) -> usize {
        match asked {
            None => 1,
            Some(_) => 2,
        }
    }

    fn put(asked: &Option<(Compare, Severity)>, out: &mut Vec<u8>) -> Result<(), AllocError> {
        match asked {
            None => out.push(0)?,
            Some((compare, severity)) => {
                out.push(compare.code())?;
                out.push(severity.code())?;
            }
        }
        Ok(())
    }
}

type State = Opt<Coded<OperatorState>>;

type User = Opt<TextOf<0, LONGEST_OPERATOR_NAME>>;

/// Which alarms a purge removes.
pub struct PurgeFields;

impl Field for PurgeFields {
    type Value = PurgeFilter;

    ghost format = { purge };

    #[tactic(auto, unfolding(crate::specs::Frames::purge))]
    fn read(alloc: Global, n: usize, bytes: &[u8]) -> Result<(PurgeFilter, &[u8]), FrameFault> {
        let (clearance, rest) = Coded::<Clearance>::read(alloc, n, bytes)?;
        let (age, rest) = Opt::<Age>::read(alloc, n, rest)?;
        let (severity, rest) = Asked::read(alloc, n, rest)?;
        let (state, rest) = State::read(alloc, n, rest)?;
        let (user, rest) = User::read(alloc, n, rest)?;
        let filter = PurgeFilter {
            clearance,
            age,
            severity,
            state,
            user,
        };
        Ok((filter, rest))
    }

    #[tactic(auto, unfolding(crate::specs::Frames::purge))]
    fn len(filter: &PurgeFilter) -> usize {
        Coded::<Clearance>::len(&filter.clearance)
            .saturating_add(Opt::<Age>::len(&filter.age))
            .saturating_add(Asked::len(&filter.severity))
            .saturating_add(State::len(&filter.state))
            .saturating_add(User::len(&filter.user))
    }

    #[tactic(auto, unfolding(crate::specs::Frames::purge))]
    fn put(filter: &PurgeFilter, out: &mut Vec<u8>) -> Result<(), AllocError> {
        Coded::<Clearance>::put(&filter.clearance, out)?;
        Opt::<Age>::put(&filter.age, out)?;
        Asked::put(&filter.severity, out)?;
        State::put(&filter.state, out)?;
        User::put(&filter.user, out)
    }
}

/// Which alarms a compression shortens.
pub struct CompressFields;

impl Field for CompressFields {
    type Value = CompressFilter;

    ghost format = { compress };

    #[tactic(auto, unfolding(crate::specs::Frames::compress))]
    fn read(alloc: Global, n: usize, bytes: &[u8]) -> Result<(CompressFilter, &[u8]), FrameFault> {
        let (resource, rest) = Opt::<MatchText>::read(alloc, n, bytes)?;
        let (type_id, rest) = Opt::<TypeName>::read(alloc, n, rest)?;
        let (qualifier, rest) = Opt::<Qualifier>::read(alloc, n, rest)?;
        let filter = CompressFilter {
            resource,
            type_id,
            qualifier,
        };
        Ok((filter, rest))
    }

    #[tactic(auto, unfolding(crate::specs::Frames::compress))]
    fn len(filter: &CompressFilter) -> usize {
        Opt::<MatchText>::len(&filter.resource)
            .saturating_add(Opt::<TypeName>::len(&filter.type_id))
            .saturating_add(Opt::<Qualifier>::len(&filter.qualifier))
    }

    #[tactic(auto, unfolding(crate::specs::Frames::compress))]
    fn put(filter: &CompressFilter, out: &mut Vec<u8>) -> Result<(), AllocError> {
        Opt::<MatchText>::put(&filter.resource, out)?;
        Opt::<TypeName>::put(&filter.type_id, out)?;
        Opt::<Qualifier>::put(&filter.qualifier, out)
    }
}

pub fn purge_at(alloc: Global, n: usize, bytes: &[u8]) -> Result<(Event, &[u8]), FrameFault>
    ensures { Gives (λ x. (x.0, x.1.now)) result (event_by purged sided_purge n bytes.now) }
{
    let (side, rest) = Coded::<Side>::read(alloc, n, bytes)?;
    let (filter, rest) = PurgeFields::read(alloc, n, rest)?;
    Ok((Event::Purge { side, filter }, rest))
}

pub fn compress_at(alloc: Global, n: usize, bytes: &[u8]) -> Result<(Event, &[u8]), FrameFault>
    ensures { Gives (λ x. (x.0, x.1.now)) result (event_by compressed sided_compress n bytes.now) }
{
    let (side, rest) = Coded::<Side>::read(alloc, n, bytes)?;
    let (filter, rest) = CompressFields::read(alloc, n, rest)?;
    Ok((Event::Compress { side, filter }, rest))
}

pub fn put_purge(side: &Side, filter: &PurgeFilter, out: &mut Vec<u8>) -> Result<(), AllocError>
    requires { sided_purge.fits (side.now, filter.now) ≡ true }
    ensures { OnOk result (out.new.items
        ≡ out.old.items ++ sided_purge.spell (side.now, filter.now)) }
{
    Coded::<Side>::put(side, out)?;
    PurgeFields::put(filter, out)
}

pub fn put_compress(
    side: &Side,
    filter: &CompressFilter,
    out: &mut Vec<u8>,
) -> Result<(), AllocError>
    requires { sided_compress.fits (side.now, filter.now) ≡ true }
    ensures { OnOk result (out.new.items
        ≡ out.old.items ++ sided_compress.spell (side.now, filter.now)) }
{
    Coded::<Side>::put(side, out)?;
    CompressFields::put(filter, out)
}
