//! Members of objects.

ghost use Rattle.al_input.specs.Faults.{Answers, Gives};
ghost use Rattle.al_input.specs.Members.{is_among, known_only, names_in, one_of, optional, required, value_at, with_default};
ghost use Rattle.serde_json.specs.View.{members_view, view};
ghost use Rattle.std.specs.List.{list_all};
ghost use Rattle.std.specs.Option.{option_map};
ghost use Rattle.std.specs.Prelude.{◌≡◌, map};

use crate::fault::InputFault;
use crate::reader::Reader;
use serde_json::{Map, Value};
use std::alloc::Global;

/// Tests that the value is an object, and has no members but those of these names.
#[tactic(auto, unfolding(crate::specs::Members::known_only))]
pub fn check_names(value: &Value, known: &[&str]) -> Result<(), InputFault>
    ensures { Answers (known_only (map (λ name. name.now) known.now) (view value.now)) result }
{
    match value.as_object() {
        Some(members) if are_known(members, known) => Ok(()),
        Some(_) => Err(InputFault::Unknown),
        None => Err(InputFault::BadValue),
    }
}

fn are_known(members: &Map<String, Value>, known: &[&str]) -> bool
    ensures { result ≡ list_all (is_among (map (λ name. name.now) known.now))
        (names_in (members_view members.now.entries)) }
{
    for name in members.keys() {
        if !is_among(name.as_str(), known) {
            return false;
        }
    }
    true
}

fn is_among(name: &str, known: &[&str]) -> bool
    ensures { result ≡ is_among (map (λ name. name.now) known.now) name.now }
{
    for other in known {
        if name == *other {
            return true;
        }
    }
    false
}

/// What stands under one of the two spellings of a member's name.
#[tactic(auto, unfolding(crate::specs::Members::one_of))]
pub fn value_at<'v>(
    value: &'v Value,
    plain: &str,
    qualified: &str,
) -> Result<Option<&'v Value>, InputFault>
    ensures { Gives (option_map (λ v. view v.now)) result
        (value_at plain.now qualified.now (view value.now)) }
{
    match (value.get(plain), value.get(qualified)) {
        (None, found) => Ok(found),
        (found, None) => Ok(found),
        (Some(_), Some(_)) => Err(InputFault::BadValue),
    }
}

/// The value of a member that may be absent.
#[tactic(auto, unfolding(crate::specs::Members::optional))]
pub fn optional<R: Reader>(
    alloc: Global,
    value: &Value,
    plain: &str,
    qualified: &str,
) -> Result<Option<R::Output>, InputFault>
    ensures { Answers (optional plain.now qualified.now R.reads (view value.now)) result }
{
    match value_at(value, plain, qualified)? {
        Some(found) => Ok(Some(R::read(alloc, found)?)),
        None => Ok(None),
    }
}

/// The value of a member that has to be there.
#[tactic(auto, unfolding(crate::specs::Members::required))]
pub fn required<R: Reader>(
    alloc: Global,
    value: &Value,
    plain: &str,
    qualified: &str,
) -> Result<R::Output, InputFault>
    ensures { Answers (required plain.now qualified.now R.reads (view value.now)) result }
{
    match value_at(value, plain, qualified)? {
        Some(found) => R::read(alloc, found),
        None => Err(InputFault::Missing),
    }
}

/// The value of a member, or this one where the member is absent.
pub fn or_default<R: Reader>(
    alloc: Global,
    value: &Value,
    plain: &str,
    qualified: &str,
    default: R::Output,
) -> Result<R::Output, InputFault>
    ensures { Answers (with_default default plain.now qualified.now R.reads (view value.now))
        result }
{
    match optional::<R>(alloc, value, plain, qualified)? {
        Some(found) => Ok(found),
        None => Ok(default),
    }
}

/// The one of two, if there is one. BadValue where there are both.
#[tactic(auto, unfolding(crate::specs::Members::one_of))]
pub fn one_of<T: Drop>(first: Option<T>, second: Option<T>) -> Result<Option<T>, InputFault>
    ensures { Answers (one_of first second) result }
{
    match (first, second) {
        (None, found) => Ok(found),
        (found, None) => Ok(found),
        (Some(_), Some(_)) => Err(InputFault::BadValue),
    }
}
