ghost use Rattle.std.specs.List.{AllByRecursion, insert};
ghost use Rattle.std.specs.Option.{option_and_then, option_copied, option_map};
ghost use Rattle.std.specs.Prelude.{◌≡◌, ◌+◌, ◌<◌, ◌≤◌, ◌^◌, ◌++◌, ◌∷◌, [], List, None, Some, cond, drop, length, map, slice_get, suc, take, vec_capacity, vec_len, ℕ};
ghost use Rattle.al_model.specs.Alarms.{alarm_of};
ghost use Rattle.al_model.specs.Validity.{IsInOrder};
ghost use Rattle.al_contents.specs.Places.{AreParted, AreSides};
ghost use Rattle.al_contents.specs.Positions.{IsPositionOf};
ghost use Rattle.al_contents.specs.Views.{AlarmView, is_at, is_marked, is_unmarked, states};

use crate::alarm::Alarm;
use al_ids::AlarmKey;
use al_model::Side;

/// Where the alarm of the key stands, or else where it would.
pub(crate) fn position_of(alarms: &[Alarm], key: &AlarmKey) -> Result<usize, usize>
    requires { IsInOrder (states alarms.now) }
    ensures { IsPositionOf key.now (states alarms.now) result }
{
    alarms.binary_search_by(|alarm| alarm.order(key))
}

/// The alarm of the key.
pub(crate) fn find<'a>(alarms: &'a [Alarm], key: &AlarmKey) -> Option<&'a Alarm>
    requires { IsInOrder (states alarms.now) }
    ensures { option_map (λ v. v.state) (option_copied result)
        ≡ alarm_of key.now (states alarms.now) }
{
    match position_of(alarms, key) {
        Ok(place) => at(alarms, place),
        Err(_) => None,
    }
}

/// The alarm at the place that stands at this one of the places.
pub(crate) fn at_side<'a>(alarms: &'a [Alarm], places: &[usize], i: usize) -> Option<&'a Alarm>
    ensures { option_copied result
        ≡ option_and_then (slice_get alarms.now) (slice_get places.now i) }
{
    match place_at(places, i) {
        Some(place) => at(alarms, place),
        None => None,
    }
}

fn at(alarms: &[Alarm], place: usize) -> Option<&Alarm>
    ensures { option_copied result ≡ slice_get alarms.now place }
{
    alarms.get(place)
}

fn place_at(places: &[usize], i: usize) -> Option<usize>
    ensures { result ≡ slice_get places.now i }
{
    places.get(i).copied()
}

/// The alarm, if it is on this side.
pub fn if_at(found: Option<&Alarm>, side: Side) -> Option<&Alarm>
    ensures { option_copied result
        ≡ option_and_then (λ v.
        cond (is_at side v.state) (Some v) None) (option_copied found.entry) }
{
    match found {
        Some(alarm) => if_one_at(alarm, side),
        None => None,
    }
}

fn if_one_at(alarm: &Alarm, side: Side) -> Option<&Alarm>
    ensures { option_copied result ≡ cond (is_at side alarm.now.state) (Some alarm.now) None }
{
    if alarm.is_at(side) { Some(alarm) } else { None }
}

/// Puts the place of an alarm at the end of its side.
fn put_place(alarm: &Alarm, place: usize, listed: &mut Vec<usize>, shelved: &mut Vec<usize>)
    requires listed { vec_len listed.old < vec_capacity listed.old }
    requires shelved { vec_len shelved.old < vec_capacity shelved.old }
    ensures listed { listed.new.items
        ≡ listed.old.items ++ cond (is_unmarked alarm.now.state) (place ∷ []) [] }
    ensures shelved { shelved.new.items
        ≡ shelved.old.items ++ cond (is_marked alarm.now.state) (place ∷ []) [] }
    ensures listed_count { vec_len listed.new ≤ vec_len listed.old + 1 }
    ensures shelved_count { vec_len shelved.new ≤ vec_len shelved.old + 1 }
    ensures listed_room { vec_capacity listed.new ≡ vec_capacity listed.old }
    ensures shelved_room { vec_capacity shelved.new ≡ vec_capacity shelved.old }
{
    if alarm.is_shelved() {
        shelved.push_reserved(place);
    } else {
        listed.push_reserved(place);
    }
}

/// Sets the places of both sides anew. It can't fail, whatever memory there is.
pub(crate) fn set_sides(alarms: &[Alarm], listed: &mut Vec<usize>, shelved: &mut Vec<usize>)
    requires listed { length alarms.now ≤ vec_capacity listed.old }
    requires shelved { length alarms.now ≤ vec_capacity shelved.old }
    ensures sides { AreSides alarms.now listed.new.items shelved.new.items }
    ensures listed_room { vec_capacity listed.new ≡ vec_capacity listed.old }
    ensures shelved_room { vec_capacity shelved.new ≡ vec_capacity shelved.old }
{
    listed.clear();
    shelved.clear();
    for (place, alarm) in alarms.iter().enumerate() {
        put_place(alarm, place, listed, shelved);
    }
}

// ---- a new alarm

/// Adds one to each of the places.
fn move_up(places: &mut [usize])
    requires { AllByRecursion (λ i. i + 1 < 2 ^ 64) places.old }
    ensures { places.new ≡ map suc places.old }
{
    for place in places.iter_mut() {
        *place += 1;
    }
}

/// Adds one to each of the places but so many of the first.
fn move_up_from(places: &mut Vec<usize>, at: usize)
    requires at { at ≤ vec_len places.old }
    requires small { AllByRecursion (λ i. i + 1 < 2 ^ 64) places.old.items }
    ensures items { places.new.items
        ≡ take at places.old.items ++ map suc (drop at places.old.items) }
    ensures len { vec_len places.new ≡ vec_len places.old }
    ensures room { vec_capacity places.new ≡ vec_capacity places.old }
{
    move_up(&mut places[at..]);
}

/// Moves up the places of a side from this one on, and puts it in before them, if it is of the side.
fn put_in(places: &mut Vec<usize>, place: usize, is_here: bool)
    requires room { vec_len places.old < vec_capacity places.old }
    requires small { AllByRecursion (λ i. i + 1 < 2 ^ 64) places.old.items }
    ensures items { (before after : List ℕ) → AreParted place places.old.items before after
        → places.new.items ≡ before ++ (cond is_here (place ∷ []) [] ++ map suc after) }
    ensures room { vec_capacity places.new ≡ vec_capacity places.old }
{
    let at = places.as_slice().partition_point(|other| *other < place);
    move_up_from(places, at);
    if is_here {
        // There is room for it, so it can't fail.
        let _ = places.insert(at, place);
    }
}

/// Puts in the place of a new alarm, and moves up the places behind it. It can't fail, whatever memory there is.
pub(crate) fn put_in_place(
    alarm: &Alarm,
    place: usize,
    listed: &mut Vec<usize>,
    shelved: &mut Vec<usize>,
)
    requires listed { vec_len listed.old < vec_capacity listed.old }
    requires shelved { vec_len shelved.old < vec_capacity shelved.old }
    requires listed_small { AllByRecursion (λ i. i + 1 < 2 ^ 64) listed.old.items }
    requires shelved_small { AllByRecursion (λ i. i + 1 < 2 ^ 64) shelved.old.items }
    ensures sides { (alarms : List AlarmView) → place ≤ length alarms
        → AreSides alarms listed.old.items shelved.old.items
        → AreSides (insert alarms place alarm.now) listed.new.items shelved.new.items }
    ensures listed_room { vec_capacity listed.new ≡ vec_capacity listed.old }
    ensures shelved_room { vec_capacity shelved.new ≡ vec_capacity shelved.old }
{
    let is_shelved = alarm.is_shelved();
    put_in(listed, place, !is_shelved);
    put_in(shelved, place, is_shelved);
}
