//! Shelves.

use al_base::{Copied, List, Text, TypeId};
use al_ids::{AlarmKey, Resource, ResourceMatch};
use al_pattern::Pattern;
use al_shelf::{Placed, Shelf, ShelfFault, Shelves, Spot, TypeMatch};
use al_types::{Identity, Inventory};
use std::alloc::Global;
use std::test::Fail;

const ROOT: &str = "ietf-alarms:alarm-type-id";

#[derive(Clone, Copy)]
enum At {
    First,
    Last,
    Before(&'static str),
    After(&'static str),
    Keep,
}

fn text(alloc: Global, text: &str) -> Result<Text, Fail> {
    Ok(Text::read(alloc, text.as_bytes())?)
}

fn spot(alloc: Global, at: At) -> Result<Spot, Fail> {
    Ok(match at {
        At::First => Spot::First,
        At::Last => Spot::Last,
        At::Before(point) => Spot::Before(text(alloc, point)?),
        At::After(point) => Spot::After(text(alloc, point)?),
        At::Keep => Spot::Keep,
    })
}

/// Puts a shelf without criteria at the spot.
fn put(
    shelves: &mut Shelves,
    alloc: Global,
    name: &str,
    at: At,
) -> Result<Result<Placed, ShelfFault>, Fail> {
    let shelf = Shelf {
        name: text(alloc, name)?,
        resources: List::of(Vec::new(alloc)),
        types: List::of(Vec::new(alloc)),
        description: None,
    };
    Ok(shelves.place(shelf, spot(alloc, at)?))
}

/// The shelves a, b and c, without criteria.
fn three_shelves(alloc: Global) -> Result<Shelves, Fail> {
    let mut shelves = Shelves::new(alloc);
    for name in ["a", "b", "c"] {
        put(&mut shelves, alloc, name, At::Last)??;
    }
    Ok(shelves)
}

/// Whether a shelf of the name was there and went.
fn remove(shelves: &mut Shelves, alloc: Global, name: &str) -> Result<bool, Fail> {
    Ok(shelves.remove(&text(alloc, name)?).is_some())
}

/// Whether these bytes are the names of the shelves, one after the other.
fn are_named(shelves: &Shelves, names: &[u8]) -> bool {
    let named = |place: usize| shelves.at(place).map(|shelf| shelf.name.bytes());
    shelves.len() == names.len()
        && (0..=names.len()).all(|place| named(place) == names.get(place..=place))
}

/// A shelf of this name, put there into a, b and c: the answer, and the names then.
const SPOTS: [(&str, At, Result<Placed, ShelfFault>, &str); 14] = [
    ("x", At::First, Ok(Placed::Made(0)), "xabc"),
    ("x", At::Last, Ok(Placed::Made(3)), "abcx"),
    ("x", At::Keep, Ok(Placed::Made(3)), "abcx"),
    ("x", At::Before("b"), Ok(Placed::Made(1)), "axbc"),
    ("x", At::After("b"), Ok(Placed::Made(2)), "abxc"),
    ("b", At::First, Ok(Placed::Replaced(0)), "bac"),
    ("b", At::Last, Ok(Placed::Replaced(2)), "acb"),
    ("b", At::Keep, Ok(Placed::Replaced(1)), "abc"),
    ("a", At::Before("c"), Ok(Placed::Replaced(1)), "bac"),
    ("a", At::After("c"), Ok(Placed::Replaced(2)), "bca"),
    ("c", At::After("a"), Ok(Placed::Replaced(1)), "acb"),
    ("x", At::Before("y"), Err(ShelfFault::NoPoint), "abc"),
    ("x", At::After("x"), Err(ShelfFault::NoPoint), "abc"),
    ("b", At::Before("b"), Err(ShelfFault::NoPoint), "abc"),
];

/// Whether the shelf is put into a, b and c with this answer, and leaves these names.
fn puts(
    alloc: Global,
    name: &str,
    at: At,
    answer: &Result<Placed, ShelfFault>,
    after: &str,
) -> Result<bool, Fail> {
    let mut shelves = three_shelves(alloc)?;
    Ok(put(&mut shelves, alloc, name, at)? == *answer && are_named(&shelves, after.as_bytes()))
}

#[test]
fn puts_at_spots(rt: HostRuntime) -> Result<(), Fail> {
    for (name, at, answer, after) in &SPOTS {
        assert!(rt; puts(rt.alloc(), name, *at, answer, after)?, "{after}");
    }
    Ok(())
}

/// Sixty-four shelves.
fn many_shelves(alloc: Global) -> Result<Shelves, Fail> {
    let mut shelves = Shelves::new(alloc);
    for n in 0..64 {
        put(&mut shelves, alloc, &format!(in alloc; "{n}")?, At::Last)??;
    }
    Ok(shelves)
}

#[test]
fn puts_no_more_than_64(rt: HostRuntime) -> Result<(), Fail> {
    let mut shelves = many_shelves(rt.alloc())?;
    for (name, at, answer) in [
        ("64", At::Last, Err(ShelfFault::TooMany)),
        ("64", At::Before("x"), Err(ShelfFault::NoPoint)),
        ("10", At::First, Ok(Placed::Replaced(0))),
    ] {
        assert_eq!(rt; put(&mut shelves, rt.alloc(), name, at)?, answer);
    }
    assert_eq!(rt; shelves.len(), 64);
    Ok(())
}

/// Whether removing the name from a, b and c finds it or doesn't, and leaves these names.
fn removes(alloc: Global, name: &str, found: bool, after: &str) -> Result<bool, Fail> {
    let mut shelves = three_shelves(alloc)?;
    Ok(remove(&mut shelves, alloc, name)? == found && are_named(&shelves, after.as_bytes()))
}

#[test]
fn removes_by_name(rt: HostRuntime) -> Result<(), Fail> {
    for (name, found, after) in [
        ("a", true, "bc"),
        ("b", true, "ac"),
        ("c", true, "ab"),
        ("d", false, "abc"),
    ] {
        assert!(rt; removes(rt.alloc(), name, found, after)?, "{after}");
    }
    Ok(())
}

fn identity(alloc: Global, name: &str, base: &str) -> Result<Identity, Fail> {
    Ok(Identity {
        name: TypeId::read(alloc, name.as_bytes())?,
        base: TypeId::read(alloc, base.as_bytes())?,
    })
}

/// Declares `ex:base`, and `ex:link` on it.
fn inventory(alloc: Global) -> Result<Inventory, Fail> {
    let mut identities = Vec::new(alloc);
    identities.push(identity(alloc, "ex:base", ROOT)?)?;
    identities.push(identity(alloc, "ex:link", "ex:base")?)?;
    Ok(Inventory::build(alloc, identities, Vec::new(alloc))?)
}

fn key(alloc: Global, parts: &[&str; 3]) -> Result<AlarmKey, Fail> {
    Ok(AlarmKey {
        resource: Resource::read(alloc, parts[0].as_bytes())?,
        type_id: TypeId::read(alloc, parts[1].as_bytes())?,
        qualifier: text(alloc, parts[2])?,
    })
}

/// The names that go from a, b and c, one after the other, and the place of the first shelf that takes a key then.
const FIRSTS: [(&[&str], Option<usize>); 4] = [
    (&[], Some(0)),
    (&["a"], Some(0)),
    (&["a", "c"], Some(0)),
    (&["a", "c", "b"], None),
];

/// A copy of the shelves a, b and c, without those of these names.
fn shelves_without(alloc: Global, names: &[&str]) -> Result<Shelves, Fail> {
    let mut shelves = three_shelves(alloc)?.copy(alloc)?;
    for name in names {
        remove(&mut shelves, alloc, name)?;
    }
    Ok(shelves)
}

/// The place of the first shelf without criteria that takes a key, once those of these names are gone.
fn first_without(alloc: Global, names: &[&str]) -> Result<Option<usize>, Fail> {
    let inventory = inventory(alloc)?;
    let key = key(alloc, &["eth1", "ex:link", ""])?;
    Ok(shelves_without(alloc, names)?.first(&inventory, &key))
}

#[test]
fn first_of_those_without_criteria(rt: HostRuntime) -> Result<(), Fail> {
    for (names, first) in &FIRSTS {
        assert!(rt; first_without(rt.alloc(), names)? == *first);
    }
    Ok(())
}

/// At most one criterion on resources; none for the empty text.
fn resources(alloc: Global, criterion: &str) -> Result<List<ResourceMatch>, Fail> {
    let mut criteria = Vec::new(alloc);
    if !criterion.is_empty() {
        criteria.push(ResourceMatch::read(alloc, criterion.as_bytes())?)?;
    }
    Ok(List::of(criteria))
}

/// At most one criterion on types; none for the empty text.
fn types(alloc: Global, type_id: &str, qualifier: &str) -> Result<List<TypeMatch>, Fail> {
    let mut criteria = Vec::new(alloc);
    if !type_id.is_empty() {
        criteria.push(TypeMatch {
            type_id: TypeId::read(alloc, type_id.as_bytes())?,
            qualifier: Pattern::read(alloc, qualifier.as_bytes())?,
        })?;
    }
    Ok(List::of(criteria))
}

/// A shelf of these criteria.
fn shelf(alloc: Global, criteria: &[&str; 3]) -> Result<Shelf, Fail> {
    Ok(Shelf {
        name: text(alloc, "a")?,
        resources: resources(alloc, criteria[0])?,
        types: types(alloc, criteria[1], criteria[2])?,
        description: Some(text(alloc, "b")?),
    })
}

/// A criterion on resources, one on types with its pattern; a resource, a type and a qualifier; whether they are taken.
const CRITERIA: [([&str; 3], [&str; 3], bool); 10] = [
    (["", "ex:base", ""], ["1.3.6.1", "ex:link", ""], true),
    (["", "ex:link", ""], ["1.3.6.1", "ex:base", ""], false),
    (["", "ex:link", ""], ["1.3.6.1", "ex:link", "a"], false),
    (
        ["", "ex:base", "[a-z]+"],
        ["1.3.6.1", "ex:link", "ab"],
        true,
    ),
    (
        ["", "ex:base", "[a-z]+"],
        ["1.3.6.1", "ex:link", "ab1"],
        false,
    ),
    (["1.3.6", "", ""], ["1.3.6.1", "ex:link", ""], true),
    (["1.3.6", "", ""], ["1.3.7", "ex:link", ""], false),
    (["1.3.6", "ex:base", ""], ["1.3.6.1", "ex:link", ""], true),
    (["1.3.6", "ex:base", ""], ["1.3.7", "ex:link", ""], false),
    (["1.3.6", "ex:base", ""], ["1.3.6", "ex:link", "a"], false),
];

/// Whether a copy of the shelf of these criteria takes the key.
fn takes(alloc: Global, criteria: &[&str; 3], parts: &[&str; 3]) -> Result<bool, Fail> {
    let inventory = inventory(alloc)?;
    let key = key(alloc, parts)?;
    Ok(shelf(alloc, criteria)?.copy(alloc)?.takes(&inventory, &key))
}

#[test]
fn takes_by_criteria(rt: HostRuntime) -> Result<(), Fail> {
    for (criteria, parts, wanted) in &CRITERIA {
        assert!(rt; takes(rt.alloc(), criteria, parts)? == *wanted);
    }
    Ok(())
}
