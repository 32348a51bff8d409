//! Resources and keys.

use al_base::{Copied, Text, TypeId};
use al_ids::{AlarmKey, Kind, Resource, ResourceFault};
use std::alloc::Global;

/// Resources, and their kinds.
const KINDS: [(&str, Kind); 22] = [
    ("eth1", Kind::Plain),
    ("1.3.6", Kind::Oid),
    ("1.40", Kind::Plain),
    ("/ex:a/b", Kind::Path),
    ("/a", Kind::Plain),
    ("/ex:a/b[c='d']/e[f=\"it's\"][ex:g='h']", Kind::Path),
    ("/ex:a[.='x']", Kind::Path),
    ("/ex:a[b='']", Kind::Path),
    ("/a/ex:b", Kind::Plain),
    ("/ex:a/", Kind::Plain),
    ("/ex:a [b='c']", Kind::Plain),
    ("/ex:a[b='c\"]", Kind::Plain),
    ("/ex:a[.:b='c']", Kind::Plain),
    ("/ex:1a", Kind::Plain),
    ("//ex:a", Kind::Plain),
    ("1.03", Kind::Plain),
    ("01.3", Kind::Plain),
    ("3.1", Kind::Plain),
    ("2.999", Kind::Oid),
    ("0.39.0", Kind::Oid),
    ("1", Kind::Plain),
    ("1.3.", Kind::Plain),
];

fn is_of(alloc: Global, text: &str, kind: Kind) -> bool {
    match Resource::read(alloc, text.as_bytes()) {
        Ok(resource) => resource.kind() == kind,
        Err(_) => false,
    }
}

#[test]
fn tells_kinds_apart(rt: HostRuntime) {
    for (text, kind) in &KINDS {
        assert!(rt; is_of(rt.alloc(), text, *kind));
    }
}

/// Bytes that are no resource, with the fault.
const FAULTS: [(&[u8], ResourceFault); 4] = [
    (&[], ResourceFault::Empty),
    (&[b'a'; 513], ResourceFault::TooLong),
    (&[0xff; 513], ResourceFault::TooLong),
    (&[0xff; 512], ResourceFault::NotUtf8),
];

#[test]
fn refuses_in_order(rt: HostRuntime) {
    for (text, fault) in &FAULTS {
        assert!(rt; Resource::read(rt.alloc(), text).err() == Some(*fault));
    }
}

/// Keys in rising order.
const RISING: [[&str; 3]; 5] = [
    ["a", "z:z", "q"],
    ["ab", "a:b", ""],
    ["b", "a:b", "z"],
    ["b", "a:bb", ""],
    ["b", "a:bb", "a"],
];

fn key(alloc: Global, [resource, type_id, qualifier]: &[&str; 3]) -> Option<AlarmKey> {
    Some(AlarmKey {
        resource: Resource::read(alloc, resource.as_bytes()).ok()?,
        type_id: TypeId::read(alloc, type_id.as_bytes()).ok()?,
        qualifier: Text::read(alloc, qualifier.as_bytes()).ok()?,
    })
}

/// Whether the two are keys, which stand as their places do, and a copy is equal.
fn stand(alloc: Global, place: usize, later: usize) -> bool {
    match (
        key(alloc, &RISING[place % 5]),
        key(alloc, &RISING[later % 5]),
    ) {
        (Some(this), Some(other)) => match this.copy(alloc) {
            Ok(copy) => copy == this && copy.cmp(&other) == place.cmp(&later),
            Err(_) => false,
        },
        _ => false,
    }
}

#[test]
fn orders_keys(rt: HostRuntime) {
    for place in 0..5 {
        for later in 0..5 {
            assert!(rt; stand(rt.alloc(), place, later));
        }
    }
}
