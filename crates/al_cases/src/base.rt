//! Texts, names, stamps, lists and copies.

use al_base::{
    Copied, EventType, FormFault, List, OperatorState, Severity, Stamp, Status, Text, TextFault,
    TypeId,
};
use std::alloc::{AllocError, Global};
use std::test::Fail;

/// Bytes, and whether they are a text.
const TEXTS: [(&[u8], bool); 6] = [
    (b"", true),
    (b"eth1", true),
    (b"\xc3\xa9\xe2\x82\xac", true),
    (b"\xff", false),
    (b"\xc3", false),
    (b"\xed\xa0\x80", false),
];

/// Bytes, and whether they are the name of a type.
const TYPES: [(&[u8], bool); 10] = [
    (b"ex:link", true),
    (b"_:a", true),
    (b"ietf-alarms:alarm-type-id", true),
    (b"ex", false),
    (b"ex:", false),
    (b":a", false),
    (b"ex:a:b", false),
    (b"ex:1a", false),
    (b"-x:a", false),
    (b"ex:\xc3\xa4", false),
];

fn reads_text(alloc: Global, bytes: &[u8], good: bool) -> bool {
    match Text::read(alloc, bytes) {
        Ok(text) => good && text.bytes() == bytes && text.as_str().as_bytes() == bytes,
        Err(fault) => !good && fault == TextFault::NotUtf8,
    }
}

fn reads_type(alloc: Global, bytes: &[u8], good: bool) -> bool {
    match TypeId::read(alloc, bytes) {
        Ok(id) => good && id.bytes() == bytes,
        Err(fault) => !good && fault == FormFault::Form,
    }
}

/// Whether a name of 128 bytes is that of a type, and one of 129 isn't.
fn reads_long_types(alloc: Global) -> bool {
    let mut long = [b'x'; 129];
    long[1] = b':';
    reads_type(alloc, &long[..128], true) && reads_type(alloc, &long, false)
}

#[test]
fn reads_texts_and_type_ids(rt: HostRuntime) {
    let alloc = rt.alloc();
    for (bytes, good) in &TEXTS {
        assert!(rt; reads_text(alloc, bytes, *good));
    }
    for (bytes, good) in &TYPES {
        assert!(rt; reads_type(alloc, bytes, *good));
    }
    assert!(rt; reads_long_types(alloc));
}

/// Milliseconds, and the text of their stamp.
const STAMPS: [(u64, &[u8]); 6] = [
    (0, b"1970-01-01T00:00:00.000Z"),
    (86_399_999, b"1970-01-01T23:59:59.999Z"),
    (951_782_400_000, b"2000-02-29T00:00:00.000Z"),
    (1_714_557_600_000, b"2024-05-01T10:00:00.000Z"),
    (4_107_542_400_000, b"2100-03-01T00:00:00.000Z"),
    (253_402_300_799_999, b"9999-12-31T23:59:59.999Z"),
];

/// Texts of no stamp.
const NO_STAMPS: [&[u8]; 9] = [
    b"2023-02-29T00:00:00.000Z",
    b"2100-02-29T00:00:00.000Z",
    b"2024-05-01T10:00:00.000z",
    b"2024-05-01 10:00:00.000Z",
    b"2024-05-01T24:00:00.000Z",
    b"2024-05-01T10:00:60.000Z",
    b"1969-12-31T23:59:59.999Z",
    b"2024-05-01T10:00:00.00Z",
    b"2024-05-01T10:00:00.0000Z",
];

fn prints(ms: u64, text: &[u8]) -> bool {
    match Stamp::of(ms) {
        Some(stamp) => {
            let mut out = [0; 24];
            stamp.print(&mut out);
            out.as_slice() == text && Stamp::read(text) == Some(stamp)
        }
        None => false,
    }
}

#[test]
fn prints_and_reads_stamps(rt: HostRuntime) {
    for (ms, text) in &STAMPS {
        assert!(rt; prints(*ms, text));
    }
    for text in &NO_STAMPS {
        assert!(rt; Stamp::read(text).is_none());
    }
    assert!(rt; Stamp::of(253_402_300_800_000).is_none());
}

#[test]
fn names_values(rt: HostRuntime) {
    assert!(rt; Severity::Indeterminate.name() == "indeterminate");
    assert!(rt; OperatorState::UnShelved.name() == "un-shelved");
    assert!(rt; EventType::QualityOfServiceAlarm.name() == "quality-of-service-alarm");
    assert!(rt; Status::read(b"cleared") == Some(Status::Cleared));
    assert!(rt; Severity::read(b"Major").is_none());
}

/// Whether a copy equals what it copies, and another value doesn't.
fn copies<T: Copied + Eq>(alloc: Global, value: &T, other: &T) -> bool {
    match value.copy(alloc) {
        Ok(copy) => copy == *value && value != other,
        Err(_) => false,
    }
}

/// The list of so many equal stamps.
fn stamps(alloc: Global, count: usize) -> Result<List<Stamp>, AllocError> {
    Ok(List::of(vec![in alloc; Stamp::LAST; count]?))
}

/// Whether a copy of a list equals it, and another list doesn't.
fn copies_lists(alloc: Global) -> Result<bool, AllocError> {
    let two = stamps(alloc, 2)?;
    let one = stamps(alloc, 1)?;
    Ok(copies(alloc, &two, &one))
}

#[test]
fn copies_equal(rt: HostRuntime) -> Result<(), Fail> {
    let alloc = rt.alloc();
    assert!(rt; copies_lists(alloc)?);
    assert!(rt; copies(alloc, &Stamp::EPOCH, &Stamp::LAST));
    assert!(rt; copies(alloc, &Severity::Minor, &Severity::Major));
    assert!(rt; copies(alloc, &Status::Active(Severity::Minor), &Status::Cleared));
    assert!(rt; copies(alloc, &OperatorState::Ack, &OperatorState::Closed));
    assert!(rt; copies(alloc, &EventType::Other, &EventType::PhysicalViolation));
    Ok(())
}
