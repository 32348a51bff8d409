//! How journals are made.

use crate::counted::Counted;
use al_journal::{BirthFault, Journal, OpenFault, birth};
use std::alloc::{AllocError, Global};
use std::test::Fail;

/// A shut first byte, and behind it the rest of an empty journal of capacity 4,096.
const SHUT: &[u8] = b"\x00ALJ1\x00\x00\x00\x00\x00\x00\x10\x00\x00";

/// What a birth of the capacity answers on a disk of these bytes that takes so many calls, and the disk after it.
fn born(
    alloc: Global,
    old: &[u8],
    capacity: u64,
    calls: usize,
) -> Result<(Result<(), BirthFault>, Counted), AllocError> {
    let mut disk = Counted::new(alloc, old, 64, calls, &[])?;
    let answer = birth(&mut disk, capacity);
    Ok((answer, disk))
}

/// Capacities, what a birth of them answers, and how many calls it makes.
const CAPACITIES: [(u64, Result<(), BirthFault>, u64); 4] = [
    (4_095, Err(BirthFault::BadCapacity), 0),
    (4_096, Ok(()), 9),
    (268_435_456, Ok(()), 9),
    (268_435_457, Err(BirthFault::BadCapacity), 0),
];

/// Whether a birth of the capacity on an empty disk answers so, after so many calls.
fn answers(
    alloc: Global,
    capacity: u64,
    wanted: &Result<(), BirthFault>,
    calls: u64,
) -> Result<bool, Fail> {
    let (answer, disk) = born(alloc, b"", capacity, 9)?;
    Ok(answer == *wanted && disk.calls() == calls)
}

#[test]
fn makes_journals_of_allowed_capacities(rt: HostRuntime) -> Result<(), Fail> {
    for (capacity, answer, calls) in &CAPACITIES {
        assert!(rt; answers(rt.alloc(), *capacity, answer, *calls)?);
    }
    Ok(())
}

/// What a disk held, what a birth of capacity 8,192 answers, how many calls it makes, and what the disk holds then.
const MADE: [(&[u8], Result<(), BirthFault>, u64, &[u8]); 4] = [
    (b"", Ok(()), 9, b"\x01ALJ1\0\0\0\0\0\0\x20\0\0"),
    (b"\x01old", Ok(()), 9, b"\x01ALJ1\0\0\0\0\0\0\x20\0\0"),
    (
        b"x and more than a birth",
        Ok(()),
        7,
        b"\x01ALJ1\0\0\0\0\0\0\x20\0\0n a birth",
    ),
    (
        b"\x01ALJ1\0\0\0\0\0\0\x10\0\x01",
        Err(BirthFault::AlreadyMade),
        3,
        b"\x01ALJ1\0\0\0\0\0\0\x10\0\x01",
    ),
];

/// Whether a birth over these bytes answers so, after so many calls, and leaves this image.
fn leaves(
    alloc: Global,
    old: &[u8],
    wanted: &Result<(), BirthFault>,
    calls: u64,
    image: &[u8],
) -> Result<bool, Fail> {
    let (answer, disk) = born(alloc, old, 8_192, 9)?;
    Ok(answer == *wanted && disk.calls() == calls && disk.image() == image)
}

#[test]
fn leaves_what_is_made(rt: HostRuntime) -> Result<(), Fail> {
    for (old, answer, calls, image) in &MADE {
        assert!(rt; leaves(rt.alloc(), old, answer, *calls, image)?);
    }
    Ok(())
}

/// Whether a journal is opened on a disk of these bytes, of capacity 8,192; or refused, its first byte shut.
fn opens(alloc: Global, image: &[u8], opened: bool) -> Result<bool, Fail> {
    match Journal::open(alloc, Counted::new(alloc, image, 64, 9, &[])?) {
        Ok(journal) => Ok(opened && journal.capacity() == 8_192),
        Err((left, fault)) => {
            let is_shut = left.image().first() == Some(&0);
            Ok(!opened && fault == OpenFault::NotAJournal && is_shut)
        }
    }
}

/// Whether a birth that is stopped after so many calls leaves what it should.
fn stops(alloc: Global, calls: usize) -> Result<bool, Fail> {
    let (answer, disk) = born(alloc, SHUT, 8_192, calls)?;
    Ok(answer.is_ok() == (calls == 7) && opens(alloc, disk.image(), calls >= 6)?)
}

/// Stopped at any call, a birth shows no journal or the new one, and never the one that an old capacity would make.
#[test]
fn stops_at_each_call(rt: HostRuntime) -> Result<(), Fail> {
    for calls in 0..8 {
        assert!(rt; stops(rt.alloc(), calls)?, "{calls}");
    }
    Ok(())
}
