//! What is opened, what is refused, and how often the disk is read.

use crate::commits::walk_over;
use crate::counted::Counted;
use al_journal::{Journal, OpenFault};
use std::alloc::{AllocError, Global};
use std::test::Fail;

const BIRTH: &[u8] = b"\x01ALJ1\x00\x00\x00\x00\x00\x00\x10\x00";

/// A birth of capacity 4,096 and these bytes, and so many behind them.
fn journal_of(alloc: Global, bytes: &[u8], more: usize) -> Result<Vec<u8>, AllocError> {
    let mut image = Vec::from_slice(alloc, BIRTH)?;
    image.extend_from_slice(bytes)?;
    for _ in 0..more {
        image.push(0)?;
    }
    Ok(image)
}

/// How many payloads are there, how long the last is, and how many calls of the disk that took.
fn walked(alloc: Global, image: &[u8]) -> Result<(u64, u64), OpenFault> {
    let disk = Counted::new(alloc, image, 16_384, 100, &[])?;
    match Journal::open(alloc, disk) {
        Ok(mut journal) => {
            let count = walk_over(alloc, &mut journal)?;
            Ok((count, journal.into_disk().calls()))
        }
        Err((_, fault)) => Err(fault),
    }
}

/// What is no journal: it has no whole birth, or its capacity is 4,095.
const NO_JOURNALS: [&[u8]; 3] = [b"", BIRTH, b"\x01ALJ1\x00\x00\x00\x00\x00\x00\x0f\xff\x00"];

/// The bytes behind a birth, how many zeros follow, and how many payloads are there, or the fault.
const WALKS: [(&[u8], usize, Result<u64, OpenFault>); 11] = [
    (b"\x00", 0, Ok(0)),
    (b"\x02", 5, Ok(0)),
    (b"\x01", 0, Err(OpenFault::TornLength(0))),
    (b"\x01\xff\xff\xff\xff", 0, Err(OpenFault::TornLength(0))),
    (b"\x01\0\0\0\x02ab", 0, Err(OpenFault::TornLength(0))),
    (b"\x01\0\0\0\x02ab\x00", 0, Ok(1)),
    (
        b"\x01\0\0\0\x02ab\x01\0\0",
        0,
        Err(OpenFault::TornLength(1)),
    ),
    (b"\x01\0\0\0\x02ab\x01\0\0\0\0\x00", 9, Ok(2)),
    (
        b"\x01\0\0\0\x02ab\x01\0\0\0\x05",
        5,
        Err(OpenFault::TornLength(1)),
    ),
    (b"\x01\0\0\x0f\xed", 5_000, Ok(1)),
    (b"\x01\0\0\x0f\xee", 5_000, Err(OpenFault::TornLength(0))),
];

/// Whether a walk over the bytes behind a birth, with so many zeros, ends so.
fn walks(
    alloc: Global,
    bytes: &[u8],
    more: usize,
    wanted: &Result<u64, OpenFault>,
) -> Result<bool, Fail> {
    let image = journal_of(alloc, bytes, more)?;
    Ok(match walked(alloc, &image) {
        Ok((count, _)) => *wanted == Ok(count),
        Err(fault) => *wanted == Err(fault),
    })
}

#[test]
fn opens_whole_journals_alone(rt: HostRuntime) -> Result<(), Fail> {
    for image in &NO_JOURNALS {
        assert!(rt; walked(rt.alloc(), image) == Err(OpenFault::NotAJournal));
    }
    for (bytes, more, wanted) in &WALKS {
        assert!(rt; walks(rt.alloc(), bytes, *more, wanted)?, "{bytes:?}");
    }
    Ok(())
}

/// Whether a journal of so many bytes has one payload, and is walked over in three calls.
fn is_one_block(alloc: Global, len: usize) -> Result<bool, Fail> {
    let one = journal_of(alloc, b"\x01\0\0\x0f\xe5", 4_070)?;
    Ok(one.len() == len && walked(alloc, &one) == Ok((1, 3)))
}

/// A journal of three payloads of 4,091 bytes.
fn three_payloads(alloc: Global) -> Result<Vec<u8>, AllocError> {
    let mut many = Vec::from_slice(alloc, b"\x01ALJ1\x00\x00\x00\x00\x00\x00\x40\x00")?;
    for _ in 0..3 {
        many.extend_from_slice(b"\x01\0\0\x0f\xfb")?;
        for _ in 0..4_091 {
            many.push(9)?;
        }
    }
    many.push(0)?;
    Ok(many)
}

/// Whether a journal of so many bytes has three payloads, and is walked over in twelve calls at most.
fn are_four_blocks(alloc: Global, len: usize) -> Result<bool, Fail> {
    let many = three_payloads(alloc)?;
    let (count, calls) = walked(alloc, &many)?;
    Ok(many.len() == len && count == 3 && calls <= 12)
}

/// A file of 4,088 bytes, walked over: one block, read once. One of 12,302 in two walks of four blocks, of which the last stays in memory.
#[test]
fn reads_in_blocks(rt: HostRuntime) -> Result<(), Fail> {
    assert!(rt; is_one_block(rt.alloc(), 4_088)?);
    assert!(rt; are_four_blocks(rt.alloc(), 12_302)?);
    Ok(())
}
