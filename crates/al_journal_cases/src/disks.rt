//! The disk in memory: its room, its failures and its number of calls.

use crate::counted::Counted;
use al_disk::{Disk, DiskFault};
use std::test::Fail;

/// Places, bytes that are written there one after the other, whether they are, and the disk's bytes then.
const WRITES: [(u64, &[u8], bool, &[u8]); 7] = [
    (4, b"xyz", true, b"abcdxyz"),
    (7, b"12", false, b"abcdxyz"),
    (0, b"third", false, b"abcdxyz"),
    (0, b"12345678", true, b"12345678"),
    (0, b"abcde", true, b"abcde678"),
    (0, b"x", false, b"abcde678"),
    (8, b"", true, b"abcde678"),
];

/// Whether the bytes are written there or aren't, and leave this image.
fn writes(disk: &mut Counted, place: u64, bytes: &[u8], done: bool, image: &[u8]) -> bool {
    disk.write_at(place, bytes).is_ok() == done && disk.image() == image
}

/// Whether the disk is cut to `abcde` and synced, which are its last calls.
fn ends(disk: &mut Counted) -> bool {
    let is_cut = disk.cut(5).is_ok() && disk.image() == b"abcde".as_slice();
    let is_last = disk.sync().is_ok() && disk.size() == Err(DiskFault);
    is_cut && is_last && disk.calls() == 10
}

#[test]
fn writes_within_its_room(rt: HostRuntime) -> Result<(), Fail> {
    let mut disk = Counted::new(rt.alloc(), b"abcdef", 8, 9, &[3])?;
    for (place, bytes, done, image) in &WRITES {
        assert!(rt; writes(&mut disk, *place, bytes, *done, image));
    }
    assert!(rt; ends(&mut disk));
    Ok(())
}

/// Places, what reads of four bytes there answer, one after the other, and the four bytes then.
const READS: [(u64, Result<usize, DiskFault>, &[u8; 4]); 5] = [
    (0, Ok(4), b"abcd"),
    (4, Ok(2), b"ef.."),
    (6, Ok(0), b"...."),
    (u64::MAX, Ok(0), b"...."),
    (0, Err(DiskFault), b"...."),
];

/// Whether a read there answers so, and gives these bytes.
fn reads(
    disk: &mut Counted,
    place: u64,
    wanted: &Result<usize, DiskFault>,
    bytes: &[u8; 4],
) -> bool {
    let mut buf = *b"....";
    disk.read_at(place, &mut buf) == *wanted && buf == *bytes
}

#[test]
fn reads_what_there_is(rt: HostRuntime) -> Result<(), Fail> {
    let mut disk = Counted::new(rt.alloc(), b"abcdef", 6, 9, &[5])?;
    for (place, count, read) in &READS {
        assert!(rt; reads(&mut disk, *place, count, read));
    }
    assert!(rt; disk.size() == Ok(6));
    Ok(())
}
