//! What is changed over a journal, what refuses it, and what a stop or a fault leaves.

use crate::journals::{disk_of, journal_of, open, shown, tell};
use al_disk::MemDisk;
use al_model::{Refusal, Reply};
use al_office::OfficeFault;
use al_office::journaled::Office;
use std::alloc::{AllocError, Global};
use std::test::Fail;

/// What two reports answer, between which the journal may be in doubt, and what stands after them.
#[derive(Clone, Copy, PartialEq, Eq)]
struct Told {
    first: Result<Reply, Refusal>,
    doubt: bool,
    second: Result<Reply, Refusal>,
    used: u64,
    shown: usize,
}

/// Two reports over a disk that fails at one of its calls.
fn tell_twice(alloc: Global, fails: u64) -> Result<Told, OfficeFault> {
    let image = journal_of(alloc, 0)?;
    let mut office = open(alloc, disk_of(alloc, &image, 100, &[fails])?)?;
    let first = tell(alloc, &mut office, b"p");
    let doubt = office.journal().in_doubt();
    let second = tell(alloc, &mut office, b"qq");
    let used = office.journal().used();
    let disk = office.into_disk();
    let shown = shown(alloc, disk.image())?;
    Ok(Told {
        first,
        doubt,
        second,
        used,
        shown,
    })
}

/// A call of a commit that fails, and whether the journal is in doubt then.
const FAULTS: [(u64, bool); 4] = [(4, false), (5, false), (6, true), (7, true)];

/// Whether a report whose call fails is refused, with a doubt or without one, and the next one stands behind the inventory.
fn refuses_one(alloc: Global, fails: u64, doubt: bool) -> Result<bool, Fail> {
    let wanted = Told {
        first: Err(Refusal::Disk),
        doubt,
        second: Ok(Reply::Done),
        used: 130,
        shown: 2,
    };
    Ok(tell_twice(alloc, fails)? == wanted)
}

/// A fault at each of the four calls of a commit, and the next report: the refused one is nowhere.
#[test]
fn fails_at_each_call_of_a_commit(rt: HostRuntime) -> Result<(), Fail> {
    for (fails, doubt) in &FAULTS {
        assert!(rt; refuses_one(rt.alloc(), *fails, *doubt)?, "{fails}");
    }
    Ok(())
}

/// Three reports on a disk that takes so many calls: how many entries were acknowledged, with the first, and the disk.
fn tell_thrice(alloc: Global, calls: usize) -> Result<(usize, MemDisk), AllocError> {
    let image = journal_of(alloc, 0)?;
    let disk = disk_of(alloc, &image, calls, &[])?;
    let mut office = match Office::open(alloc, disk) {
        Ok(office) => office,
        Err((disk, _fault)) => return Ok((1, disk)),
    };
    let _ = tell(alloc, &mut office, b"a");
    let _ = tell(alloc, &mut office, b"b");
    let _ = tell(alloc, &mut office, b"c");
    let acknowledged = office.len();
    Ok((acknowledged, office.into_disk()))
}

/// For each number of calls from 0: how many entries are acknowledged, with the inventory, and how many are shown.
const STOPS: [(usize, usize); 16] = [
    (1, 1),
    (1, 1),
    (1, 1),
    (1, 1),
    (1, 1),
    (1, 1),
    (1, 2),
    (2, 2),
    (2, 2),
    (2, 2),
    (2, 3),
    (3, 3),
    (3, 3),
    (3, 3),
    (3, 4),
    (4, 4),
];

/// Whether a disk that takes so many calls acknowledges and shows so many entries.
fn stops(alloc: Global, calls: usize, acknowledged: usize, shows: usize) -> Result<bool, Fail> {
    let (entries, disk) = tell_thrice(alloc, calls)?;
    Ok(entries == acknowledged && shown(alloc, disk.image()) == Ok(shows))
}

/// A stop at each call: the image shows what was acknowledged, or this and the one in doubt, whose gate was opened by the last call.
#[test]
fn stops_at_each_call(rt: HostRuntime) -> Result<(), Fail> {
    for (calls, (acknowledged, shows)) in STOPS.iter().enumerate() {
        assert!(rt; stops(rt.alloc(), calls, *acknowledged, *shows)?, "{calls}");
    }
    Ok(())
}

/// Reports of two texts in turn, 110 of them and one more, in a journal of 4,096 and so many more bytes: the entries, the bytes used, the last answer.
fn tell_all(alloc: Global, more: u8) -> Result<(usize, u64, Result<Reply, Refusal>), OfficeFault> {
    let image = journal_of(alloc, more)?;
    let mut office = open(alloc, disk_of(alloc, &image, 1_000, &[])?)?;
    for _ in 0..55 {
        let _ = tell(alloc, &mut office, b"a");
        let _ = tell(alloc, &mut office, b"b");
    }
    let last = tell(alloc, &mut office, b"c");
    Ok((office.len(), office.journal().used(), last))
}

/// How many bytes more, how many entries are there in the end, and how many bytes are used.
const ROOMS: [(u8, usize, u64); 3] = [(0, 109, 4_088), (28, 109, 4_088), (29, 110, 4_125)];

/// Whether the last report is refused by the full journal, which has so many entries in so many bytes.
fn is_full(alloc: Global, more: u8, entries: usize, used: u64) -> Result<bool, Fail> {
    let (len, last_byte, last) = tell_all(alloc, more)?;
    Ok(len == entries && last_byte == used && last == Err(Refusal::JournalFull))
}

/// Each report has a record of 37 bytes. The first 92 bytes are those of the installed inventory.
#[test]
fn is_full_at_its_last_byte(rt: HostRuntime) -> Result<(), Fail> {
    for (more, entries, used) in &ROOMS {
        assert!(rt; is_full(rt.alloc(), *more, *entries, *used)?, "{more}");
    }
    Ok(())
}
