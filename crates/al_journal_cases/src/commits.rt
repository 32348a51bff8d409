//! What is committed, and how a doubt is settled.

ghost use Rattle.std.specs.Prelude.{◌≡◌, IfOk, OnOk, false};

use crate::counted::Counted;
use al_journal::{CommitFault, Journal, OpenFault, Record};
use std::alloc::{AllocError, Global};
use std::test::Fail;

const EMPTY: &[u8] = b"\x01ALJ1\x00\x00\x00\x00\x00\x00\x10\x00\x00";

/// How many payloads the walk to the shut gate reads, a thousand at most.
pub fn walk_over(alloc: Global, journal: &mut Journal<Counted>) -> Result<u64, OpenFault>
    ensures over { OnOk result (journal.new.next ≡ journal.new.gate) }
    ensures doubt { journal.new.doubt ≡ journal.old.doubt }
{
    let mut buf = Vec::new(alloc);
    for count in 0..1_000 {
        if !journal.next(&mut buf)? {
            return Ok(count);
        }
    }
    Err(OpenFault::TornLength(1_000))
}

/// An empty journal of capacity 4,096, walked over, whose first three calls of the disk are those of its opening.
fn empty_journal(alloc: Global, fails: &[u64]) -> Result<Journal<Counted>, OpenFault>
    ensures over { IfOk result (λ journal. journal.next ≡ journal.gate) }
    ensures sure { IfOk result (λ journal. journal.doubt ≡ false) }
{
    let disk = Counted::new(alloc, EMPTY, 8_192, 100, fails)?;
    let Ok(mut journal) = Journal::open(alloc, disk) else {
        return Err(OpenFault::NotAJournal);
    };
    walk_over(alloc, &mut journal)?;
    Ok(journal)
}

/// The payloads that a disk of these bytes shows.
fn shown(alloc: Global, image: &[u8]) -> Result<u64, OpenFault> {
    let disk = Counted::new(alloc, image, 8_192, 100, &[])?;
    let Ok(mut journal) = Journal::open(alloc, disk) else {
        return Err(OpenFault::NotAJournal);
    };
    walk_over(alloc, &mut journal)
}

fn record(alloc: Global, len: usize) -> Result<Record, AllocError> {
    let payload = vec![in alloc; 7; len.min(5_000)]?;
    Record::of(alloc, &payload)
}

/// A call of a commit that fails, whether the journal is in doubt then, and how many calls were made once that is settled.
const FAULTS: [(u64, bool, u64); 4] = [(4, false, 4), (5, false, 5), (6, true, 8), (7, true, 9)];

/// Whether a commit whose call of this number fails is refused, with a doubt or without one.
fn refuses(journal: &mut Journal<Counted>, piece: &Record, doubt: bool) -> bool
    requires over { journal.old.next ≡ journal.old.gate }
    requires sure { journal.old.doubt ≡ false }
{
    let answer = journal.commit(piece);
    answer == Err(CommitFault::Disk) && journal.in_doubt() == doubt && journal.used() == 14
}

/// Whether a doubt, if there is one, is settled.
fn settles(journal: &mut Journal<Counted>) -> bool {
    journal.settle().is_ok() && !journal.in_doubt()
}

/// Whether a disk of so many calls shows so many payloads.
fn shows(alloc: Global, disk: &Counted, calls: u64, payloads: u64) -> bool {
    disk.calls() == calls && shown(alloc, disk.image()) == Ok(payloads)
}

/// Whether a commit whose call of this number fails is refused, and leaves no payload once its doubt is settled.
fn fails_at(alloc: Global, fails: u64, doubt: bool, calls: u64) -> Result<bool, Fail> {
    let piece = record(alloc, 3)?;
    let mut journal = empty_journal(alloc, &[fails])?;
    let is_refused = refuses(&mut journal, &piece, doubt);
    let is_settled = settles(&mut journal);
    Ok(is_refused && is_settled && shows(alloc, &journal.into_disk(), calls, 0))
}

#[test]
fn fails_at_each_call_of_a_commit(rt: HostRuntime) -> Result<(), Fail> {
    for (fails, doubt, calls) in &FAULTS {
        assert!(rt; fails_at(rt.alloc(), *fails, *doubt, *calls)?, "{fails}");
    }
    Ok(())
}

/// The length of a payload, what its commit answers, how many bytes are used then, and how many calls were made.
const LENGTHS: [(usize, Result<(), CommitFault>, u64, u64); 3] = [
    (0, Ok(()), 19, 7),
    (4_077, Ok(()), 4_096, 7),
    (4_078, Err(CommitFault::Full), 14, 3),
];

/// Whether a commit of so many bytes answers so, leaves so many used, and is shown where it was answered by `Ok`.
fn commits(
    alloc: Global,
    len: usize,
    wanted: &Result<(), CommitFault>,
    used: u64,
    calls: u64,
) -> Result<bool, Fail> {
    let piece = record(alloc, len)?;
    let mut journal = empty_journal(alloc, &[])?;
    let is_right = journal.commit(&piece) == *wanted && journal.used() == used;
    let payloads = if wanted.is_ok() { 1 } else { 0 };
    Ok(is_right && shows(alloc, &journal.into_disk(), calls, payloads))
}

#[test]
fn commits_up_to_its_capacity(rt: HostRuntime) -> Result<(), Fail> {
    for (len, answer, used, calls) in &LENGTHS {
        assert!(rt; commits(rt.alloc(), *len, answer, *used, *calls)?, "{len}");
    }
    Ok(())
}
