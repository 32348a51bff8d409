//! The walk over the frames of a journal: how its shut gate is found, and how its payloads are read.

ghost use Rattle.std.specs.Prelude.{◌≡◌, ◌<◌, ◌≤◌, ◌+◌, ◌-◌, ◌^◌, ℕ, List, true, false, Ok, Err, IfOk, IfErr, IfSome, OnErr, length, take, drop};
ghost use Rattle.al_base.specs.Outside.{Rose};
ghost use Rattle.al_disk.specs.States.{Told, Goes, ReadsAsAnImage};
ghost use Rattle.al_journal.specs.Births.{IsBirthOf};
ghost use Rattle.al_journal.specs.Blocks.{Holds};
ghost use Rattle.al_journal.specs.Format.{IsCapacity, in_four};
ghost use Rattle.al_journal.specs.Images.{HasBirth};
ghost use Rattle.al_journal.specs.Walks.{IsHead, IsFrame, IsPayload, IsReadFault, Walked, Finds};

use crate::block::Block;
use crate::faults::OpenFault;
use crate::making::{BIRTH_LEN, capacity_in};
use al_disk::{Disk, DiskFault};

/// What stands at a gate: it is shut, or it is open with a frame of this length behind it, or with none.
#[derive(Clone, Copy, Debug)]
pub enum Step {
    Closed,
    Whole(u64),
    Cut,
}

/// A journal as it was found: its capacity, and the place of its shut gate.
#[derive(Clone, Copy, Debug)]
pub struct Opened {
    pub capacity: u64,
    pub gate: u64,
}

/// The place of the first gate.
pub const FIRST_GATE: u64 = 13;

/// Syncs a disk and walks over its journal to the shut gate.
pub fn find<D: Disk>(disk: &mut D, block: &mut Block) -> Result<Opened, OpenFault>
    requires { block.old.filled ≡ false }
    ensures as_it_read { Told (D.told disk.old) ReadsAsAnImage }
    ensures finds { Goes (λ s t. Finds result s t) (D.told disk.old) (D.told disk.new) }
    ensures holds { Told (D.told disk.new) (λ s. Holds block.new s.content) }
    ensures opened { IfOk result (λ opened. IsCapacity opened.capacity
        × (opened.gate < opened.capacity)) }
    ensures no_memory { result ≡ Err OpenFault.Memory → ⊥ }
    ensures later { D.faults disk.old ≤ D.faults disk.new }
    ensures cause { result ≡ Err OpenFault.Disk → Rose (D.faults disk.old) (D.faults disk.new) }
{
    disk.sync()?;
    let size = disk.size()?;
    let Some(capacity) = read_capacity(disk, block)? else {
        return Err(OpenFault::NotAJournal);
    };
    let gate = walk(disk, block, size, capacity)?;
    Ok(Opened { capacity, gate })
}

/// Reads the capacity of the birth at the front.
fn read_capacity<D: Disk>(disk: &mut D, block: &mut Block) -> Result<Option<u64>, DiskFault>
    ensures read { IfOk result (λ read. Told (D.told disk.old) (λ s. Holds block.old s.content
        → IsBirthOf s.content read)) }
    ensures allowed { IfOk result (λ read. IfSome read IsCapacity) }
    ensures holds { Told (D.told disk.old) (λ s. Holds block.old s.content
        → Holds block.new s.content) }
    ensures same { D.told disk.new ≡ D.told disk.old }
    ensures later { D.faults disk.old ≤ D.faults disk.new }
    ensures cause { OnErr result (Rose (D.faults disk.old) (D.faults disk.new)) }
{
    let mut front = [0; BIRTH_LEN];
    let count = block.read(disk, 0, &mut front)?;
    Ok(capacity_in(&front[..count]))
}

/// Walks over the frames of a disk of this size to the shut gate, and answers its place.
fn walk<D: Disk>(
    disk: &mut D,
    block: &mut Block,
    size: u64,
    capacity: u64,
) -> Result<u64, OpenFault>
    requires { IsCapacity capacity }
    ensures walked { Told (D.told disk.old) (λ s. Holds block.old s.content
        → size ≡ length s.content → HasBirth capacity s.content
        → Walked capacity result s.content) }
    ensures gate { IfOk result (λ gate. gate < capacity) }
    ensures only { result ≡ Err OpenFault.Memory → ⊥ }
    ensures holds { Told (D.told disk.old) (λ s. Holds block.old s.content
        → Holds block.new s.content) }
    ensures same { D.told disk.new ≡ D.told disk.old }
    ensures later { D.faults disk.old ≤ D.faults disk.new }
    ensures cause { result ≡ Err OpenFault.Disk → Rose (D.faults disk.old) (D.faults disk.new) }
{
    let mut place = FIRST_GATE;
    let mut count = 0;
    'frames: loop {
        match read_head(disk, block, place, capacity)? {
            Step::Closed => return Ok(place),
            Step::Whole(len) => {
                if place + len + 6 > size {
                    return Err(OpenFault::TornLength(count));
                }
                place += len + 5;
                count += 1;
            }
            Step::Cut => return Err(OpenFault::TornLength(count)),
        }
    }
}

/// Reads the gate at a place, and the length behind it.
fn read_head<D: Disk>(
    disk: &mut D,
    block: &mut Block,
    place: u64,
    capacity: u64,
) -> Result<Step, DiskFault>
    requires place { place < capacity }
    requires capacity { capacity ≤ 268435456 }
    ensures head { IfOk result (λ step. Told (D.told disk.old) (λ s. Holds block.old s.content
        → IsHead step (capacity - place) (drop place s.content))) }
    ensures fits { IfOk result (λ step. (size : ℕ) → step ≡ Step.Whole size
        → place + size + 6 ≤ capacity) }
    ensures holds { Told (D.told disk.old) (λ s. Holds block.old s.content
        → Holds block.new s.content) }
    ensures same { D.told disk.new ≡ D.told disk.old }
    ensures later { D.faults disk.old ≤ D.faults disk.new }
    ensures cause { OnErr result (Rose (D.faults disk.old) (D.faults disk.new)) }
{
    let mut front = [0; 5];
    let count = block.read(disk, place, &mut front)?;
    Ok(head_in(&front[..count], capacity - place))
}

/// What the first bytes say, five at most, where there is room for so many bytes.
fn head_in(front: &[u8], room: u64) -> Step
    requires { room ≤ 268435456 }
    ensures head { (tail : List ℕ) → front.now ≡ take 5 tail → IsHead result room tail }
    ensures fits { (size : ℕ) → result ≡ Step.Whole size → size + 6 ≤ room }
{
    let Some(gate) = front.first() else {
        return Step::Cut;
    };
    if *gate != 1 {
        return Step::Closed;
    }
    if front.len() < 5 {
        return Step::Cut;
    }
    let len = length_in(front);
    if len + 6 > room {
        return Step::Cut;
    }
    Step::Whole(len)
}

/// The length behind a gate.
fn length_in(front: &[u8]) -> u64
    requires { 5 ≤ length front.now }
    ensures same { in_four result ≡ take 4 (drop 1 front.now) }
    ensures small { result < 2 ^ 32 }
{
    u64::from(u32::from_be_bytes([front[1], front[2], front[3], front[4]]))
}

/// Reads the gate at a place and the frame behind it, whose payload goes into `buf`.
pub fn read_frame<D: Disk>(
    disk: &mut D,
    block: &mut Block,
    place: u64,
    capacity: u64,
    buf: &mut Vec<u8>,
) -> Result<Step, OpenFault>
    requires place { place < capacity }
    requires capacity { capacity ≤ 268435456 }
    ensures frame { IfOk result (λ step. Told (D.told disk.old) (λ s. Holds block.old s.content
        → IsFrame step (capacity - place) (drop place s.content) buf.new.items)) }
    ensures fits { IfOk result (λ step. (size : ℕ) → step ≡ Step.Whole size
        → (place + size + 6 ≤ capacity) × (size ≡ length buf.new.items)) }
    ensures only { IfErr result IsReadFault }
    ensures holds { Told (D.told disk.old) (λ s. Holds block.old s.content
        → Holds block.new s.content) }
    ensures same { D.told disk.new ≡ D.told disk.old }
    ensures later { D.faults disk.old ≤ D.faults disk.new }
    ensures cause { result ≡ Err OpenFault.Disk → Rose (D.faults disk.old) (D.faults disk.new) }
{
    match read_head(disk, block, place, capacity)? {
        Step::Whole(len) => {
            if read_payload(disk, block, place + 5, len, buf)? {
                Ok(Step::Whole(len))
            } else {
                Ok(Step::Cut)
            }
        }
        Step::Closed => Ok(Step::Closed),
        Step::Cut => Ok(Step::Cut),
    }
}

/// Reads so many bytes into `buf`, if they and one more are there.
fn read_payload<D: Disk>(
    disk: &mut D,
    block: &mut Block,
    place: u64,
    len: u64,
    buf: &mut Vec<u8>,
) -> Result<bool, OpenFault>
    requires { place + len < 2 ^ 32 }
    ensures len { result ≡ Ok true → len ≡ length buf.new.items }
    ensures payload { IfOk result (λ whole. Told (D.told disk.old) (λ s. Holds block.old s.content
        → IsPayload whole len (drop place s.content) buf.new.items)) }
    ensures only { IfErr result IsReadFault }
    ensures holds { Told (D.told disk.old) (λ s. Holds block.old s.content
        → Holds block.new s.content) }
    ensures same { D.told disk.new ≡ D.told disk.old }
    ensures later { D.faults disk.old ≤ D.faults disk.new }
    ensures cause { result ≡ Err OpenFault.Disk → Rose (D.faults disk.old) (D.faults disk.new) }
{
    let size = len as usize + 1;
    buf.clear();
    buf.resize(size, 0)?;
    let count = block.read(disk, place, buf.as_mut_slice())?;
    buf.truncate(len as usize);
    Ok(count == size)
}
