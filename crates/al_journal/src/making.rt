//! How a journal is made on a disk.

ghost use Rattle.std.specs.Prelude.{◌≡◌, ◌<◌, ◌≤◌, ◌⊎◌, ℕ, List, [], ◌∷◌, ◌++◌, true, false, Err, IfOk, IfSome, OnErr, length, take, drop, ◌↔◌};
ghost use Rattle.std.specs.Int.{from_be_bytes, w64};
ghost use Rattle.al_base.specs.Outside.{Rose};
ghost use Rattle.al_disk.specs.States.{Told, Goes};
ghost use Rattle.al_journal.specs.Births.{IsBirthOf, IsFound, StartsShut, Fills, Bears};
ghost use Rattle.al_journal.specs.Format.{IsCapacity, birth, in_eight, magic};

use crate::durable::write_durably;
use crate::faults::BirthFault;
use al_disk::{Disk, DiskFault};

const LEAST_CAPACITY: u64 = 4096;

const GREATEST_CAPACITY: u64 = 268_435_456;

/// How many bytes a birth has, its gate counted.
pub const BIRTH_LEN: usize = 14;

/// What stands at the front of a disk: a whole birth, or none and no byte or a first byte 01, or another first byte.
#[derive(Clone, Copy, Debug)]
pub enum Found {
    Made,
    Open,
    Shut,
}

/// Makes an empty journal. It syncs, asks the size and reads the first 14 bytes; where there is none or the first byte is 01, it writes 00 at
/// place 0 and syncs; it writes the rest of the birth and a shut gate at place 1 and syncs; it writes 01 at place 0 and syncs.
/// A first byte that is there and isn't 01 is left, because a write to it could leave 01 before an old birth.
pub fn birth<D: Disk>(disk: &mut D, capacity: u64) -> Result<(), BirthFault>
    ensures bears { Goes (λ s t. Bears capacity result s t) (D.told disk.old) (D.told disk.new) }
    ensures bad_capacity { (result ≡ Err BirthFault.BadCapacity)
        ↔ ((capacity < 4096) ⊎ (268435456 < capacity)) }
    ensures untouched { result ≡ Err BirthFault.BadCapacity → disk.new ≡ disk.old }
    ensures later { D.faults disk.old ≤ D.faults disk.new }
    ensures cause { result ≡ Err BirthFault.Disk → Rose (D.faults disk.old) (D.faults disk.new) }
{
    if !is_capacity(capacity) {
        return Err(BirthFault::BadCapacity);
    }
    disk.sync()?;
    let found = look(disk)?;
    if is_made(found) {
        return Err(BirthFault::AlreadyMade);
    }
    make(disk, found, capacity)?;
    Ok(())
}

/// Looks at the front of a disk.
fn look<D: Disk>(disk: &mut D) -> Result<Found, DiskFault>
    ensures found { IfOk result (λ found. Told (D.told disk.old) (λ s. IsFound found s.content)) }
    ensures same { D.told disk.new ≡ D.told disk.old }
    ensures later { D.faults disk.old ≤ D.faults disk.new }
    ensures cause { OnErr result (Rose (D.faults disk.old) (D.faults disk.new)) }
{
    let size = disk.size()?;
    let mut front = [0; BIRTH_LEN];
    let count = disk.read_at(0, &mut front)?;
    Ok(found_in(size, &front[..count]))
}

/// What the size and the first 14 bytes say.
fn found_in(size: u64, front: &[u8]) -> Found
    ensures { (content : List ℕ) → size ≡ length content → front.now ≡ take 14 content
        → IsFound result content }
{
    if capacity_in(front).is_some() {
        return Found::Made;
    }
    if size == 0 || starts_open(front) {
        return Found::Open;
    }
    Found::Shut
}

/// Makes a journal where there is none.
fn make<D: Disk>(disk: &mut D, found: Found, capacity: u64) -> Result<(), DiskFault>
    requires allowed { IsCapacity capacity }
    requires found { Told (D.told disk.old) (λ s. IsFound found s.content) }
    requires unmade { found ≡ Found.Made → ⊥ }
    ensures made { Goes (λ s t.
        Fills (IsFound found) capacity result s t) (D.told disk.old) (D.told disk.new) }
    ensures later { D.faults disk.old ≤ D.faults disk.new }
    ensures cause { OnErr result (Rose (D.faults disk.old) (D.faults disk.new)) }
{
    if is_open(found) {
        write_durably(disk, 0, &[0])?;
        return fill(disk, capacity);
    }
    fill(disk, capacity)
}

/// Writes the rest of a birth behind a first byte that isn't 01, and then that byte.
fn fill<D: Disk>(disk: &mut D, capacity: u64) -> Result<(), DiskFault>
    requires allowed { IsCapacity capacity }
    requires shut { Told (D.told disk.old) (λ s. StartsShut s.content) }
    ensures filled { Goes (λ s t.
        Fills StartsShut capacity result s t) (D.told disk.old) (D.told disk.new) }
    ensures later { D.faults disk.old ≤ D.faults disk.new }
    ensures cause { OnErr result (Rose (D.faults disk.old) (D.faults disk.new)) }
{
    write_durably(disk, 1, &rest_of_birth(capacity))?;
    write_durably(disk, 0, &[1])
}

/// All of a birth behind its first byte, with a shut gate.
#[tactic(auto, unfolding(crate::specs::Format::in_eight))]
fn rest_of_birth(capacity: u64) -> [u8; 13]
    ensures { result ≡ magic ++ in_eight capacity ++ 0 ∷ [] }
{
    let [a, b, c, d, e, f, g, h] = capacity.to_be_bytes();
    [b'A', b'L', b'J', b'1', a, b, c, d, e, f, g, h, 0]
}

/// A birth without its gate.
#[tactic(auto, unfolding(crate::specs::Format::in_eight))]
fn birth_bytes(capacity: u64) -> [u8; 13]
    ensures { result ≡ birth capacity }
{
    let [a, b, c, d, e, f, g, h] = capacity.to_be_bytes();
    [1, b'A', b'L', b'J', b'1', a, b, c, d, e, f, g, h]
}

/// The capacity of the whole birth with which a disk begins that has these bytes, at most 14, at its front.
pub fn capacity_in(front: &[u8]) -> Option<u64>
    ensures birth { (content : List ℕ) → front.now ≡ take 14 content → IsBirthOf content result }
    ensures allowed { IfSome result IsCapacity }
{
    if front.len() < BIRTH_LEN {
        return None;
    }
    let capacity = number_in(front);
    if !is_capacity(capacity) {
        return None;
    }
    if !are_same(&front[..BIRTH_LEN - 1], &birth_bytes(capacity)) {
        return None;
    }
    Some(capacity)
}

/// The number that stands where a birth has its capacity.
fn number_in(front: &[u8]) -> u64
    requires { 14 ≤ length front.now }
    ensures { result ≡ from_be_bytes w64 (drop 5 front.now) }
{
    u64::from_be_bytes([
        front[5], front[6], front[7], front[8], front[9], front[10], front[11], front[12],
    ])
}

fn are_same(a: &[u8], b: &[u8]) -> bool
    ensures yes { result ≡ true → a.now ≡ b.now }
    ensures no { result ≡ false → a.now ≡ b.now → ⊥ }
{
    a == b
}

fn is_capacity(capacity: u64) -> bool
    ensures yes { result ≡ true → IsCapacity capacity }
    ensures no { result ≡ false → (capacity < 4096) ⊎ (268435456 < capacity) }
{
    LEAST_CAPACITY <= capacity && capacity <= GREATEST_CAPACITY
}

fn starts_open(front: &[u8]) -> bool
    ensures yes { result ≡ true → (rest : List ℕ) × (front.now ≡ 1 ∷ rest) }
    ensures no { result ≡ false → (front.now ≡ []) ⊎ StartsShut front.now }
{
    match front {
        [1, ..] => true,
        _ => false,
    }
}

fn is_made(found: Found) -> bool
    ensures yes { result ≡ true → found ≡ Found.Made }
    ensures no { result ≡ false → found ≡ Found.Made → ⊥ }
{
    matches!(found, Found::Made)
}

fn is_open(found: Found) -> bool
    ensures yes { result ≡ true → found ≡ Found.Open }
    ensures no { result ≡ false → found ≡ Found.Open → ⊥ }
{
    matches!(found, Found::Open)
}
