//! Disks, journals on them, and reports over these.

ghost use Rattle.std.specs.Prelude.{◌≡◌, ◌≤◌, IfOk, IsUtf8, length};
ghost use Rattle.al_base.specs.Identifiers.{IsTypeName};
ghost use Rattle.al_model.specs.Limits.{IsRequestWithin};
ghost use Rattle.al_ids.specs.Limits.{IsKeyWithin};

use al_base::{Severity, Stamp, Status, Text, TypeId};
use al_disk::MemDisk;
use al_ids::{AlarmKey, Resource};
use al_model::{Refusal, Reply, Request};
use al_office::OfficeFault;
use al_office::journaled::Office;
use std::alloc::{AllocError, Global};

/// The record of the entry that installs an inventory at time 1000: the type `ex:link` on the root, and a row of it without qualifier, of any
/// resource and severity. Behind it stands a shut gate.
const INSTALL: &[u8] =
    b"\x01\0\0\0\x49\0\0\0\0\0\0\x03\xe8\0\0\x09\0\x01\0\x07ex:link\0\x19ietf-alarms:alarm-type-id\0\x01\0\x07ex:link\0\0\0\0\x01\0\0\x04Link\x02\0";

/// How many bytes a disk of these cases holds.
const ROOM: usize = 8_192;

/// A disk of these bytes that takes so many calls, of which those in `fails` fail.
pub fn disk_of(
    alloc: Global,
    bytes: &[u8],
    calls: usize,
    fails: &[u64],
) -> Result<MemDisk, AllocError> {
    if bytes.len() > ROOM {
        return Err(AllocError);
    }
    MemDisk::new(alloc, bytes, ROOM, calls, fails)
}

/// A journal whose one entry installs the inventory. Its capacity is 4,096 and so many more bytes.
pub fn journal_of(alloc: Global, more: u8) -> Result<Vec<u8>, AllocError> {
    let mut bytes = Vec::from_slice(alloc, b"\x01ALJ1\0\0\0\0\0\0\x10".as_slice())?;
    bytes.push(more)?;
    bytes.extend_from_slice(INSTALL)?;
    Ok(bytes)
}

fn text(alloc: Global, bytes: &[u8]) -> Result<Text, AllocError>
    ensures { IfOk result (λ text. (text ≡ bytes.now) × IsUtf8 bytes.now) }
{
    match Text::read(alloc, bytes) {
        Ok(text) => Ok(text),
        Err(_) => Err(AllocError),
    }
}

fn type_id(alloc: Global, name: &[u8]) -> Result<TypeId, AllocError>
    ensures { IfOk result IsTypeName }
{
    match TypeId::read(alloc, name) {
        Ok(id) => Ok(id),
        Err(_) => Err(AllocError),
    }
}

fn link_key(alloc: Global, resource: &[u8]) -> Result<AlarmKey, AllocError>
    ensures { IfOk result IsKeyWithin }
{
    let Ok(resource) = Resource::read(alloc, resource) else {
        return Err(AllocError);
    };
    let type_id = type_id(alloc, b"ex:link")?;
    let qualifier = text(alloc, b"")?;
    Ok(AlarmKey {
        resource,
        type_id,
        qualifier,
    })
}

/// The report that the link of a resource has a major alarm.
#[tactic(auto, unfolding(al_model::specs::Limits::IsRequestWithin))]
fn report(alloc: Global, resource: &[u8], words: &[u8]) -> Result<Request, AllocError>
    requires { length words.now ≤ 255 }
    ensures { IfOk result IsRequestWithin }
{
    let key = link_key(alloc, resource)?;
    let text = text(alloc, words)?;
    Ok(Request::Report {
        key,
        status: Status::Active(Severity::Major),
        text,
    })
}

/// Opens the office that a disk's journal shows.
pub fn open(alloc: Global, disk: MemDisk) -> Result<Office<MemDisk>, OfficeFault> {
    match Office::open(alloc, disk) {
        Ok(office) => Ok(office),
        Err((_disk, fault)) => Err(fault),
    }
}

/// How many entries the history of these bytes has.
pub fn shown(alloc: Global, image: &[u8]) -> Result<usize, OfficeFault> {
    let office = open(alloc, disk_of(alloc, image, 100, &[])?)?;
    Ok(office.len())
}

/// Has the link of `eth1` reported.
pub fn tell(alloc: Global, office: &mut Office<MemDisk>, words: &[u8]) -> Result<Reply, Refusal>
    requires { length words.now ≤ 255 }
{
    let request = report(alloc, b"eth1", words)?;
    office.change(0, request, Stamp::EPOCH)
}
