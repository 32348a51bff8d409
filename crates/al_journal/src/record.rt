//! A payload as it goes to the disk.

ghost use Rattle.std.specs.Prelude.{◌≡◌, ◌≤◌, ◌++◌, IfOk, length};
ghost use Rattle.al_journal.specs.Format.{piece_of};

use std::alloc::{AllocError, Global};
use std::marker::Model;

/// A payload in one piece with its length in front and the next gate, which is shut, behind. It is seen as its payload.
#[derive(Debug, Drop)]
pub struct Record {
    bytes: Vec<u8>,
}

impl Model for Record {
    ghost use Rattle.std.specs.Prelude.{◌≡◌, ◌≤◌, ◌-◌, List, ℕ, length, take, drop};
    ghost use Rattle.al_journal.specs.Format.{piece_of};

    ghost Value = { List ℕ };

    ghost view = { λ r. take (length r.bytes.items - 5) (drop 4 r.bytes.items) };

    ghost invariant = { λ r. (r.bytes.items
        ≡ piece_of (take (length r.bytes.items - 5) (drop 4 r.bytes.items)))
        × (length r.bytes.items ≤ 268435461) };
}

impl Record {
    /// The record of a payload of at most 268,435,456 bytes.
    pub fn of(alloc: Global, payload: &[u8]) -> Result<Record, AllocError>
        requires { length payload.now ≤ 268435456 }
        ensures { IfOk result (λ made. made ≡ payload.now) }
    {
        let mut bytes = Vec::with_capacity(alloc, payload.len() + 5)?;
        bytes.extend_from_slice(&(payload.len() as u32).to_be_bytes())?;
        bytes.extend_from_slice(payload)?;
        bytes.push(0)?;
        Ok(Record { bytes })
    }

    /// How long the payload is.
    pub fn payload_len(&self) -> u64
        ensures len { result ≡ length self.now }
        ensures limit { result ≤ 268435456 }
    {
        self.bytes.len() as u64 - 5
    }

    /// The whole piece.
    pub fn piece(&self) -> &[u8]
        ensures { result.now ≡ piece_of self.now }
    {
        &self.bytes
    }
}
