//! Frames, whole.

ghost use Rattle.al_frame.specs.Formats.{Gives};
ghost use Rattle.al_frame.specs.Frames.{entry as entry_format, entry_of, frame_of};
ghost use Rattle.al_model.specs.Limits.{IsEntryWithin};
ghost use Rattle.std.specs.Prelude.{◌≡◌, Ok, true, IfOk};

use crate::entry::EntryFields;
use crate::fault::FrameFault;
use crate::field::Field;
use al_model::Entry;
use std::alloc::{AllocError, Global};

/// The frame of an entry within limits. Its length is found first, and its room is taken at once.
pub fn encode(alloc: Global, entry: &Entry) -> Result<Vec<u8>, AllocError>
    requires { IsEntryWithin entry.now }
    ensures { IfOk result (λ frame. frame.items ≡ frame_of entry.now) }
{
    spelled(alloc, entry)
}

#[tactic(auto, unfolding(crate::specs::Frames::frame_of))]
fn spelled(alloc: Global, entry: &Entry) -> Result<Vec<u8>, AllocError>
    requires { entry_format.fits entry.now ≡ true }
    ensures { IfOk result (λ frame. frame.items ≡ frame_of entry.now) }
{
    let mut frame = Vec::with_capacity(alloc, EntryFields::len(entry))?;
    EntryFields::put(entry, &mut frame)?;
    Ok(frame)
}

/// The entry whose frame the bytes are.
pub fn decode(alloc: Global, bytes: &[u8]) -> Result<Entry, FrameFault>
    // It is what the grammar says, entry or fault, unless memory runs out.
    ensures exact { Gives (λ entry. entry) result (entry_of bytes.now) }
    // What is read is an entry within limits, and the bytes are its frame.
    ensures found { IfOk result (λ entry. IsEntryWithin entry × (bytes.now ≡ frame_of entry)) }
    // The frame of an entry within limits is read as it, unless memory runs out.
    ensures only { (entry : Entry) → IsEntryWithin entry → bytes.now ≡ frame_of entry
        → Gives (λ entry. entry) result (Ok entry) }
{
    whole(alloc, bytes)
}

#[tactic(auto, unfolding(crate::specs::Frames::entry_of))]
fn whole(alloc: Global, bytes: &[u8]) -> Result<Entry, FrameFault>
    ensures { Gives (λ entry. entry) result (entry_of bytes.now) }
{
    let n = bytes.len();
    let (entry, rest) = EntryFields::read(alloc, n, bytes)?;
    if !rest.is_empty() {
        return Err(FrameFault::Trailing(n.saturating_sub(rest.len())));
    }
    Ok(entry)
}
