//! Laws of frames, which hold of the definitions alone.

ghost use Rattle.al_frame.specs.Frames.{entry_of, frame_of};
ghost use Rattle.al_model.specs.Limits.{IsEntryWithin};
ghost use Rattle.al_model.specs.declared.entry.Entry.{Entry};
ghost use Rattle.std.specs.Prelude.{◌≡◌, ◌++◌, ◌∷◌, [], ℕ, List, Ok, Err, length};

use crate::fault::FrameFault;

/// The frame of an entry within limits is read as that entry, and no frame begins another: no frame is a front of a longer one,
/// and two entries with one frame are one.
pub fn frames_are_their_entries()
    ensures read { (e : Entry) → IsEntryWithin e → entry_of (frame_of e) ≡ Ok e }
    ensures no_longer { (a b : Entry) (more : List ℕ) → IsEntryWithin a → IsEntryWithin b
        → frame_of b ≡ frame_of a ++ more → (more ≡ []) × (a ≡ b) }
{}

/// A frame that is cut is truncated, wherever the cut is, and bytes behind a frame are trailing where it ends.
pub fn cuts_and_additions_are_told()
    ensures cut { (e : Entry) (front : List ℕ) (byte : ℕ) (behind : List ℕ) → IsEntryWithin e
        → frame_of e ≡ front ++ (byte ∷ behind)
        → entry_of front ≡ Err (FrameFault.Truncated (length front)) }
    ensures trailing { (e : Entry) (byte : ℕ) (more : List ℕ) → IsEntryWithin e
        → entry_of (frame_of e ++ (byte ∷ more)) ≡ Err (FrameFault.Trailing (length (frame_of e))) }
    ensures bad { (e : Entry) (bytes more : List ℕ) (place : ℕ) → IsEntryWithin e
        → entry_of bytes ≡ Err (FrameFault.Byte place) → ¬ (frame_of e ≡ bytes ++ more) }
{}
