//! Entries: a time, an origin and an event.

ghost use Rattle.al_frame.specs.Frames.{entry};

use crate::event::EventFields;
use crate::fault::FrameFault;
use crate::field::Field;
use crate::number::{bad, put_u16, put_u64, u16_at, u64_at};
use al_base::Stamp;
use al_model::Entry;
use std::alloc::{AllocError, Global};

/// A change of the history.
pub struct EntryFields;

impl Field for EntryFields {
    type Value = Entry;

    ghost format = { entry };

    #[tactic(auto, unfolding(crate::specs::Frames::entry, crate::specs::Formats::passed))]
    fn read(alloc: Global, n: usize, bytes: &[u8]) -> Result<(Entry, &[u8]), FrameFault> {
        let (ms, rest) = u64_at(n, bytes)?;
        let Some(time) = Stamp::of(ms) else {
            return Err(bad(n, bytes));
        };
        let (origin, rest) = u16_at(n, rest)?;
        let (event, rest) = EventFields::read(alloc, n, rest)?;
        let entry = Entry {
            time,
            origin,
            event,
        };
        Ok((entry, rest))
    }

    #[tactic(auto, unfolding(crate::specs::Frames::entry))]
    fn len(entry: &Entry) -> usize {
        EventFields::len(&entry.event).saturating_add(10)
    }

    #[tactic(auto, unfolding(crate::specs::Frames::entry))]
    fn put(entry: &Entry, out: &mut Vec<u8>) -> Result<(), AllocError> {
        put_u64(entry.time.ms(), out)?;
        put_u16(entry.origin, out)?;
        EventFields::put(&entry.event, out)
    }
}
