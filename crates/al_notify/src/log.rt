ghost use Rattle.al_notify.specs.Logs.{LogView, empty_log, logged, oldest_of, page_of, IsLog};
ghost use Rattle.std.specs.Prelude.{◌≡◌, ◌+◌, ◌-◌, ◌<◌, ◌≤◌, IfOk, drop, length, slice_get};
ghost use Rattle.std.specs.Option.{option_copied};
ghost use Rattle.std.specs.VecDeque.{deque_capacity, deque_len};

use crate::note::Note;
use al_base::limits::{MOST_NOTES, MOST_PAGE_NOTES};
use std::alloc::{AllocError, Global};
use std::collections::VecDeque;
use std::marker::Model;

/// The notifications that were sent: how many, and the last 4,096 of them.
#[derive(Debug, Drop)]
pub struct NoteLog {
    notes: VecDeque<Note>,
    sent: u32,
}

impl Model for NoteLog {
    ghost use Rattle.al_notify.specs.Logs.{LogView, IsLog};
    ghost use Rattle.std.specs.Prelude.{◌≤◌};
    ghost use Rattle.std.specs.VecDeque.{deque_capacity};

    ghost Value = { LogView };

    ghost view = { λ log. record { sent = log.sent; notes = log.notes.items } };

    ghost invariant = { λ log. IsLog (record { sent = log.sent; notes = log.notes.items })
        × (4096 ≤ deque_capacity log.notes) };
}

/// Some notes of a log, one after the other.
#[derive(Debug, Drop)]
pub struct Page<'a> {
    notes: &'a VecDeque<Note>,
    /// Where the first note of the page stands.
    first: usize,
}

impl<'a> Model for Page<'a> {
    ghost use Rattle.al_notify.specs.declared.note.Note.{Note};
    ghost use Rattle.std.specs.Prelude.{◌<◌, ◌^◌, List, drop, take};

    ghost Value = { List Note };

    ghost view = { λ page. take 256 (drop page.first page.notes.now.items) };

    ghost invariant = { λ page. page.first < 2 ^ 32 };
}

impl NoteLog {
    /// A log without notes, with the room for all that it will keep.
    pub fn new(alloc: Global) -> Result<NoteLog, AllocError>
        ensures { IfOk result (λ log. log ≡ empty_log) }
    {
        Ok(NoteLog {
            notes: VecDeque::with_capacity(alloc, MOST_NOTES)?,
            sent: 0,
        })
    }

    /// Adds the next note, and lets go the oldest one where 4,096 are kept. It can't fail, whatever memory there is.
    pub fn append(&mut self, note: Note)
        requires { note.number ≡ self.old.sent + 1 }
        ensures { self.new ≡ logged note self.old }
    {
        make_room(&mut self.notes);
        self.sent = note.number;
        // There is room for one, so it can't fail.
        let _ = self.notes.push_back(note);
    }

    /// How many notes were sent, which is the number of the last one.
    pub fn sent(&self) -> u32
        ensures value { result ≡ self.now.sent }
        ensures sound { IsLog self.now }
    {
        self.sent
    }

    /// The number of the oldest note that is kept, or of the next one where none is.
    pub fn oldest(&self) -> u32
        ensures { result ≡ oldest_of self.now }
    {
        self.sent - self.notes.len() as u32 + 1
    }

    /// The notes numbered from `start` on, or from the oldest where that is later: at most 256.
    pub fn page(&self, start: u32) -> Page<'_>
        ensures { result ≡ page_of self.now start }
    {
        Page {
            notes: &self.notes,
            first: start.saturating_sub(self.oldest()) as usize,
        }
    }
}

impl<'a> Page<'a> {
    /// The note at this place of the page, counted from 0.
    pub fn at(&self, i: usize) -> Option<&Note>
        ensures { option_copied result ≡ slice_get self.now i }
    {
        if i < MOST_PAGE_NOTES {
            self.notes.get(self.first + i)
        } else {
            None
        }
    }
}

/// Lets go the oldest note where no more can be kept.
fn make_room(notes: &mut VecDeque<Note>)
    requires { deque_len notes.old ≤ 4096 }
    ensures items { notes.new.items ≡ drop (length notes.old.items + 1 - 4096) notes.old.items }
    ensures room { deque_len notes.new < 4096 }
    ensures capacity { deque_capacity notes.new ≡ deque_capacity notes.old }
{
    if notes.len() >= MOST_NOTES {
        let _ = notes.pop_front();
    }
}
