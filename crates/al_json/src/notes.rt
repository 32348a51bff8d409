//! The log of notes.

ghost use Rattle.al_notify.specs.Logs.{page_of};
ghost use Rattle.std.specs.Prelude.{◌≡◌, length};

use crate::note::note_object;
use al_base::limits::MOST_PAGE_NOTES;
use al_fields::{Series, Shown};
use al_notify::NoteLog;
use serde_json::Value;
use std::alloc::{AllocError, Global};

/// The notes of a page of the log, which begins with the note of this number.
#[derive(Clone, Copy)]
pub(crate) struct Notes<'a>(pub(crate) &'a NoteLog, pub(crate) u32);

impl<'a> Series for Notes<'a> {
    ghost use Rattle.al_json.specs.Notes.{note_tree};
    ghost use Rattle.al_notify.specs.Logs.{page_of};
    ghost use Rattle.std.specs.Prelude.{map};

    ghost trees = { λ s. map note_tree (page_of s.0.now s.1) };

    fn count(&self) -> usize {
        page_len(self.0, self.1)
    }

    fn value_at(&self, alloc: Global, i: usize) -> Result<Option<Value>, AllocError> {
        let page = self.0.page(self.1);
        match page.at(i) {
            Some(found) => note_object(found).value(alloc),
            None => Ok(None),
        }
    }

    fn put_at(&self, out: &mut Vec<u8>, i: usize) {
        let page = self.0.page(self.1);
        if let Some(found) = page.at(i) {
            note_object(found).put(out);
        }
    }

    fn len_at(&self, i: usize) -> u64 {
        let page = self.0.page(self.1);
        match page.at(i) {
            Some(found) => note_object(found).text_len(),
            None => 0,
        }
    }
}

/// How many notes the page of the log has that begins with the note of this number.
#[tactic(auto, using(crate::proofs::Pages::page_long))]
fn page_len(log: &NoteLog, start: u32) -> usize
    ensures { result ≡ length (page_of log.now start) }
{
    let oldest = u64::from(log.oldest());
    let kept = u64::from(log.sent()) + 1 - oldest;
    let skipped = u64::from(start).saturating_sub(oldest);
    (kept.saturating_sub(skipped) as usize).min(MOST_PAGE_NOTES)
}
