//! A history, and a service that adds to it.

ghost use Rattle.al_http.specs.Services.{Adds};
ghost use Rattle.al_serve_cases.specs.Tallies.{AnswersDone, mark_of};
ghost use Rattle.std.specs.Prelude.{◌≡◌, OnErr};

use al_base::Stamp;
use al_http::{HttpRequest, Response, Service};
use al_model::{Entry, Event, Kept};
use std::alloc::{AllocError, Global};

/// A history alone.
#[derive(Drop)]
pub struct Tally {
    entries: Vec<Entry>,
}

impl Kept for Tally {
    ghost mark = { λ t. mark_of t.entries.items };

    fn entries(&self) -> u64 {
        self.entries.len() as u64
    }
}

impl Tally {
    /// No entry.
    pub fn new(alloc: Global) -> Tally {
        Tally {
            entries: Vec::new(alloc),
        }
    }

    /// Adds an entry of the origin, or there was no memory.
    fn add(&mut self, origin: u16, time: Stamp) -> Result<(), AllocError>
        ensures adds { Adds origin (mark_of self.old.entries.items)
            (mark_of self.new.entries.items) }
        ensures err { OnErr result (self.new.entries.items ≡ self.old.entries.items) }
    {
        let event = Event::SetMax(None);
        self.entries.push(Entry {
            time,
            origin,
            event,
        })?;
        Ok(())
    }
}

/// Answers every request by 204. A POST adds an entry first.
#[derive(Drop)]
pub struct Adder;

impl Service<Tally> for Adder {
    ghost answers = { λ a. AnswersDone };

    fn answer(
        &mut self,
        kept: &mut Tally,
        origin: u16,
        request: &HttpRequest,
        now: Stamp,
    ) -> Result<Response, AllocError> {
        let response = Response::bodiless(204, Some(kept.entries()));
        if request.method() == b"POST".as_slice() {
            kept.add(origin, now)?;
        }
        Ok(response)
    }
}
