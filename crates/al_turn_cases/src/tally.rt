ghost use Rattle.al_turn.specs.Histories.{GoesOn, MadeBy, further};
ghost use Rattle.al_turn_cases.specs.Tallies.{mark_of};
ghost use Rattle.std.specs.Prelude.{◌≡◌, Bool, ℕ, true};

use al_base::Stamp;
use al_model::{Entry, Event, Kept};
use std::alloc::{AllocError, Global};

/// A history alone.
#[derive(Drop)]
pub struct Tally {
    entries: Vec<Entry>,
}

impl Kept for Tally {
    ghost mark = { λ t. mark_of t.entries.items };

    fn entries(&self) -> u64 {
        self.entries.len() as u64
    }
}

impl Tally {
    /// No entry.
    pub fn new(alloc: Global) -> Tally {
        Tally {
            entries: Vec::new(alloc),
        }
    }

    /// Adds the entry of the origin's turn of that number.
    pub fn add(&mut self, origin: u16, turn: u64) -> Result<(), AllocError>
        ensures grows { GoesOn (mark_of self.old.entries.items) (mark_of self.new.entries.items) }
        ensures own { (origins : ℕ → Bool) → origins origin ≡ true
            → MadeBy origins (further self.new.entries.items self.old.entries.items) }
    {
        let time = Stamp::of(turn).unwrap_or(Stamp::LAST);
        let event = Event::SetMax(None);
        self.entries.push(Entry {
            time,
            origin,
            event,
        })?;
        Ok(())
    }

    /// How many entries the origin made.
    pub fn count(&self, origin: u16) -> usize {
        self.entries.iter().filter(|e| e.origin == origin).count()
    }

    /// Which turn of the origin made its newest entry, 0 where it has none.
    pub fn newest(&self, origin: u16) -> u64 {
        let mut turn = 0;
        for entry in &self.entries {
            if entry.origin == origin {
                turn = entry.time.ms();
            }
        }
        turn
    }
}
