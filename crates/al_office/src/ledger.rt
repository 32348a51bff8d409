//! A legal history and the tables that it leaves, in memory.

ghost use Rattle.std.specs.Option.{option_copied};
ghost use Rattle.std.specs.Prelude.{◌≡◌, ◌<◌, ◌↔◌, [], ◌∷◌, ◌++◌, IfOk, IsTrue, length, slice_get, vec_len, vec_capacity};
ghost use Rattle.al_model.specs.Decision.{decision_of};
ghost use Rattle.al_model.specs.History.{Fits, IsLegal, replay};
ghost use Rattle.al_model.specs.Limits.{IsEntryWithin, IsRequestWithin};
ghost use Rattle.al_office.specs.Ledger.{CanAdd, CanNote, carried_out};

use crate::deciding::{time_after, to_carry_out};
use al_base::Stamp;
use al_lists::{Prepared, Tables};
use al_model::{Entry, Refusal, Reply, Request};
use std::alloc::{AllocError, Global};
use std::marker::Model;

/// The history and what is known after it.
#[derive(Debug, Drop)]
pub struct Ledger {
    entries: Vec<Entry>,
    tables: Tables,
}

impl Model for Ledger {
    ghost use Rattle.std.specs.Prelude.{◌-◌, vec_len, vec_capacity};
    ghost use Rattle.al_office.specs.Ledger.{IsKept, LedgerView};

    ghost Value = { LedgerView };

    ghost view = { λ l. record {
      entries = l.entries.items;
      tables = l.tables;
      room = vec_capacity l.entries - vec_len l.entries;
    } };

    ghost invariant = { λ l. IsKept l.entries.items l.tables.state };
}

impl Ledger {
    /// A ledger of an empty history.
    pub fn new(alloc: Global) -> Result<Ledger, AllocError>
        ensures { IfOk result (λ ledger. ledger.entries ≡ []) }
    {
        Ok(Ledger {
            entries: Vec::new(alloc),
            tables: Tables::new(alloc)?,
        })
    }

    /// Decides on the request: the entry that carries it out and its reply, or what is answered at once. It can't fail, whatever memory there is.
    pub fn decide(
        &self,
        origin: u16,
        request: Request,
        now: Stamp,
    ) -> Result<(Entry, Reply), Result<Reply, Refusal>>
        requires { IsRequestWithin request }
        ensures decided { result ≡ carried_out (replay self.now.entries) origin now
            (decision_of (replay self.now.entries) request now) }
        ensures fits { IfOk result (λ change. Fits (replay self.now.entries) change.0) }
    {
        match to_carry_out(self.tables.decide(request, now)) {
            Ok((event, reply)) => {
                let time = time_after(self.tables.time(), now);
                let entry = Entry {
                    time,
                    origin,
                    event,
                };
                Ok((entry, reply))
            }
            Err(answer) => Err(answer),
        }
    }

    /// Whether the entry may come next. It can't fail, whatever memory there is.
    pub fn fits(&self, entry: &Entry) -> bool
        requires { IsEntryWithin entry.now }
        ensures { IsTrue result ↔ Fits (replay self.now.entries) entry.now }
    {
        self.tables.fits(entry)
    }

    /// Takes the memory that the entry needs. Till it is added, the history stays.
    pub fn prepare(&mut self, entry: &Entry) -> Result<Prepared, AllocError>
        requires fits { Fits (replay self.old.entries) entry.now }
        requires note { CanNote self.old.entries }
        ensures entries { self.new.entries ≡ self.old.entries }
        ensures ok { IfOk result (CanAdd self.new entry.now) }
    {
        self.entries.reserve(1)?;
        self.tables.prepare(entry)
    }

    /// Adds an entry for which the memory is taken. It takes none and can't fail.
    pub fn add(&mut self, entry: Entry, prepared: Prepared)
        requires fits { Fits (replay self.old.entries) entry }
        requires room { CanAdd self.old entry prepared }
        ensures { self.new.entries ≡ self.old.entries ++ entry ∷ [] }
    {
        push_entry(&mut self.entries, entry);
        self.tables.apply(prepared);
    }

    /// The tables that the history leaves.
    pub fn tables(&self) -> &Tables
        ensures { result.now.state ≡ replay self.now.entries }
    {
        &self.tables
    }

    /// The history is legal, whatever was done to it.
    pub fn history_is_legal(&self)
        ensures { IsLegal self.now.entries }
    {
        let _ = &self.entries;
    }

    /// How many entries there are.
    pub fn len(&self) -> usize
        ensures { result ≡ length self.now.entries }
    {
        self.entries.len()
    }

    /// The entry with this number, counted from 0.
    pub fn entry(&self, n: usize) -> Option<&Entry>
        ensures { option_copied result ≡ slice_get self.now.entries n }
    {
        self.entries.get(n)
    }
}

/// Adds an entry for which there is room.
fn push_entry(entries: &mut Vec<Entry>, entry: Entry)
    requires { vec_len entries.old < vec_capacity entries.old }
    ensures { entries.new.items ≡ entries.old.items ++ entry ∷ [] }
{
    let _ = entries.push(entry);
}
