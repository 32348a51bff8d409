//! A door in memory, which tells what it gives and takes.

ghost use Rattle.std.specs.Prelude.{◌≡◌, ◌≤◌, ◌<◌, ◌++◌, ◌∷◌, true, false, [], IfOk, IfSome, IfNone, OnOk, OnErr, slice_get};
ghost use Rattle.std.specs.Option.{option_copied};
ghost use Rattle.al_base.specs.Memory.{after_call, fails_next};
ghost use Rattle.al_base.specs.Outside.{Rose};
ghost use Rattle.al_serve.specs.Doors.{Gives, IsAtEnd, StaysOpen, TakesBack, connection_of};
ghost use Rattle.al_serve.specs.MemDoors.{mem_state};

use crate::doors::{DoorFault, Doors};
use al_base::{Plan, Sink, Source};
use std::alloc::{AllocError, Global};
use std::collections::VecDeque;
use std::marker::Model;

/// A door that gives the connections that it was made with, in order, and keeps those that were finished.
///
/// It takes its memory when it is made, and none afterwards. Its calls of `next_connection` are numbered from 1 over its life.
#[derive(Drop)]
pub struct MemDoors<I, O> {
    coming: VecDeque<(I, O)>,
    finished: Vec<(I, O)>,
    out: usize,
    plan: Plan,
}

impl<I, O> Model for MemDoors<I, O> {
    ghost use Rattle.std.specs.Prelude.{◌≤◌, ◌+◌, vec_len, vec_capacity, length};
    ghost use Rattle.al_serve.specs.MemDoors.{MemDoorsView};

    ghost Value = { MemDoorsView I O };

    ghost view = { λ d. record {
      coming = d.coming.items;
      finished = d.finished.items;
      out = d.out;
      plan = d.plan;
    } };

    ghost invariant = { λ d. length d.coming.items + d.out + vec_len d.finished
        ≤ vec_capacity d.finished };
}

impl<I: Source, O: Sink> MemDoors<I, O> {
    /// A door that gives these connections. Its calls fail whose number is in `fails`.
    pub fn new(
        alloc: Global,
        connections: Vec<(I, O)>,
        fails: &[u64],
    ) -> Result<MemDoors<I, O>, AllocError>
        ensures { IfOk result (λ doors.
            doors ≡ record {
              coming = connections.items;
              finished = [];
              out = 0;
              plan = record { fails = fails.now; calls = 0; faults = 0 };
            }) }
    {
        let finished = Vec::with_capacity(alloc, connections.len())?;
        let plan = Plan::new(alloc, fails)?;
        Ok(MemDoors {
            coming: VecDeque::from_vec(connections),
            finished,
            out: 0,
            plan,
        })
    }

    /// The connection that was finished after that many others.
    pub fn finished(&self, i: usize) -> Option<&(I, O)>
        ensures { option_copied result ≡ slice_get self.now.finished i }
    {
        self.finished.get(i)
    }
}

impl<I: Source, O: Sink> Doors for MemDoors<I, O> {
    type In = I;

    type Out = O;

    ghost state = { mem_state I.left I.faults O.held O.faults };

    fn next_connection(&mut self) -> Result<Option<(I, O)>, DoorFault>
        ensures gives { IfOk result (λ got.
            IfSome got (λ connection.
            Gives (mem_state I.left I.faults O.held O.faults self.old)
            (connection_of I.left I.faults O.held O.faults connection.0 connection.1)
            (mem_state I.left I.faults O.held O.faults self.new))) }
        ensures end { IfOk result (λ got.
            IfNone got (IsAtEnd (mem_state I.left I.faults O.held O.faults self.old))) }
        ensures ended { IfOk result (λ got.
            IfNone got (StaysOpen (mem_state I.left I.faults O.held O.faults self.old)
            (mem_state I.left I.faults O.held O.faults self.new))) }
        ensures fault { OnErr result
            (StaysOpen (mem_state I.left I.faults O.held O.faults self.old)
            (mem_state I.left I.faults O.held O.faults self.new)) }
        ensures later { self.old.plan.faults ≤ self.new.plan.faults }
        ensures cause { OnErr result (Rose self.old.plan.faults self.new.plan.faults) }
        ensures planned { OnErr result (fails_next self.old.plan ≡ true) }
        ensures unplanned { OnOk result (fails_next self.old.plan ≡ false) }
        ensures plan { self.new.plan ≡ after_call self.old.plan (fails_next self.old.plan) }
    {
        let failed = self.plan.fails_next();
        self.plan.count(failed);
        if failed {
            return Err(DoorFault);
        }
        match self.coming.pop_front() {
            Some(connection) => {
                self.out += 1;
                Ok(Some(connection))
            }
            None => Ok(None),
        }
    }

    fn finish(&mut self, input: I, output: O)
        requires { 0 < self.old.out }
        ensures takes { TakesBack (mem_state I.left I.faults O.held O.faults self.old)
            (connection_of I.left I.faults O.held O.faults input output)
            (mem_state I.left I.faults O.held O.faults self.new) }
        ensures later { self.old.plan.faults ≤ self.new.plan.faults }
        ensures kept { self.new.finished ≡ self.old.finished ++ (input, output) ∷ [] }
        ensures plan { self.new.plan ≡ self.old.plan }
    {
        self.out -= 1;
        self.finished.push_reserved((input, output));
    }
}
