ghost use Rattle.al_turn.specs.Histories.{GoesOn, MadeBy, further};
ghost use Rattle.al_turn.specs.Passes.{AllPasses, Closed, IsIdle};
ghost use Rattle.al_turn.specs.Views.{Found, counted, drew, ended, fetched, first_view, looked, next_view, one_more, rank};
ghost use Rattle.std.specs.Prelude.{◌≡◌, ◌==◌, ◌<◌, ℕ, IfErr, IfOk, None, [], ◌∷◌, length};

use crate::pass::Pass;
use crate::steps::{Counts, Draws, Ends, Fetches, Gathers, Looks, Next};
use crate::view::View;
use al_model::Kept;
use atomic_table::{Refused, Seat, Table, TableRule};
use std::alloc::{AllocError, Global};
use std::marker::{Model, PhantomData};
use std::snapshot::Snapshot;
use std::sync::Wait;

/// The word with the next ticket.
const TICKET: usize = 0;

/// The word with the ticket that is served.
const SERVING: usize = 1;

/// The word with the length of the history.
const LENGTH: usize = 2;

/// The rule of the table: `specs/Rule.antt`.
pub struct Rule<T> {
    marker: PhantomData<T>,
}

impl<T: Kept> TableRule<Option<T>, View, Snapshot<T>> for Rule<T> {
    ghost use Rattle.al_turn.specs.Rule.{Turning};

    ghost holds = { λ key. Turning T.mark (T.mark key.value) };

    ghost first = { λ key. first_view (T.mark key.value) };
}

/// A value that many threads may use, one at a time, in the order in which they drew tickets.
///
/// Contracts see which turnstile it is, and the history, count of faults and fixed part of the value that it was made with.
#[derive(Drop)]
pub struct Turnstile<T: Kept> {
    table: Table<Option<T>, View, Snapshot<T>, Rule<T>, Global>,
}

impl<T: Kept> Model for Turnstile<T> {
    ghost use Rattle.al_turn.specs.Passes.{LockState};
    ghost use Rattle.al_turn.specs.contracts.view.View as a_view;
    ghost use Rattle.std.specs.Coded.{codes};
    ghost use Rattle.std.specs.Prelude.{◌≡◌};

    ghost Value = { LockState };

    ghost coded = { Prim.hlevel (codes, a_view.the_row.coded) };

    ghost view = { λ t. record {
      table = t.table.shared.table_id;
      start = T.mark t.table.shared.key.value;
    } };

    ghost invariant = { λ t. (t.table.shared.table_id.words ≡ 3)
        × (t.table.shared.table_id.slots ≡ 1) };
}

impl<T: Kept> Turnstile<T> {
    /// A turnstile over the value, and pass 1, which has seen the value and put nothing.
    ///
    /// # Errors
    /// There was no memory: the value comes back.
    pub fn new(alloc: Global, value: T) -> Result<(Turnstile<T>, Pass<T>), (T, AllocError)>
        ensures ok { IfOk result (λ made. (made.0.start ≡ T.mark value)
            × (made.1.table ≡ made.0.table) × (made.1.view ≡ first_view (T.mark value))) }
        ensures err { IfErr result (λ refused. refused.0 ≡ value) }
    {
        let key = Snapshot::of(&value);
        let length = value.entries();
        let Ok(mut slots) = Vec::with_capacity(alloc, 1) else {
            return Err((value, AllocError));
        };
        slots.push_reserved(Some(value));
        match Table::new(alloc, &[0, 0, length], slots, &key) {
            Ok((table, seat)) => Ok((Turnstile { table }, Pass { seat })),
            Err(Refused { mut slots }) => Err((slots.remove(0).unwrap(), AllocError)),
        }
    }

    /// Pass 1 makes the pass with the next number, which has seen what pass 1 has. It can't fail, whatever memory there is.
    pub fn split(&self, pass: Pass<T>) -> (Pass<T>, Pass<T>)
        requires table { pass.table ≡ self.now.table }
        requires first { pass.view.number ≡ 1 }
        requires few { pass.view.made < 65535 }
        ensures first { (result.0.table ≡ pass.table) × (result.0.view ≡ one_more pass.view) }
        ensures second { (result.1.table ≡ pass.table) × (result.1.view ≡ next_view pass.view) }
    {
        let Pass { mut seat } = pass;
        let second = self.table.shared.split_seat::<Next>(&mut seat);
        (Pass { seat }, Pass { seat: second })
    }

    /// The value, once every pass has come back: the passes from 1 to the number made, in this order.
    pub fn close(self, mut passes: Vec<Pass<T>>) -> T
        requires { AllPasses self.table passes.items }
        ensures { Closed self.start passes.items (T.mark result) }
    {
        let Turnstile { table } = self;
        let Pass { seat: mut first } = passes.remove(0);
        while let Some(pass) = passes.pop() {
            let Pass { seat } = pass;
            table.shared.join_seat::<Gathers>(&mut first, seat);
        }
        let mut closed = table.close_with(first);
        let value = closed.take(0).unwrap();
        closed.free();
        value
    }

    /// Draws a ticket, and waits until it is served.
    fn wait<R: Wait>(&self, rt: &R, seat: &mut Seat<Option<T>, View>)
        requires table { seat.old.table_id ≡ self.now.table }
        requires idle { IsIdle seat.old.me }
        requires turn { 0 < seat.old.me.0.left }
        ensures table { seat.new.table_id ≡ seat.old.table_id }
        ensures served { (ticket : ℕ)
            × (seat.new.me ≡ (looked (drew seat.old.me.0 ticket) ticket, [])) }
    {
        let shared = &self.table.shared;
        let ticket = shared.fetch_add::<Draws>(seat, TICKET, 1);
        for _ in rt.forever() {
            let serving = shared.load::<Looks>(seat, SERVING);
            if serving == ticket {
                break;
            }
            shared.park(rt, SERVING, (serving & 0xffff_ffff) as u32);
        }
    }

    /// Waits for a turn, and takes the value out. The number is the length of its history.
    pub(crate) fn take<R: Wait>(&self, rt: &R, seat: &mut Seat<Option<T>, View>) -> (T, u64)
        requires table { seat.old.table_id ≡ self.now.table }
        requires idle { IsIdle seat.old.me }
        requires turn { 0 < seat.old.me.0.left }
        ensures table { seat.new.table_id ≡ seat.old.table_id }
        ensures seat { (ticket : ℕ)
            × (seat.new.me ≡ (
              fetched (drew seat.old.me.0 ticket) (T.mark result.0),
              (0, None) ∷ [],
            )) }
        ensures length { result.1 ≡ length (T.mark result.0).entries }
        ensures found { Found seat.old.me.0 (T.mark result.0) }
    {
        self.wait(rt, seat);
        let shared = &self.table.shared;
        let length = shared.load::<Fetches>(seat, LENGTH);
        let value = shared.exchange(seat, 0, None).unwrap();
        (value, length)
    }

    /// Puts the value back, which has grown from a history of the length `before`, and ends the turn.
    pub(crate) fn put(&self, seat: &mut Seat<Option<T>, View>, before: u64, value: T)
        requires table { seat.old.table_id ≡ self.now.table }
        requires out { (0 < seat.old.me.0.number) × (rank seat.old.me.0.stage ≡ 3)
            × (seat.old.me.1 ≡ (0, None) ∷ []) }
        requires before { before ≡ length seat.old.me.0.seen.entries }
        requires goes_on { GoesOn seat.old.me.0.seen (T.mark value) }
        requires own { MadeBy (λ origin.
            origin == seat.old.me.0.number)
            (further (T.mark value).entries seat.old.me.0.seen.entries) }
        ensures table { seat.new.table_id ≡ seat.old.table_id }
        ensures seat { seat.new.me ≡ (ended (counted seat.old.me.0 (T.mark value)), []) }
    {
        let shared = &self.table.shared;
        let added = value.entries() - before;
        drop(shared.exchange(seat, 0, Some(value)));
        shared.fetch_add::<Counts>(seat, LENGTH, added);
        shared.fetch_add::<Ends>(seat, SERVING, 1);
        shared.wake_all(SERVING);
    }
}
