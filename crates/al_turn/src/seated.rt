ghost use Rattle.al_turn.specs.Passes.{IsSince, identity_of, own_origin};
ghost use Rattle.al_turn.specs.Views.{is_taken};
ghost use Rattle.std.specs.Prelude.{◌≡◌, Some, false};

use crate::pass::Pass;
use crate::turns::Turns;
use crate::turnstile::Turnstile;
use crate::view::View;
use al_model::Kept;
use atomic_table::Seat;
use std::marker::Model;
use std::sync::Wait;

/// A pass at its turnstile, with which a thread takes turns. Contracts see it as the pass.
///
/// It has no `Drop`, so that no turn is lost: it ends in `into_pass`.
pub struct Seated<'a, T: Kept, R> {
    rt: &'a R,
    turnstile: &'a Turnstile<T>,
    seat: Seat<Option<T>, View>,
    /// While the value is out, the length that its history had.
    before: u64,
}

impl<'a, T: Kept, R> Model for Seated<'a, T, R> {
    ghost use Rattle.al_turn.specs.Passes.{IsSeated, PassState};
    ghost use Rattle.al_turn.specs.contracts.view.View as a_view;
    ghost use Rattle.std.specs.Coded.{codes};
    ghost use Rattle.std.specs.Prelude.{◌≡◌};

    ghost Value = { PassState };

    ghost coded = { Prim.hlevel (codes, a_view.the_row.coded) };

    ghost view = { λ s. record { table = s.seat.table_id; view = s.seat.me.0 } };

    ghost invariant = { λ s. (s.seat.table_id ≡ s.turnstile.now.table)
        × IsSeated s.seat.me s.before };
}

impl<'a, T: Kept, R> Seated<'a, T, R> {
    pub fn new(rt: &'a R, turnstile: &'a Turnstile<T>, pass: Pass<T>) -> Seated<'a, T, R>
        requires { pass.table ≡ turnstile.now.table }
        ensures pass { result ≡ pass }
        ensures idle { is_taken result.view ≡ false }
        ensures since { IsSince result.view }
    {
        let Pass { seat } = pass;
        Seated {
            rt,
            turnstile,
            seat,
            before: 0,
        }
    }

    /// The pass, as its turns left it.
    pub fn into_pass(self) -> Pass<T>
        requires { is_taken self.view ≡ false }
        ensures pass { result ≡ self.entry }
        ensures since { IsSince result.view }
    {
        let Seated {
            rt: _,
            turnstile: _,
            seat,
            before: _,
        } = self;
        Pass { seat }
    }
}

impl<'a, T: Kept, R: Wait> Turns<T> for Seated<'a, T, R> {
    ghost identity = { identity_of };

    ghost may_add = { own_origin };

    ghost seen = { λ s. s.view.seen };

    ghost taken = { λ s. is_taken s.view };

    ghost left = { λ s. Some s.view.left };

    fn take(&mut self) -> T {
        let turnstile = self.turnstile;
        let (value, before) = turnstile.take(self.rt, &mut self.seat);
        self.before = before;
        value
    }

    fn put(&mut self, value: T) {
        let turnstile = self.turnstile;
        turnstile.put(&mut self.seat, self.before, value);
    }
}
