use crate::view::View;
use atomic_table::Seat;
use std::marker::Model;

/// The right to take turns at a turnstile, and what its owner has seen of the value.
///
/// Contracts see the turnstile that it is of, and what it knows.
#[derive(Drop)]
pub struct Pass<T> {
    pub(crate) seat: Seat<Option<T>, View>,
}

impl<T> Model for Pass<T> {
    ghost use Rattle.al_turn.specs.Passes.{IsIdle, PassState};
    ghost use Rattle.al_turn.specs.contracts.view.View as a_view;
    ghost use Rattle.std.specs.Coded.{codes};

    ghost Value = { PassState };

    ghost coded = { Prim.hlevel (codes, a_view.the_row.coded) };

    ghost view = { λ p. record { table = p.seat.table_id; view = p.seat.me.0 } };

    ghost invariant = { λ p. IsIdle p.seat.me };
}
