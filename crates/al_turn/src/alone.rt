ghost use Rattle.al_turn.specs.Passes.{no_identity};
ghost use Rattle.std.specs.Prelude.{◌≡◌, None, false, true};

use crate::turns::Turns;
use al_model::Kept;
use std::marker::Model;
use std::snapshot::Snapshot;

/// A value without a lock: its one owner takes it and puts it back, and waits for nobody.
///
/// Contracts see the history, count of faults and fixed part that were seen last, and whether the value is out.
#[derive(Drop)]
pub struct Alone<T: Kept> {
    value: Option<T>,
    last: Snapshot<T>,
}

impl<T: Kept> Model for Alone<T> {
    ghost use Rattle.al_turn.specs.Passes.{AloneState};
    ghost use Rattle.al_turn.specs.contracts.view.View as a_view;
    ghost use Rattle.std.specs.Coded.{codes};
    ghost use Rattle.std.specs.Prelude.{◌≡◌, IfSome, is_none};

    ghost Value = { AloneState };

    ghost coded = { Prim.hlevel (codes, a_view.the_row.coded) };

    ghost view = { λ a. record { seen = T.mark a.last.value; taken = is_none a.value } };

    ghost invariant = { λ a. IfSome a.value (λ value. value ≡ a.last.value) };
}

impl<T: Kept> Alone<T> {
    pub fn new(value: T) -> Alone<T>
        ensures seen { result.seen ≡ T.mark value }
        ensures idle { result.taken ≡ false }
    {
        let last = Snapshot::of(&value);
        Alone {
            value: Some(value),
            last,
        }
    }

    /// The value, as it was put back last.
    pub fn into_inner(self) -> T
        requires { self.taken ≡ false }
        ensures { T.mark result ≡ self.seen }
    {
        let Alone { value, last: _ } = self;
        value.unwrap()
    }
}

impl<T: Kept> Turns<T> for Alone<T> {
    ghost identity = { λ a. no_identity };

    ghost may_add = { λ a origin. true };

    ghost seen = { λ a. a.seen };

    ghost taken = { λ a. a.taken };

    ghost left = { λ a. None };

    fn take(&mut self) -> T {
        self.value.take().unwrap()
    }

    fn put(&mut self, value: T) {
        self.last = Snapshot::of(&value);
        self.value = Some(value);
    }
}
