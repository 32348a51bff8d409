ghost use Rattle.al_model.specs.declared.kept.Mark.{Mark};
ghost use Rattle.al_turn.specs.Histories.{GoesOn, MadeBy, MadeByOthers, entries_of, further};
ghost use Rattle.al_turn.specs.Identities.{HasTurn, Identity, one_less};
ghost use Rattle.std.specs.Prelude.{◌≡◌, ◌≤◌, ℕ, Bool, Option, false, length, true};

use al_model::Kept;

/// Turns at a value that keeps a history: it is taken, and put back grown.
pub trait Turns<T: Kept> {
    /// Whose turns these are. No call changes it.
    ghost identity: { Self → Identity };

    /// Which origins the entries may have that its puts add. No call changes it.
    ghost may_add: { Self → ℕ → Bool };

    /// The history, count of faults and fixed part seen last.
    ghost seen: { Self → Mark };

    /// Whether the value is out with it.
    ghost taken: { Self → Bool };

    /// How many turns are left, where they have an end.
    ghost left: { Self → Option ℕ };

    /// The value. Its history begins with all that was seen, and nothing further in it is one's own.
    fn take(&mut self) -> T
        requires idle { taken self.old ≡ false }
        requires turn { HasTurn (left self.old) }
        ensures goes_on { GoesOn (seen self.old) (T.mark result) }
        ensures others { MadeByOthers (may_add self.old)
            (further (T.mark result).entries (seen self.old).entries) }
        ensures own { (origin : ℕ) → may_add self.old origin ≡ true
            → entries_of (T.mark result).entries origin (identity self.old).base
            ≡ entries_of (seen self.old).entries origin (identity self.old).base }
        ensures taken { taken self.new ≡ true }
        ensures seen { seen self.new ≡ T.mark result }
        ensures since { (identity self.new).base ≤ length (seen self.new).entries }
        ensures identity { identity self.new ≡ identity self.old }
        ensures may_add { may_add self.new ≡ may_add self.old }
        ensures left { left self.new ≡ left self.old };

    /// Puts the value back, which has gone on from the one taken by one's own entries alone. It uses up a turn.
    fn put(&mut self, value: T)
        requires taken { taken self.old ≡ true }
        requires goes_on { GoesOn (seen self.old) (T.mark value) }
        requires own { MadeBy (may_add self.old)
            (further (T.mark value).entries (seen self.old).entries) }
        ensures idle { taken self.new ≡ false }
        ensures seen { seen self.new ≡ T.mark value }
        ensures since { (identity self.new).base ≤ length (seen self.new).entries }
        ensures identity { identity self.new ≡ identity self.old }
        ensures may_add { may_add self.new ≡ may_add self.old }
        ensures left { left self.new ≡ one_less (left self.old) };
}
