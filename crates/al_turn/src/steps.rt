//! What each atomic step of the turnstile tells the pass that makes it.
ghost use Rattle.al_turn.specs.Views.{Fetched, GivenBack, drew, ended, joined_of, looked, next_view, one_more, spent_view, with_joined};
ghost use Rattle.std.specs.Prelude.{◌≡◌, [], ◌∷◌};

use crate::view::View;
use al_model::Kept;
use atomic_table::{Join, Play, Split};

/// Draws a ticket.
pub(crate) struct Draws;

impl<T> Play<Option<T>, View> for Draws {
    ghost then = { λ st m n r. r ≡ (drew m.0 n, m.1) };
}

/// Looks which ticket is served.
pub(crate) struct Looks;

impl<T> Play<Option<T>, View> for Looks {
    ghost then = { λ st m n r. r ≡ (looked m.0 n, m.1) };
}

/// Reads the length of the history, and takes the slot out.
pub(crate) struct Fetches;

impl<T: Kept> Play<Option<T>, View> for Fetches {
    ghost then = { λ st m n r. Fetched T.mark m n r };
}

/// Adds to the length what was added to the history, and puts the slot back.
pub(crate) struct Counts;

impl<T: Kept> Play<Option<T>, View> for Counts {
    ghost then = { λ st m n r. GivenBack T.mark m r };
}

/// Serves the next ticket.
pub(crate) struct Ends;

impl<T> Play<Option<T>, View> for Ends {
    ghost then = { λ st m n r. r ≡ (ended m.0, m.1) };
}

/// Pass 1 makes another pass.
pub(crate) struct Next;

impl Split<View> for Next {
    ghost left = { one_more };

    ghost right = { next_view };
}

/// Pass 1 takes in another pass.
pub(crate) struct Gathers;

impl Join<View> for Gathers {
    ghost both = { with_joined };

    ghost spent = { spent_view };
}
