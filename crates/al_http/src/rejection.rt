ghost use Rattle.std.specs.Prelude.{◌≡◌};
ghost use Rattle.al_http.specs.ErrorRows.{IsErrorRow, rejection_row};
ghost use Rattle.al_http.specs.Moves.{stop_of};

use crate::framer::Stop;

/// Why an input is rejected where a request has to begin.
#[derive(Clone, Copy, Debug, PartialEq, Eq)]
pub enum Rejection {
    /// There is no head, or it states no length of its body.
    Bad,
    /// The head has too many bytes or lines.
    HeadTooBig,
    /// The body has too many bytes.
    BodyTooBig,
    /// The body comes in a transfer coding.
    Unimplemented,
}

impl Rejection {
    /// The number of the refusal that tells it.
    pub fn row(self) -> u8
        ensures row { result ≡ rejection_row self }
        ensures known { IsErrorRow result }
    {
        match self {
            Rejection::Bad => 1,
            Rejection::HeadTooBig => 2,
            Rejection::BodyTooBig => 3,
            Rejection::Unimplemented => 4,
        }
    }

    /// The stop that it is for a framer.
    pub(crate) fn stop(self) -> Stop
        ensures { result ≡ stop_of self }
    {
        match self {
            Rejection::Bad => Stop::Bad,
            Rejection::HeadTooBig => Stop::HeadTooBig,
            Rejection::BodyTooBig => Stop::BodyTooBig,
            Rejection::Unimplemented => Stop::Unimplemented,
        }
    }
}
