//! Laws of the request stream, for every list of bytes, and a walk through a whole one.

ghost use Rattle.std.specs.Prelude.{◌≡◌, ℕ, List, length, Some, IfOk, OnErr};
ghost use Rattle.al_base.specs.Outside.{Rose};
ghost use Rattle.al_http.specs.Laws.{HasOneRequest, GoesOnOrEnds, HasOneEnd, IsOneStream, GivesNothingFirst, GivesOneMore, StaysAtFault, EndsWhole, ClosesWhole};
ghost use Rattle.al_http.specs.Moves.{stream_of};
ghost use Rattle.al_http.specs.Requests.{RequestMessage};
ghost use Rattle.al_http.specs.Streams.{IsWhole};
ghost use Rattle.al_http.specs.Told.{ending_at, ending_of};

use crate::framer::{Framer, Stop};
use crate::rejection::Rejection;
use al_base::{ReadFault, Source};

/// The most requests of one stream.
pub const REQUEST_LIMIT: u64 = 1_000_000;

/// How a stream ends.
#[derive(Clone, Copy, Debug, PartialEq, Eq)]
pub enum End {
    /// The input ends.
    Input,
    /// A request was taken behind which nothing is answered.
    Closed,
    /// The last request that a stream may have was taken.
    Limit,
    /// The input ends inside a request.
    Cut,
    /// The input is rejected.
    Rejected(Rejection),
}

/// Bytes have one first request at most, or they end, in one way at most. So they are one list of requests at most, with one ending.
pub fn stream_is_unique()
    ensures one_request { (bytes : List ℕ) → HasOneRequest bytes }
    ensures no_end { (bytes : List ℕ) → GoesOnOrEnds bytes }
    ensures one_end { (bytes : List ℕ) → HasOneEnd bytes }
    ensures one_stream { (bytes : List ℕ) → IsOneStream bytes }
{}

/// The calls of one framer on one source are a run over its stream: the requests so far and what is left, until it ends.
pub fn calls_are_a_run()
    ensures begins { GivesNothingFirst }
    ensures goes_on { GivesOneMore }
    ensures stays { StaysAtFault }
    ensures ends { EndsWhole }
    ensures closes { ClosesWhole }
{}

/// Takes all requests of a stream: how many there are, and how it ends. So bytes that are told and read without a fault are such a list.
pub fn take_all<S: Source>(framer: &mut Framer, source: &mut S) -> Result<(u64, End), ReadFault>
    ensures whole { IfOk result (λ taken. (requests : List RequestMessage)
        × (length requests ≡ taken.0)
        × IsWhole (stream_of framer.old (S.left source.old)) requests (ending_of taken.1)) }
    ensures cause { OnErr result (Rose (S.faults source.old) (S.faults source.new)) }
{
    let mut count = 0;
    while count < REQUEST_LIMIT {
        match framer.next(source) {
            Ok(Some(request)) => {
                if request.last() {
                    return Ok((count + 1, End::Closed));
                }
                count += 1;
            }
            Ok(None) => return Ok((count, End::Input)),
            Err(stop) => match end_at(stop) {
                Ok(end) => return Ok((count, end)),
                Err(fault) => return Err(fault),
            },
        }
    }
    Ok((count, End::Limit))
}

/// How a stream ends at a stop, but for a read fault.
fn end_at(stop: Stop) -> Result<End, ReadFault>
    ensures ends { IfOk result (λ end. ending_at stop ≡ Some (ending_of end)) }
    ensures fault { OnErr result (stop ≡ Stop.ReadFault) }
{
    match stop {
        Stop::ReadFault => Err(ReadFault),
        Stop::Cut => Ok(End::Cut),
        Stop::Bad => Ok(End::Rejected(Rejection::Bad)),
        Stop::HeadTooBig => Ok(End::Rejected(Rejection::HeadTooBig)),
        Stop::BodyTooBig => Ok(End::Rejected(Rejection::BodyTooBig)),
        Stop::Unimplemented => Ok(End::Rejected(Rejection::Unimplemented)),
    }
}
