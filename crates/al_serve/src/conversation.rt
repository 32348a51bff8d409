//! A conversation: the requests of a source are answered one after the other into a sink, by any service, one turn each.

ghost use Rattle.std.specs.Prelude.{◌≡◌, ◌≤◌, ◌<◌, ◌+◌, false, true, length, IfOk, OnErr};
ghost use Rattle.al_base.specs.Outside.{Rose};
ghost use Rattle.al_http.specs.Requests.{is_last};
ghost use Rattle.al_http.specs.Responses.{HasText};
ghost use Rattle.al_http.specs.Shown.{message_of};
ghost use Rattle.al_http.specs.Streams.{request_limit};
ghost use Rattle.al_serve.specs.Conversations.{IsConversation, GivesTurn, IsAnswered, TakesTurn, TellsRejection, EndsAtStop};
ghost use Rattle.al_serve.specs.Left.{HasTurns, IsCounted, turns_less};
ghost use Rattle.al_turn.specs.Identities.{HasTurn, one_less};

use al_base::{Clock, Sink, Source, Stamp, WriteFault};
use al_http::{Framer, HttpRequest, REQUEST_LIMIT, Rejection, Response, Service, Stop, respond};
use al_model::Kept;
use al_turn::Turns;

/// Why a conversation ended.
#[derive(Clone, Copy, Debug, PartialEq, Eq)]
pub enum Cause {
    /// The input ended.
    Ended,
    /// A request was answered that asked for no further answer.
    Closed,
    /// The last request that a conversation may have was answered.
    Limit,
    /// The input ended inside a request.
    Cut,
    /// The input was rejected, and why was told.
    Rejected,
    /// The source failed.
    ReadFault,
    /// The sink failed.
    WriteFault,
}

/// How a conversation ended.
#[derive(Clone, Copy, Debug, PartialEq, Eq)]
pub struct Ending {
    pub cause: Cause,
    /// How many requests had their turn.
    pub requests: u64,
    /// How many entries these turns added.
    pub entries: u64,
}

/// Answers each request of the source, in order and each in a turn of its own, until the input or the conversation ends.
///
/// No turn is held while a request is read or a response is written.
pub fn converse<T: Kept, U: Turns<T>, V: Service<T>, S: Source, O: Sink, K: Clock>(
    turns: &mut U,
    service: &mut V,
    framer: &mut Framer,
    origin: u16,
    source: &mut S,
    sink: &mut O,
    clock: &mut K,
) -> Ending
    requires idle { U.taken turns.old ≡ false }
    requires own { U.may_add turns.old origin ≡ true }
    requires left { HasTurns (U.left turns.old) request_limit }
    ensures conversation { IsConversation (V.answers service.old) (U.may_add turns.old) origin
        (U.seen turns.old) (U.seen turns.new) (S.left source.old)
        (record {
          old_output = O.held sink.old;
          new_output = O.held sink.new;
          old_clock = K.readings clock.old;
          new_clock = K.readings clock.new;
        }) result }
    ensures idle { U.taken turns.new ≡ false }
    ensures left { U.left turns.new ≡ turns_less (U.left turns.old) result.requests }
    ensures few { result.requests ≤ request_limit }
    ensures counted { 0 < result.requests → IsCounted (U.seen turns.new) }
    ensures identity { U.identity turns.new ≡ U.identity turns.old }
    ensures may_add { U.may_add turns.new ≡ U.may_add turns.old }
    ensures same { service.new ≡ service.old }
    ensures read_fault { result.cause ≡ Cause.ReadFault
        → Rose (S.faults source.old) (S.faults source.new) }
    ensures write_fault { result.cause ≡ Cause.WriteFault
        → Rose (O.faults sink.old) (O.faults sink.new) }
    ensures later_source { S.faults source.old ≤ S.faults source.new }
    ensures later_sink { O.faults sink.old ≤ O.faults sink.new }
{
    framer.clear();
    let mut entries = 0;
    for served in 0..REQUEST_LIMIT {
        let requests = served + 1;
        match framer.next(source) {
            Ok(Some(request)) => {
                let (added, written) = take_turn(
                    turns, service, origin, &request, sink, clock, requests,
                );
                entries += added;
                match written {
                    Ok(true) => return ending_of(Cause::Closed, requests, entries),
                    Ok(false) => {}
                    Err(WriteFault) => return ending_of(Cause::WriteFault, requests, entries),
                }
            }
            Ok(None) => return ending_of(Cause::Ended, served, entries),
            Err(stop) => return ending_of(end_at(stop, sink), served, entries),
        }
    }
    ending_of(Cause::Limit, REQUEST_LIMIT, entries)
}

fn ending_of(cause: Cause, requests: u64, entries: u64) -> Ending
    ensures { result ≡ record { cause = cause; requests = requests; entries = entries } }
{
    Ending {
        cause,
        requests,
        entries,
    }
}

/// Takes a turn for the request and writes its response: how many entries were added, and whether the request is last.
fn take_turn<T: Kept, U: Turns<T>, V: Service<T>, O: Sink, K: Clock>(
    turns: &mut U,
    service: &mut V,
    origin: u16,
    request: &HttpRequest,
    sink: &mut O,
    clock: &mut K,
    number: u64,
) -> (u64, Result<bool, WriteFault>)
    requires idle { U.taken turns.old ≡ false }
    requires own { U.may_add turns.old origin ≡ true }
    requires left { HasTurn (U.left turns.old) }
    ensures turn { TakesTurn (V.answers service.old) (U.may_add turns.old) origin (U.seen turns.old)
        (U.seen turns.new) (message_of request.now)
        (record {
          old_output = O.held sink.old;
          new_output = O.held sink.new;
          old_clock = K.readings clock.old;
          new_clock = K.readings clock.new;
        }) number result.0
        result.1 }
    ensures few { result.0 ≤ 1 }
    ensures last { IfOk result.1 (λ last. last ≡ is_last (message_of request.now)) }
    ensures idle { U.taken turns.new ≡ false }
    ensures left { U.left turns.new ≡ one_less (U.left turns.old) }
    ensures counted { IsCounted (U.seen turns.new) }
    ensures identity { U.identity turns.new ≡ U.identity turns.old }
    ensures may_add { U.may_add turns.new ≡ U.may_add turns.old }
    ensures same { service.new ≡ service.old }
    ensures later { O.faults sink.old ≤ O.faults sink.new }
    ensures cause { OnErr result.1 (Rose (O.faults sink.old) (O.faults sink.new)) }
{
    let (response, added) = answer_in_turn(turns, service, origin, request, clock);
    let last = request.last();
    match respond(sink, &response, last || number == REQUEST_LIMIT) {
        Ok(()) => (added, Ok(last)),
        Err(WriteFault) => (added, Err(WriteFault)),
    }
}

/// One turn: takes what is kept, reads the clock once, has the request answered, and puts back what is kept.
fn answer_in_turn<T: Kept, U: Turns<T>, V: Service<T>, K: Clock>(
    turns: &mut U,
    service: &mut V,
    origin: u16,
    request: &HttpRequest,
    clock: &mut K,
) -> (Response, u64)
    requires idle { U.taken turns.old ≡ false }
    requires own { U.may_add turns.old origin ≡ true }
    requires left { HasTurn (U.left turns.old) }
    ensures turn { GivesTurn (V.answers service.old) (U.may_add turns.old) origin (U.seen turns.old)
        (U.seen turns.new) (message_of request.now) (K.readings clock.old) (K.readings clock.new)
        result.1 result.0 }
    ensures text { HasText result.0 }
    ensures few { result.1 ≤ 1 }
    ensures idle { U.taken turns.new ≡ false }
    ensures left { U.left turns.new ≡ one_less (U.left turns.old) }
    ensures counted { IsCounted (U.seen turns.new) }
    ensures identity { U.identity turns.new ≡ U.identity turns.old }
    ensures may_add { U.may_add turns.new ≡ U.may_add turns.old }
    ensures same { service.new ≡ service.old }
{
    let mut kept = turns.take();
    let now = clock.now();
    let (response, added) = answer(&mut kept, service, origin, request, now);
    turns.put(kept);
    (response, added)
}

/// Has the request answered, for want of memory that there is none: the response, and how many entries were added.
fn answer<T: Kept, V: Service<T>>(
    kept: &mut T,
    service: &mut V,
    origin: u16,
    request: &HttpRequest,
    now: Stamp,
) -> (Response, u64)
    ensures turn { IsAnswered (V.answers service.old) origin (T.mark kept.old) (T.mark kept.new)
        (message_of request.now) now result.1 result.0 }
    ensures text { HasText result.0 }
    ensures few { result.1 ≤ 1 }
    ensures counted { IsCounted (T.mark kept.new) }
    ensures same { service.new ≡ service.old }
{
    // Its clause says that no reading is past the last stamp, as the turn does.
    let _ = now.ms();
    let place = kept.entries();
    let answered = service.answer(kept, origin, request, now);
    let added = kept.entries() - place;
    match answered {
        Ok(response) => (response, added),
        Err(_) => (Response::out_of_memory(place), added),
    }
}

/// Ends at a stop of the framer: why an input is rejected is told.
fn end_at<O: Sink>(stop: Stop, sink: &mut O) -> Cause
    ensures ends { EndsAtStop stop (O.held sink.old) (O.held sink.new) result }
    ensures read_fault { result ≡ Cause.ReadFault → stop ≡ Stop.ReadFault }
    ensures write_fault { result ≡ Cause.WriteFault → Rose (O.faults sink.old) (O.faults sink.new) }
    ensures later { O.faults sink.old ≤ O.faults sink.new }
{
    match stop {
        Stop::ReadFault => Cause::ReadFault,
        Stop::Cut => Cause::Cut,
        Stop::Bad => reject(sink, Rejection::Bad),
        Stop::HeadTooBig => reject(sink, Rejection::HeadTooBig),
        Stop::BodyTooBig => reject(sink, Rejection::BodyTooBig),
        Stop::Unimplemented => reject(sink, Rejection::Unimplemented),
    }
}

/// Tells why the input is rejected.
fn reject<O: Sink>(sink: &mut O, rejection: Rejection) -> Cause
    ensures told { TellsRejection rejection (O.held sink.old) (O.held sink.new) result }
    ensures write_fault { result ≡ Cause.WriteFault → Rose (O.faults sink.old) (O.faults sink.new) }
    ensures later { O.faults sink.old ≤ O.faults sink.new }
{
    match respond(sink, &Response::of_rejection(rejection), true) {
        Ok(()) => Cause::Rejected,
        Err(WriteFault) => Cause::WriteFault,
    }
}
