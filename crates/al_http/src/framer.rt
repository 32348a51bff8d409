ghost use Rattle.std.specs.Prelude.{◌≡◌, ◌≤◌, [], IfOk};
ghost use Rattle.std.specs.Borrow.{sem};
ghost use Rattle.std.specs.Io.BufRead.{Rests};
ghost use Rattle.al_base.specs.Outside.{Rose};

use crate::input_buffer::InputBuffer;
use crate::request::HttpRequest;
use al_base::Source;
use std::alloc::{AllocError, Global};
use std::error::Error;
use std::fmt;
use std::marker::Model;

/// Why a framer has no further request.
#[derive(Clone, Copy, Debug, PartialEq, Eq)]
pub enum Stop {
    /// A read failed. What was read before it is kept.
    ReadFault,
    /// The input ends inside a request.
    Cut,
    /// The input has no head where one has to be, or its head states no length of the body.
    Bad,
    /// The head has more than 16,384 bytes or 65 lines.
    HeadTooBig,
    /// The body has more than 1,048,576 bytes.
    BodyTooBig,
    /// The body comes in a transfer coding.
    Unimplemented,
}

impl fmt::Display for Stop {
    fn fmt<W: fmt::Write>(&self, f: &mut fmt::Formatter<W>) -> fmt::Result {
        f.write_str(match self {
            Stop::ReadFault => "a read failed",
            Stop::Cut => "the input ends inside a request",
            Stop::Bad => "the input has a bad head",
            Stop::HeadTooBig => "the input has too big a head",
            Stop::BodyTooBig => "the input has too big a body",
            Stop::Unimplemented => "the input has a transfer coding",
        })
    }
}

impl Error for Stop {}

/// Cuts the bytes of a source into requests (RFC 9112). Contracts see it as the bytes that it has read and not yet given.
#[derive(Drop)]
pub struct Framer {
    buffer: InputBuffer,
}

impl Model for Framer {
    ghost use Rattle.std.specs.Prelude.{List, ℕ};
    ghost use Rattle.al_http.specs.InputBuffers.{held_bytes};

    ghost Value = { List ℕ };

    ghost view = { λ f. held_bytes f.buffer };
}

impl Framer {
    ghost use Rattle.al_http.specs.contracts.framer.Framer.{the_row};
    ghost use Rattle.al_http.specs.Moves.{Moves, stream_of};

    /// A framer with all the room that it will need: for a head of 16,384 bytes with 64 fields, and a body of 1,048,576 bytes.
    pub fn new(alloc: Global) -> Result<Framer, AllocError>
        ensures { IfOk result (λ framer. framer ≡ []) }
    {
        Ok(Framer {
            buffer: InputBuffer::new(alloc)?,
        })
    }

    /// Forgets what was read, so that the next call begins a new input.
    pub fn clear(&mut self)
        ensures { self.new ≡ [] }
    {
        self.buffer.clear();
    }

    /// The next request of the stream, which is the bytes held and then those that the source has left, in whatever pieces they come.
    pub fn next<S: Source>(&mut self, source: &mut S) -> Result<Option<HttpRequest<'_>>, Stop>
        ensures* moves { sem 𝓛 (Rests the_row self.entry (λ new.
            Moves (stream_of self.old (S.left source.old)) (stream_of new (S.left source.new))
            result)) }
        ensures later { S.faults source.old ≤ S.faults source.new }
        ensures cause { result ≡ Err Stop.ReadFault
            → Rose (S.faults source.old) (S.faults source.new) }
    {
        match self.buffer.take_request(source) {
            Ok(Some(extent)) => Ok(Some(self.buffer.request_at(extent))),
            Ok(None) => Ok(None),
            Err(stop) => Err(stop),
        }
    }
}
