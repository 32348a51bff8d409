//! The buffer of a framer: what it has read and not yet given.

ghost use Rattle.std.specs.Prelude.{◌≡◌, ◌+◌, ◌-◌, ◌<◌, ◌≤◌, [], length, take, drop, slice_range, vec_len, min, if◌then◌else◌, IfOk, IfErr, OnErr, Ok, Err, None, true, false};
ghost use Rattle.al_http.specs.Requests.{head_limit, field_limit, request_room};
ghost use Rattle.al_http.specs.Scans.{are_line_ends};
ghost use Rattle.std.specs.Io.KnownBytes.{Keeps, Consumes};
ghost use Rattle.al_base.specs.Outside.{Rose, TellsEnd};

use crate::framer::Stop;
use crate::head::{MAX_BODY, read_head};
use crate::rejection::Rejection;
use crate::request::HttpRequest;
use crate::scan::{Look, Seen, is_blank, look_on};
use al_base::{ReadFault, Source};
use httparse::spans::{EMPTY_HEADER_SPAN, HeaderSpan, RequestSpans};
use std::alloc::{AllocError, Global};

/// The most bytes of a head.
const MAX_HEAD: usize = 16_384;

/// The most fields of a head.
const MAX_FIELDS: usize = 64;

/// Room for one request.
const ROOM: usize = MAX_HEAD + MAX_BODY;

/// What a framer has read: the bytes from `start` to `filled` are not yet given.
///
/// They are moved to the front only before a read, and then they are part of one request, so each byte is moved once at most.
#[derive(Drop)]
pub(crate) struct InputBuffer {
    bytes: Vec<u8>,
    spans: Vec<HeaderSpan>,
    start: usize,
    filled: usize,
    ghost room: { vec_len bytes ≡ request_room },
    ghost span_room: { vec_len spans ≡ field_limit },
    ghost ordered: { start ≤ filled },
    ghost within: { filled ≤ request_room },
}

/// Where a request lies in a buffer: its head up to `body`, its body up to `end`.
#[derive(Clone, Copy)]
pub(crate) struct Extent {
    start: usize,
    body: usize,
    end: usize,
    head: RequestSpans,
}

impl InputBuffer {
    ghost use Rattle.httparse.specs.Spans.{IsRequestWithin};
    ghost use Rattle.al_http.specs.Blocks.{IsBlock};
    ghost use Rattle.al_http.specs.Ends.{RejectsBlock};
    ghost use Rattle.al_http.specs.Heads.{ReadsHead};
    ghost use Rattle.al_http.specs.Moves.{stream_of, IsAll};
    ghost use Rattle.al_http.specs.Shown.{message_at, message_of};
    ghost use Rattle.al_http.specs.InputBuffers.{held_bytes, message_on, IsExtentOn, Finds, Takes, Serves};

    pub(crate) fn new(alloc: Global) -> Result<InputBuffer, AllocError>
        ensures { IfOk result (λ buffer. held_bytes buffer ≡ []) }
    {
        Ok(InputBuffer {
            bytes: vec![in alloc; 0; ROOM]?,
            spans: vec![in alloc; EMPTY_HEADER_SPAN; MAX_FIELDS]?,
            start: 0,
            filled: 0,
        })
    }

    pub(crate) fn clear(&mut self)
        ensures { held_bytes self.new ≡ [] }
    {
        self.start = 0;
        self.filled = 0;
    }

    fn held(&self) -> &[u8]
        ensures { result.now ≡ held_bytes self.now }
    {
        &self.bytes[self.start..self.filled]
    }

    fn len(&self) -> usize
        ensures { result ≡ length (held_bytes self.now) }
    {
        self.filled - self.start
    }

    /// Moves the bytes held to the front.
    fn settle(&mut self)
        ensures held { held_bytes self.new ≡ held_bytes self.old }
        ensures spans { self.new.spans ≡ self.old.spans }
        ensures front { self.new.start ≡ 0 }
    {
        if self.start > 0 {
            move_down(&mut self.bytes, self.start, self.filled);
            self.filled -= self.start;
            self.start = 0;
        }
    }

    /// Reads once; whether there was more.
    fn read_more<S: Source>(&mut self, source: &mut S) -> Result<bool, ReadFault>
        requires room { length (held_bytes self.old) < request_room }
        ensures kept { take (length (held_bytes self.old)) (held_bytes self.new)
            ≡ held_bytes self.old }
        ensures spans { self.new.spans ≡ self.old.spans }
        ensures stream { Keeps (stream_of (held_bytes self.old) (S.left source.old))
            (stream_of (held_bytes self.new) (S.left source.new)) }
        ensures more { result ≡ Ok true
            → length (held_bytes self.old) < length (held_bytes self.new) }
        ensures end { result ≡ Ok false → (held_bytes self.new ≡ held_bytes self.old)
            × IsAll (held_bytes self.old) (stream_of (held_bytes self.old) (S.left source.old)) }
        ensures later { S.faults source.old ≤ S.faults source.new }
        ensures cause { OnErr result (Rose (S.faults source.old) (S.faults source.new)) }
    {
        self.settle();
        match read_behind(&mut self.bytes, self.filled, source) {
            Ok(count) => {
                self.filled += count;
                Ok(count > 0)
            }
            Err(fault) => Err(fault),
        }
    }

    /// Reads until so many bytes are held; whether they are.
    fn read_up_to<S: Source>(&mut self, need: usize, source: &mut S) -> Result<bool, ReadFault>
        requires room { need ≤ request_room }
        ensures kept { take (length (held_bytes self.old)) (held_bytes self.new)
            ≡ held_bytes self.old }
        ensures spans { self.new.spans ≡ self.old.spans }
        ensures stream { Keeps (stream_of (held_bytes self.old) (S.left source.old))
            (stream_of (held_bytes self.new) (S.left source.new)) }
        ensures full { result ≡ Ok true → need ≤ length (held_bytes self.new) }
        ensures end { result ≡ Ok false → (length (held_bytes self.new) < need)
            × IsAll (held_bytes self.new) (stream_of (held_bytes self.old) (S.left source.old)) }
        ensures later { S.faults source.old ≤ S.faults source.new }
        ensures cause { OnErr result (Rose (S.faults source.old) (S.faults source.new)) }
    {
        'reading: while self.len() < need {
            match self.read_more(source) {
                Ok(true) => {}
                Ok(false) => return Ok(false),
                Err(fault) => return Err(fault),
            }
        }
        Ok(true)
    }

    /// Up to where the bytes held may be a head.
    fn look_end(&self) -> usize
        ensures { result ≡ min (length (held_bytes self.now)) head_limit }
    {
        self.len().min(MAX_HEAD)
    }

    /// Reads until a block is held, and answers its length.
    fn find_block<S: Source>(&mut self, source: &mut S) -> Result<Option<usize>, Stop>
        ensures stream { Keeps (stream_of (held_bytes self.old) (S.left source.old))
            (stream_of (held_bytes self.new) (S.left source.new)) }
        ensures finds { Finds (held_bytes self.new)
            (stream_of (held_bytes self.old) (S.left source.old)) result }
        ensures later { S.faults source.old ≤ S.faults source.new }
        ensures cause { result ≡ Err Stop.ReadFault
            → Rose (S.faults source.old) (S.faults source.new) }
    {
        let mut seen = Seen::Nothing;
        let mut done = 0;
        'reading: loop {
            let end = self.look_end();
            match look_on(seen, &self.held()[done..end]) {
                Look::Ends(count) => return Ok(Some(done + count)),
                Look::Goes(next) => seen = next,
            }
            done = end;
            if done == MAX_HEAD {
                return Err(Stop::HeadTooBig);
            }
            match self.read_more(source) {
                Ok(true) => {}
                Ok(false) => return end_of(self.held()),
                Err(ReadFault) => return Err(Stop::ReadFault),
            }
        }
    }

    /// Takes the request whose block is held.
    fn take_block<S: Source>(&mut self, len: usize, source: &mut S) -> Result<Extent, Stop>
        requires within { len ≤ length (held_bytes self.old) }
        requires short { len ≤ head_limit }
        requires is_block { IsBlock (take len (held_bytes self.old)) }
        ensures takes { Takes self.new (stream_of (held_bytes self.old) (S.left source.old))
            (stream_of (held_bytes self.new) (S.left source.new)) result }
        ensures later { S.faults source.old ≤ S.faults source.new }
        ensures cause { result ≡ Err Stop.ReadFault
            → Rose (S.faults source.old) (S.faults source.new) }
    {
        let (head, size) = match self.read_block(len) {
            Ok(found) => found,
            Err(rejection) => return Err(rejection.stop()),
        };
        match self.read_up_to(len + size, source) {
            Ok(true) => Ok(self.give(head, size)),
            Ok(false) => Err(Stop::Cut),
            Err(ReadFault) => Err(Stop::ReadFault),
        }
    }

    /// Reads the head that the block of that length is, and the length of its body.
    fn read_block(&mut self, len: usize) -> Result<(RequestSpans, usize), Rejection>
        requires within { len ≤ length (held_bytes self.old) }
        requires short { len ≤ head_limit }
        requires is_block { IsBlock (take len (held_bytes self.old)) }
        ensures held { held_bytes self.new ≡ held_bytes self.old }
        ensures reads { IfOk result (λ found.
            ReadsHead (take len (held_bytes self.old)) self.new.spans.items found.0 found.1) }
        ensures rejects { IfErr result (λ rejection.
            RejectsBlock rejection (take len (held_bytes self.old))) }
    {
        let block = &self.bytes[self.start..self.start + len];
        read_head(block, &mut self.spans)
    }

    /// Gives the request at the front, which stays where it is until the next read.
    fn give(&mut self, head: RequestSpans, size: usize) -> Extent
        requires fits { head.len + size ≤ length (held_bytes self.old) }
        requires within { IsRequestWithin (take head.len (held_bytes self.old)) self.old.spans.items
            head }
        ensures held { held_bytes self.new ≡ drop (head.len + size) (held_bytes self.old) }
        ensures extent { IsExtentOn self.new result }
        ensures message { message_on self.new result
            ≡ message_at (take head.len (held_bytes self.old))
            (take head.headers self.old.spans.items) head
            (take size (drop head.len (held_bytes self.old))) }
    {
        let body = self.start + head.len;
        let extent = Extent {
            start: self.start,
            body,
            end: body + size,
            head,
        };
        self.start = extent.end;
        extent
    }

    /// Takes the next request off the stream.
    pub(crate) fn take_request<S: Source>(&mut self, source: &mut S) -> Result<Option<Extent>, Stop>
        ensures serves { Serves self.new (stream_of (held_bytes self.old) (S.left source.old))
            (stream_of (held_bytes self.new) (S.left source.new)) result }
        ensures later { S.faults source.old ≤ S.faults source.new }
        ensures cause { result ≡ Err Stop.ReadFault
            → Rose (S.faults source.old) (S.faults source.new) }
    {
        match self.find_block(source) {
            Ok(Some(len)) => match self.take_block(len, source) {
                Ok(extent) => Ok(Some(extent)),
                Err(stop) => Err(stop),
            },
            Ok(None) => Ok(None),
            Err(stop) => Err(stop),
        }
    }

    /// The request of that extent.
    pub(crate) fn request_at(&self, extent: Extent) -> HttpRequest<'_>
        requires { IsExtentOn self.now extent }
        ensures { message_of result ≡ message_on self.now extent }
    {
        HttpRequest::of(
            &self.bytes[extent.start..extent.body],
            &self.spans[..extent.head.headers],
            extent.head,
            &self.bytes[extent.body..extent.end],
        )
    }
}

/// How a stream ends that is these bytes and holds no block.
fn end_of(held: &[u8]) -> Result<Option<usize>, Stop>
    ensures { result ≡ (if are_line_ends false held.now then Ok None else Err Stop.Cut) }
{
    if is_blank(held) {
        Ok(None)
    } else {
        Err(Stop::Cut)
    }
}

/// Moves the bytes from `start` to `filled` to the front.
fn move_down(bytes: &mut [u8], start: usize, filled: usize)
    requires ordered { start ≤ filled }
    requires within { filled ≤ length bytes.old }
    ensures { take (filled - start) bytes.new ≡ slice_range bytes.old start filled }
{
    bytes.copy_within(start..filled, 0);
}

/// Reads once behind the bytes that are filled.
fn read_behind<S: Source>(
    bytes: &mut [u8],
    filled: usize,
    source: &mut S,
) -> Result<usize, ReadFault>
    requires { filled < length bytes.old }
    ensures within { IfOk result (λ count. filled + count ≤ length bytes.new) }
    ensures kept { take filled bytes.new ≡ take filled bytes.old }
    ensures gave { IfOk result (λ count.
        Consumes (S.left source.old) (S.left source.new)
        (slice_range bytes.new filled (filled + count))) }
    ensures end { IfOk result (λ count. TellsEnd (S.left source.old) count) }
    ensures fault { OnErr result (Keeps (S.left source.old) (S.left source.new)) }
    ensures later { S.faults source.old ≤ S.faults source.new }
    ensures cause { OnErr result (Rose (S.faults source.old) (S.faults source.new)) }
{
    source.read(&mut bytes[filled..])
}
