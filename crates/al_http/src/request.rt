ghost use Rattle.std.specs.Prelude.{◌≡◌, length, position, slice_get, All};
ghost use Rattle.std.specs.Option.{option_copied};
ghost use Rattle.httparse.specs.Spans.{IsWithin, IsHeaderWithin, span_bytes};
ghost use Rattle.al_http.specs.Requests.{is_question_mark, path_of, query_of, values_of, is_last};

use crate::head::{has_member_in, value_at, value_count};
use crate::scan::first_at;
use httparse::spans::{HeaderSpan, RequestSpans};

/// A request as it lies in its framer: a head that is within the limits, and exactly its body.
#[derive(Drop)]
pub struct HttpRequest<'a> {
    block: &'a [u8],
    headers: &'a [HeaderSpan],
    head: RequestSpans,
    body: &'a [u8],
    /// Where the first `?` of the target is.
    mark: Option<usize>,
    ghost method_within: { IsWithin (length block.now) head.method },
    ghost path_within: { IsWithin (length block.now) head.path },
    ghost headers_within: { All (IsHeaderWithin (length block.now)) headers.now },
    ghost marked: { mark ≡ position is_question_mark (span_bytes block.now head.path) },
}

impl<'a> HttpRequest<'a> {
    ghost use Rattle.al_http.specs.Shown.{message_of, message_at};

    /// The request whose head is the block, with its parts at those spans.
    pub(crate) fn of(
        block: &'a [u8],
        headers: &'a [HeaderSpan],
        head: RequestSpans,
        body: &'a [u8],
    ) -> HttpRequest<'a>
        requires method { IsWithin (length block.now) head.method }
        requires path { IsWithin (length block.now) head.path }
        requires headers { All (IsHeaderWithin (length block.now)) headers.now }
        ensures { message_of result ≡ message_at block.now headers.now head body.now }
    {
        HttpRequest {
            block,
            headers,
            head,
            body,
            mark: first_at(b'?', head.path.of(block)),
        }
    }

    /// The method, as sent.
    pub fn method(&self) -> &[u8]
        ensures { result.now ≡ (message_of self.now).method }
    {
        self.head.method.of(self.block)
    }

    fn target(&self) -> &[u8]
        ensures { result.now ≡ (message_of self.now).target }
    {
        self.head.path.of(self.block)
    }

    /// The target up to its first `?`, or all of it.
    pub fn path(&self) -> &[u8]
        ensures { result.now ≡ path_of (message_of self.now).target }
    {
        let target = self.target();
        match self.mark {
            Some(mark) => &target[..mark],
            None => target,
        }
    }

    /// The target behind its first `?`, if it has one.
    pub fn query(&self) -> Option<&[u8]>
        ensures { option_copied result ≡ query_of (message_of self.now).target }
    {
        let target = self.target();
        match self.mark {
            Some(mark) => Some(&target[mark + 1..]),
            None => None,
        }
    }

    /// The value of field number `n`, counted from 0, of those with that name, in any ASCII case.
    pub fn field(&self, name: &[u8], n: usize) -> Option<&[u8]>
        ensures { option_copied result
            ≡ slice_get (values_of name.now (message_of self.now).fields) n }
    {
        value_at(self.block, self.headers, name, n)
    }

    /// How many fields have that name, in any ASCII case.
    pub fn count(&self, name: &[u8]) -> usize
        ensures { result ≡ length (values_of name.now (message_of self.now).fields) }
    {
        value_count(self.block, self.headers, name)
    }

    /// Whether nothing is answered behind it: it is of HTTP/1.0, or a `Connection` field of it names `close` (RFC 9112, section 9.3).
    pub fn last(&self) -> bool
        ensures { result ≡ is_last (message_of self.now) }
    {
        self.head.version == 0 || has_member_in(self.block, self.headers, b"connection", b"close")
    }

    /// The body.
    pub fn body(&self) -> &[u8]
        ensures { result.now ≡ (message_of self.now).body }
    {
        self.body
    }
}
