//! The head of a request: its fields, and the length of the body that they frame.

ghost use Rattle.std.specs.Prelude.{◌≡◌, ◌≤◌, ◌==◌, ℕ, nat_lt, [], ◌∷◌, count_by, position, map, length, take, slice_get, All, IfSome, IfNone, IfOk, IfErr, IsSomeAnd, codes};
ghost use Rattle.std.specs.List.{list_any};
ghost use Rattle.std.specs.Option.{option_copied};
ghost use Rattle.std.specs.Str.{str_eq_ignore_ascii_case};
ghost use Rattle.httparse.specs.Grammar.{RequestHead};
ghost use Rattle.httparse.specs.Spans.{IsHeaderWithin, IsRequestWithin, IsRequestAt, span_bytes, header_bytes};
ghost use Rattle.al_http.specs.Blocks.{IsBlock, line_feed, is_line_byte, line_count};
ghost use Rattle.al_http.specs.Requests.{values_of, digits_number, stated_length as length_stated, framing_of, line_limit, has_member as names_member, IsHead};
ghost use Rattle.al_http.specs.Ends.{RejectsBlock};
ghost use Rattle.al_http.specs.Heads.{ReadsHead};

use crate::member::has_member;
use crate::rejection::Rejection;
use httparse::Status;
use httparse::spans::{HeaderSpan, RequestSpans, parse_request};

/// The most bytes of a body.
pub(crate) const MAX_BODY: usize = 1_048_576;

/// The most lines of a head.
const MAX_LINES: usize = 65;

/// Whether the field has that name, in any ASCII case.
fn has_name(block: &[u8], header: &HeaderSpan, name: &[u8]) -> bool
    requires { IsHeaderWithin (length block.now) header.now }
    ensures { result ≡ str_eq_ignore_ascii_case (span_bytes block.now header.now.name) name.now }
{
    header.name.of(block).eq_ignore_ascii_case(name)
}

/// The value of field number `n`, counted from 0, of those with that name.
pub(crate) fn value_at<'a>(
    block: &'a [u8],
    headers: &[HeaderSpan],
    name: &[u8],
    n: usize,
) -> Option<&'a [u8]>
    requires { All (IsHeaderWithin (length block.now)) headers.now }
    ensures { option_copied result
        ≡ slice_get (values_of name.now (map (header_bytes block.now) headers.now)) n }
{
    let mut left = n;
    for header in headers {
        if has_name(block, header, name) {
            if left == 0 {
                return Some(header.value.of(block));
            }
            left -= 1;
        }
    }
    None
}

/// How many fields have that name.
pub(crate) fn value_count(block: &[u8], headers: &[HeaderSpan], name: &[u8]) -> usize
    requires { All (IsHeaderWithin (length block.now)) headers.now }
    ensures { result ≡ length (values_of name.now (map (header_bytes block.now) headers.now)) }
{
    let mut count = 0;
    for header in headers {
        if has_name(block, header, name) {
            count += 1;
        }
    }
    count
}

/// The number that 1 to 10 decimal digits write.
fn read_number(value: &[u8]) -> Option<usize>
    ensures { result ≡ digits_number value.now }
{
    if value.is_empty() || value.len() > 10 {
        return None;
    }
    let mut number = 0;
    for digit in value {
        if !digit.is_ascii_digit() {
            return None;
        }
        number = number * 10 + usize::from(*digit - b'0');
    }
    Some(number)
}

/// The first value of the fields with that name, and the fields behind it.
fn first_value<'a, 'b>(
    block: &'a [u8],
    headers: &'b [HeaderSpan],
    name: &[u8],
) -> Option<(&'a [u8], &'b [HeaderSpan])>
    requires { All (IsHeaderWithin (length block.now)) headers.now }
    ensures first { IfSome result (λ found.
        values_of name.now (map (header_bytes block.now) headers.now)
        ≡ found.0.now ∷ values_of name.now (map (header_bytes block.now) found.1.now)) }
    ensures within { IfSome result (λ found. All (IsHeaderWithin (length block.now)) found.1.now) }
    ensures none { IfNone result (values_of name.now (map (header_bytes block.now) headers.now)
        ≡ []) }
{
    for (i, header) in headers.iter().enumerate() {
        if has_name(block, header, name) {
            return Some((header.value.of(block), &headers[i + 1..]));
        }
    }
    None
}

/// Whether a field with that name has the member.
pub(crate) fn has_member_in(
    block: &[u8],
    headers: &[HeaderSpan],
    name: &[u8],
    member: &[u8],
) -> bool
    requires { All (IsHeaderWithin (length block.now)) headers.now }
    ensures { result ≡ list_any (names_member member.now)
        (values_of name.now (map (header_bytes block.now) headers.now)) }
{
    for header in headers {
        if has_name(block, header, name) && has_member(header.value.of(block), member) {
            return true;
        }
    }
    false
}

/// The length of the body that the fields state.
fn stated_length(block: &[u8], headers: &[HeaderSpan]) -> Option<usize>
    requires { All (IsHeaderWithin (length block.now)) headers.now }
    ensures { result ≡ length_stated
        (values_of (codes "content-length") (map (header_bytes block.now) headers.now)) }
{
    let Some((value, behind)) = first_value(block, headers, b"content-length") else {
        return Some(0);
    };
    match first_value(block, behind, b"content-length") {
        Some(_) => None,
        None => read_number(value),
    }
}

/// The length of the body that the fields frame.
fn body_length(block: &[u8], headers: &[HeaderSpan]) -> Result<usize, Rejection>
    requires { All (IsHeaderWithin (length block.now)) headers.now }
    ensures { result ≡ framing_of (map (header_bytes block.now) headers.now) }
{
    if first_value(block, headers, b"transfer-encoding").is_some() {
        return Err(Rejection::Unimplemented);
    }
    match stated_length(block, headers) {
        None => Err(Rejection::Bad),
        Some(size) if size <= MAX_BODY => Ok(size),
        Some(_) => Err(Rejection::BodyTooBig),
    }
}

/// Where the block has the first byte of a line's text.
fn text_start(block: &[u8]) -> Option<usize>
    ensures { result ≡ position is_line_byte block.now }
{
    block
        .iter()
        .position(|byte| !(*byte == b'\r' || *byte == b'\n'))
}

/// How many LFs there are.
fn count_ends(text: &[u8]) -> usize
    ensures { result ≡ count_by (λ b. b == line_feed) text.now }
{
    text.iter().filter(|byte| **byte == b'\n').count()
}

/// Whether the block has more lines than a head may have.
fn has_many_lines(block: &[u8]) -> bool
    ensures { result ≡ nat_lt line_limit (line_count block.now) }
{
    match text_start(block) {
        Some(start) => count_ends(&block[start..]) > MAX_LINES + 1,
        None => false,
    }
}

/// Where the parts of the head are that the block is, if it is one. With room for 64 fields it has 65 lines at most.
#[tactic(auto, using(crate::proofs::LineLemmas::head_here))]
fn parse_head(block: &[u8], spans: &mut [HeaderSpan]) -> Option<RequestSpans>
    requires is_block { IsBlock block.now }
    requires short { length block.now ≤ 16384 }
    requires spans { length spans.old ≡ 64 }
    ensures within { IfSome result (λ head. IsRequestWithin block.now spans.new head
        × (head.len ≡ length block.now)) }
    ensures found { IfSome result (λ head. (tree : RequestHead) × IsHead block.now tree
        × IsRequestAt block.now spans.new head tree) }
    ensures every { (tree : RequestHead) → IsHead block.now tree
        → IsSomeAnd result (λ head. IsRequestAt block.now spans.new head tree) }
{
    match parse_request(block, spans) {
        Ok(Status::Complete(head)) if head.len == block.len() => Some(head),
        _ => None,
    }
}

/// Reads the head that the block is: where its parts are, and the length of the body that it frames.
pub(crate) fn read_head(
    block: &[u8],
    spans: &mut [HeaderSpan],
) -> Result<(RequestSpans, usize), Rejection>
    requires is_block { IsBlock block.now }
    requires short { length block.now ≤ 16384 }
    requires spans { length spans.old ≡ 64 }
    ensures reads { IfOk result (λ found. ReadsHead block.now spans.new found.0 found.1) }
    ensures rejects { IfErr result (λ rejection. RejectsBlock rejection block.now) }
{
    let Some(head) = parse_head(block, spans) else {
        return Err(no_head(block));
    };
    match body_length(block, &spans[..head.headers]) {
        Ok(size) => Ok((head, size)),
        Err(rejection) => Err(rejection),
    }
}

/// Why a block that isn't a head is rejected.
fn no_head(block: &[u8]) -> Rejection
    requires { (head : RequestHead) → ¬ (IsHead block.now head) }
    ensures { RejectsBlock result block.now }
{
    if has_many_lines(block) {
        Rejection::HeadTooBig
    } else {
        Rejection::Bad
    }
}
