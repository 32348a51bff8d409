//! The members of a field's value.

ghost use Rattle.std.specs.Prelude.{◌≡◌};
ghost use Rattle.httparse.specs.Grammar.{trim_ows};
ghost use Rattle.al_http.specs.Requests.{names, has_member as names_member};

use crate::scan::first_at;
use httparse::is_space_or_tab;

/// The bytes without the spaces and tabs at both ends (RFC 9110, section 5.6.3).
pub fn trimmed(bytes: &[u8]) -> &[u8]
    ensures { result.now ≡ trim_ows bytes.now }
{
    let mut start = 0;
    let mut end = bytes.len();
    while start < end && is_space_or_tab(bytes[start]) {
        start += 1;
    }
    while start < end && is_space_or_tab(bytes[end - 1]) {
        end -= 1;
    }
    &bytes[start..end]
}

/// Whether the part of a value is the member.
fn is_member(part: &[u8], member: &[u8]) -> bool
    ensures { result ≡ names member.now part.now }
{
    trimmed(part).eq_ignore_ascii_case(member)
}

/// Whether a part of the value between commas is the member, in any ASCII case.
pub fn has_member(value: &[u8], member: &[u8]) -> bool
    ensures { result ≡ names_member member.now value.now }
{
    let mut rest = value;
    'parts: while let Some(at) = first_at(b',', rest) {
        if is_member(&rest[..at], member) {
            return true;
        }
        rest = &rest[at + 1..];
    }
    is_member(rest, member)
}
