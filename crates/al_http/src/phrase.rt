//! The reason phrases of alarmd's statuses.

ghost use Rattle.std.specs.Prelude.{◌≡◌, ◌≤◌, length};
ghost use Rattle.al_http.specs.Phrases.{HasPhrase, phrase_of as phrase_at};

use http::StatusCode;

/// The reason phrase of a status that alarmd answers (RFC 9110, section 15).
#[tactic(auto, using(crate::proofs::PhraseLemmas::of_status))]
pub fn phrase_of(status: u16) -> &'static str
    requires { HasPhrase status }
    ensures phrase { result.now ≡ phrase_at status }
    ensures short { length result.now ≤ 22 }
{
    match StatusCode::from_u16(status) {
        Ok(code) => code.canonical_reason().unwrap_or(""),
        Err(_) => "",
    }
}
