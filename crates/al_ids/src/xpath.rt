//! XPaths of steps and predicates.

ghost use Rattle.al_ids.specs.Matches.{IsXPath, IsXPathStop};
ghost use Rattle.std.specs.Prelude.{MatchOption};

use crate::path::path_stop;
use crate::utf8::text_stop;

/// The first byte that no XPath has there, or the length where the text ends too soon; None where it is an XPath.
pub fn xpath_stop(text: &[u8]) -> Option<usize>
    ensures { MatchOption result (IsXPath text.now) (IsXPathStop text.now) }
{
    match (path_stop(text), text_stop(text)) {
        (Some(path), Some(bytes)) => Some(path.min(bytes)),
        (Some(path), None) => Some(path),
        (None, Some(bytes)) => Some(bytes),
        (None, None) => None,
    }
}
