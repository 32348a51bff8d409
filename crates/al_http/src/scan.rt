//! Looking for a byte, for the end of a block, line after line, and for empty lines.

ghost use Rattle.std.specs.Prelude.{◌≡◌, ◌≢◌, ℕ, List, [], ◌∷◌, ◌++◌, false, MatchOption, ◌==◌, position, All};
ghost use Rattle.al_http.specs.Blocks.{line_feed, carriage_return, IsBlock};
ghost use Rattle.al_http.specs.Scans.{IsAfter, Looks, are_line_ends};

use memchr::memchr;

const LINE_FEED: u8 = b'\n';

const CARRIAGE_RETURN: u8 = b'\r';

/// Where the byte is first.
#[tactic(auto, using(crate::proofs::FindLemmas::first_is_position))]
pub(crate) fn first_at(byte: u8, bytes: &[u8]) -> Option<usize>
    ensures { result ≡ position (λ b. b == byte) bytes.now }
{
    memchr(byte, bytes)
}

/// What was seen of a block that hasn't ended.
#[derive(Clone, Copy)]
pub(crate) enum Seen {
    /// No text of a line.
    Nothing,
    /// Text of a line, and no end of a line last.
    Text,
    /// Text of a line, and last an LF.
    LineFeed,
    /// Text of a line, and last an LF and a CR.
    Return,
}

impl Seen {
    /// What was seen with one more LF, or nothing where the block ends with it.
    #[tactic(auto, using(crate::proofs::ScanLemmas::on_line_feed))]
    fn after_line_feed(self) -> Option<Seen>
        ensures { (front : List ℕ) → IsAfter self front
            → MatchOption result (IsBlock (front ++ line_feed ∷ [])) (λ seen.
            IsAfter seen (front ++ line_feed ∷ [])) }
    {
        match self {
            Seen::Nothing => Some(Seen::Nothing),
            Seen::Text => Some(Seen::LineFeed),
            Seen::LineFeed | Seen::Return => None,
        }
    }

    /// What was seen with one more CR.
    #[tactic(auto, using(crate::proofs::ScanLemmas::on_return))]
    fn after_return(self) -> Seen
        ensures { (front : List ℕ) → IsAfter self front
            → IsAfter result (front ++ carriage_return ∷ []) }
    {
        match self {
            Seen::Nothing => Seen::Nothing,
            Seen::LineFeed => Seen::Return,
            Seen::Text | Seen::Return => Seen::Text,
        }
    }

    /// What was seen with one more byte, which is no LF.
    fn after(self, byte: u8) -> Seen
        requires { byte ≢ line_feed }
        ensures { (front : List ℕ) → IsAfter self front → IsAfter result (front ++ byte ∷ []) }
    {
        if byte == CARRIAGE_RETURN {
            self.after_return()
        } else {
            Seen::Text
        }
    }

    /// What was seen with more bytes, none of which is an LF. Behind text of a line nothing changes any more.
    fn after_part(self, bytes: &[u8]) -> Seen
        requires { All (λ b. b ≢ line_feed) bytes.now }
        ensures { (front : List ℕ) → IsAfter self front → IsAfter result (front ++ bytes.now) }
    {
        let mut now = self;
        for byte in bytes {
            match now {
                Seen::Text => return Seen::Text,
                Seen::Nothing | Seen::LineFeed | Seen::Return => now = now.after(*byte),
            }
        }
        now
    }
}

/// What looking on over further bytes found.
#[derive(Clone, Copy)]
pub(crate) enum Look {
    /// The block ends with that many of them.
    Ends(usize),
    /// It doesn't end in them.
    Goes(Seen),
}

/// Looks on over the bytes that follow those seen.
pub(crate) fn look_on(seen: Seen, bytes: &[u8]) -> Look
    ensures { (front : List ℕ) → IsAfter seen front → Looks front bytes.now result }
{
    let mut now = seen;
    let mut at = 0;
    'lines: while let Some(len) = first_at(LINE_FEED, &bytes[at..]) {
        let end = at + len;
        match now.after_part(&bytes[at..end]).after_line_feed() {
            None => return Look::Ends(end + 1),
            Some(next) => now = next,
        }
        at = end + 1;
    }
    Look::Goes(now.after_part(&bytes[at..]))
}

/// Whether the bytes are empty lines and nothing else.
pub(crate) fn is_blank(bytes: &[u8]) -> bool
    ensures { result ≡ are_line_ends false bytes.now }
{
    let mut after_return = false;
    for byte in bytes {
        match *byte {
            LINE_FEED => after_return = false,
            CARRIAGE_RETURN if !after_return => after_return = true,
            _ => return false,
        }
    }
    !after_return
}
