ghost use Rattle.al_ids.specs.Matches.{TakesOid};
ghost use Rattle.al_ids.specs.Oids.{IsOid};
ghost use Rattle.al_ids.specs.OidReading.{ends_arc as ends_arc_of, leads_to_end, may_end as may_end_of, next_place, when};
ghost use Rattle.std.specs.Prelude.{◌≡◌, ◌↔◌, IsTrue};

/// Where the reader of an object identifier stands.
#[derive(Clone, Copy)]
enum Place {
    /// Before the first arc.
    Start,
    /// Behind 0 or 1.
    Low,
    /// Behind 2.
    High,
    /// Behind the first dot, where at most 39 may follow.
    Second,
    /// Behind the first of the second arc's digits, which one digit may follow.
    Tens,
    /// Behind an arc that no digit may follow.
    Done,
    /// Behind a dot.
    Arc,
    /// In an arc that digits may follow.
    Digits,
}

impl Place {
    /// The place behind this byte, None where no object identifier has it here.
    fn next(self, byte: u8) -> Option<Place>
        ensures { result ≡ next_place self byte }
    {
        match self {
            Place::Start => match byte {
                b'2' => Some(Place::High),
                _ => when(byte == b'0' || byte == b'1', Place::Low),
            },
            Place::Low => when(byte == b'.', Place::Second),
            Place::High => when(byte == b'.', Place::Arc),
            Place::Second => match byte {
                b'1'..=b'3' => Some(Place::Tens),
                _ => when(byte.is_ascii_digit(), Place::Done),
            },
            Place::Tens => match byte {
                b'.' => Some(Place::Arc),
                _ => when(byte.is_ascii_digit(), Place::Done),
            },
            Place::Done => when(byte == b'.', Place::Arc),
            Place::Arc => match byte {
                b'0' => Some(Place::Done),
                _ => when(byte.is_ascii_digit(), Place::Digits),
            },
            Place::Digits => match byte {
                b'.' => Some(Place::Arc),
                _ => when(byte.is_ascii_digit(), Place::Digits),
            },
        }
    }

    /// Whether an object identifier may end here.
    fn may_end(self) -> bool
        ensures { result ≡ may_end_of self }
    {
        matches!(self, Place::Tens | Place::Done | Place::Digits)
    }

    /// Whether the text leads from here to the end of an object identifier.
    fn reaches_end(self, text: &[u8]) -> bool
        ensures { result ≡ leads_to_end text.now self }
    {
        let mut place = self;
        for byte in text {
            match place.next(*byte) {
                Some(next) => place = next,
                None => return false,
            }
        }
        place.may_end()
    }
}

fn when(holds: bool, place: Place) -> Option<Place>
    ensures { result ≡ when holds place }
{
    if holds { Some(place) } else { None }
}

/// Whether the text is an object identifier.
pub fn is_oid(text: &[u8]) -> bool
    ensures { IsTrue result ↔ IsOid text.now }
{
    Place::Start.reaches_end(text)
}

/// Whether the arcs of the one object identifier are a front of those of the other.
pub fn is_front(front: &[u8], whole: &[u8]) -> bool
    requires front { IsOid front.now }
    requires whole { IsOid whole.now }
    ensures { IsTrue result ↔ TakesOid front.now whole.now }
{
    match whole.strip_prefix(front) {
        Some(rest) => ends_arc(rest),
        None => false,
    }
}

/// Whether an arc ends before these bytes.
fn ends_arc(rest: &[u8]) -> bool
    ensures { result ≡ ends_arc_of rest.now }
{
    match rest.first() {
        Some(byte) => *byte == b'.',
        None => true,
    }
}
