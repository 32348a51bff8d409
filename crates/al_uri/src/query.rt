//! Queries: their parameters, read from left to right (RFC 8040, sections 4.8.5 and 4.8.6).

ghost use Rattle.al_uri.specs.Faults.{Answers};
ghost use Rattle.al_uri.specs.Queries.{after_part, from_value, insert_value, known_at, not_empty, parameters_of, point_value, shelf_at, spot_of, with_parameters, with_part};
ghost use Rattle.std.specs.Option.{option_copied};
ghost use Rattle.std.specs.Prelude.{◌≡◌};

use crate::escape::read_decoded;
use crate::fault::UriFault;
use crate::path;
use crate::place::Place;
use crate::target::Target;
use al_base::Text;
use al_base::cut::cut;
use al_shelf::Spot;
use std::alloc::Global;

/// Which parameters a resource has.
#[derive(Clone, Copy)]
pub enum Known {
    /// `insert` and `point`, which say where a shelf is to stand.
    Order,
    /// `from`, which says where a page begins.
    Start,
    Nothing,
}

/// The values of `insert`.
#[derive(Clone, Copy)]
pub enum Insert {
    First,
    Last,
    Before,
    After,
}

/// The parameters of a query, those that it has.
#[derive(Drop)]
pub struct Parameters {
    pub insert: Option<Insert>,
    /// The name of the shelf that the point is.
    pub point: Option<Text>,
    pub from: Option<u32>,
}

impl Target {
    /// Which parameters the resource has.
    pub(crate) fn known(&self) -> Known
        ensures { result ≡ known_at self.now }
    {
        match self {
            Target::Shelving { spot: _ } | Target::OneShelf { name: _, spot: _ } => Known::Order,
            Target::NotificationLog { start: _ } | Target::JournalPage { start: _ } => Known::Start,
            _ => Known::Nothing,
        }
    }

    /// The resource with the spot or the start that is asked for. BadQuery where a point stands without before or after, or one of
    /// these without a point.
    #[tactic(auto, unfolding(crate::specs::Queries::with_parameters))]
    pub(crate) fn with_parameters(self, asked: Parameters) -> Result<Target, UriFault>
        ensures { Answers (with_parameters self asked) result }
    {
        match self {
            Target::Shelving { spot: _ } => Ok(Target::Shelving {
                spot: asked.spot()?,
            }),
            Target::OneShelf { name, spot: _ } => Ok(Target::OneShelf {
                name,
                spot: asked.spot()?,
            }),
            Target::NotificationLog { start } => Ok(Target::NotificationLog {
                start: asked.from.unwrap_or(start),
            }),
            Target::JournalPage { start } => Ok(Target::JournalPage {
                start: asked.from.unwrap_or(start),
            }),
            other => Ok(other),
        }
    }

    /// The name of the shelf; BadQuery where the target is another.
    fn shelf_name(self) -> Result<Text, UriFault>
        ensures { Answers (shelf_at (Ok (Place.At self))) result }
    {
        match self {
            Target::OneShelf { name, spot: _ } => Ok(name),
            _ => Err(UriFault::BadQuery),
        }
    }
}

/// The parameters of the query, of a resource that has these. Its parts are judged from left to right, each for its escapes, its name
/// and its value.
#[tactic(auto, unfolding(crate::specs::Queries::parameters_of), using(al_base::proofs::CutLemmas::pieces_cut))]
pub fn read(alloc: Global, known: Known, query: Option<&[u8]>) -> Result<Parameters, UriFault>
    ensures { Answers (parameters_of known (option_copied query.entry)) result }
{
    let mut asked = Parameters {
        insert: None,
        point: None,
        from: None,
    };
    let mut rest = not_empty(query);
    while let Some(parts) = rest {
        let (part, more) = cut(parts, b'&');
        asked = asked.with_part(alloc, known, part)?;
        rest = more;
    }
    Ok(asked)
}

/// The query, if there is one; an empty query is none.
fn not_empty(query: Option<&[u8]>) -> Option<&[u8]>
    ensures { option_copied result ≡ not_empty (option_copied query.entry) }
{
    match query {
        Some(bytes) if !bytes.is_empty() => Some(bytes),
        _ => None,
    }
}

impl Parameters {
    /// With the parameter of one more part.
    #[tactic(auto, unfolding(crate::specs::Queries::after_part, crate::specs::Queries::with_part))]
    fn with_part(self, alloc: Global, known: Known, part: &[u8]) -> Result<Parameters, UriFault>
        ensures { Answers (after_part known self part.now) result }
    {
        let (name, value) = cut(part, b'=');
        let name = read_decoded(alloc, name)?;
        let value = read_decoded(alloc, value.unwrap_or(b"".as_slice()))?;
        match known {
            Known::Order => self.with_order(alloc, name.bytes(), value.bytes()),
            Known::Start => self.with_start(name.bytes(), value.bytes()),
            Known::Nothing => Err(UriFault::BadQuery),
        }
    }

    #[tactic(auto, unfolding(crate::specs::Queries::with_part))]
    fn with_order(
        mut self,
        alloc: Global,
        name: &[u8],
        value: &[u8],
    ) -> Result<Parameters, UriFault>
        ensures { Answers (with_part Known.Order self name.now value.now) result }
    {
        if name == b"insert".as_slice() {
            if self.insert.is_some() {
                return Err(UriFault::BadQuery);
            }
            self.insert = Some(read_insert(value)?);
            Ok(self)
        } else if name == b"point".as_slice() {
            if self.point.is_some() {
                return Err(UriFault::BadQuery);
            }
            self.point = Some(read_point(alloc, value)?);
            Ok(self)
        } else {
            Err(UriFault::BadQuery)
        }
    }

    #[tactic(auto, unfolding(crate::specs::Queries::with_part))]
    fn with_start(mut self, name: &[u8], value: &[u8]) -> Result<Parameters, UriFault>
        ensures { Answers (with_part Known.Start self name.now value.now) result }
    {
        if name != b"from".as_slice() || self.from.is_some() {
            return Err(UriFault::BadQuery);
        }
        self.from = Some(read_from(value)?);
        Ok(self)
    }

    #[tactic(auto, unfolding(crate::specs::Queries::spot_of))]
    fn spot(self) -> Result<Spot, UriFault>
        ensures { Answers (spot_of self.insert self.point) result }
    {
        let Parameters {
            insert,
            point,
            from: _,
        } = self;
        match (insert, point) {
            (None, None) => Ok(Spot::Keep),
            (Some(Insert::First), None) => Ok(Spot::First),
            (Some(Insert::Last), None) => Ok(Spot::Last),
            (Some(Insert::Before), Some(point)) => Ok(Spot::Before(point)),
            (Some(Insert::After), Some(point)) => Ok(Spot::After(point)),
            _ => Err(UriFault::BadQuery),
        }
    }
}

#[tactic(auto, unfolding(crate::specs::Queries::insert_value))]
fn read_insert(value: &[u8]) -> Result<Insert, UriFault>
    ensures { Answers (insert_value value.now) result }
{
    if value == b"first".as_slice() {
        Ok(Insert::First)
    } else if value == b"last".as_slice() {
        Ok(Insert::Last)
    } else if value == b"before".as_slice() {
        Ok(Insert::Before)
    } else if value == b"after".as_slice() {
        Ok(Insert::After)
    } else {
        Err(UriFault::BadQuery)
    }
}

/// The name of the shelf to which the path leads, below `/restconf/data`.
#[tactic(auto, unfolding(crate::specs::Queries::point_value))]
fn read_point(alloc: Global, value: &[u8]) -> Result<Text, UriFault>
    ensures { Answers (point_value value.now) result }
{
    match path::walk(alloc, Place::Data, value) {
        Ok(Place::At(target)) => target.shelf_name(),
        Err(UriFault::Memory) => Err(UriFault::Memory),
        _ => Err(UriFault::BadQuery),
    }
}

/// The number of 32 bits that 1 to 10 decimal digits write.
#[tactic(auto, unfolding(crate::specs::Queries::from_value))]
fn read_from(value: &[u8]) -> Result<u32, UriFault>
    ensures { Answers (from_value value.now) result }
{
    if value.is_empty() || value.len() > 10 {
        return Err(UriFault::BadQuery);
    }
    let mut number: u64 = 0;
    for digit in value {
        if !digit.is_ascii_digit() {
            return Err(UriFault::BadQuery);
        }
        number = number * 10 + u64::from(*digit - b'0');
    }
    if number > 4_294_967_295 {
        return Err(UriFault::BadQuery);
    }
    Ok(number as u32)
}
