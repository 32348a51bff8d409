//! Paths, walked from left to right.

ghost use Rattle.al_uri.specs.Faults.{Answers};
ghost use Rattle.al_uri.specs.Paths.{place_at, step};

use crate::escape::read_decoded;
use crate::fault::UriFault;
use crate::keys::read_keys;
use crate::place::Place;
use al_base::cut::cut;
use std::alloc::Global;

/// Where the path leads from the place. Its segments are judged from left to right, each for its escapes, its name and its keys.
#[tactic(auto, unfolding(crate::specs::Paths::place_at), using(al_base::proofs::CutLemmas::pieces_cut))]
pub fn walk(alloc: Global, from: Place, path: &[u8]) -> Result<Place, UriFault>
    ensures { Answers (place_at from path.now) result }
{
    let (before, mut rest) = cut(path, b'/');
    if !before.is_empty() {
        return Err(UriFault::NoSuchPath);
    }
    let mut place = from;
    while let Some(segments) = rest {
        let (segment, more) = cut(segments, b'/');
        place = step(alloc, place, segment)?;
        rest = more;
    }
    Ok(place)
}

/// Where one segment leads from the place.
#[tactic(auto, unfolding(crate::specs::Paths::step))]
fn step(alloc: Global, place: Place, segment: &[u8]) -> Result<Place, UriFault>
    ensures { Answers (step place segment.now) result }
{
    let (name, keys) = cut(segment, b'=');
    let name = read_decoded(alloc, name)?;
    let keys = read_keys(alloc, keys)?;
    match place.child(name.bytes()) {
        Some(way) => way.enter(alloc, keys.as_slice()),
        None => Err(UriFault::NoSuchPath),
    }
}
