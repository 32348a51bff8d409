//! Lists.

ghost use Rattle.al_input.specs.Faults.{Answers, Gives};
ghost use Rattle.al_input.specs.Members.{with_default};
ghost use Rattle.al_input.specs.Readers.{list, only, set};
ghost use Rattle.al_base.specs.Answers.{each};
ghost use Rattle.serde_json.specs.View.{view};
ghost use Rattle.std.specs.Prelude.{◌≡◌, [], map};

use crate::fault::InputFault;
use crate::member::optional;
use crate::reader::Reader;
use al_base::List;
use al_base::repeats::repeats;
use serde_json::Value;
use std::alloc::Global;
use std::marker::PhantomData;

/// At most so many values.
pub struct ListOf<R, const MOST: usize>(PhantomData<R>);

impl<R: Reader, const MOST: usize> Reader for ListOf<R, MOST> {
    type Output = List<R::Output>;

    ghost reads = { list MOST R.reads };

    #[tactic(auto, using(crate::proofs::Listed::list_none, crate::proofs::Listed::list_long, crate::proofs::Listed::list_short))]
    fn read(alloc: Global, value: &Value) -> Result<List<R::Output>, InputFault> {
        let Some(values) = value.as_array() else {
            return Err(InputFault::BadValue);
        };
        if values.len() > MOST {
            return Err(InputFault::BadValue);
        }
        each::<R>(alloc, values.as_slice())
    }
}

fn each<R: Reader>(alloc: Global, values: &[Value]) -> Result<List<R::Output>, InputFault>
    ensures { Answers (each R.reads (map view values.now)) result }
{
    let mut read = Vec::with_capacity(alloc, values.len())?;
    for value in values {
        read.push(R::read(alloc, value)?)?;
    }
    Ok(List::of(read))
}

/// At most so many values, no two of which are the same.
pub struct SetOf<R, const MOST: usize>(PhantomData<R>);

impl<R: Reader, const MOST: usize> Reader for SetOf<R, MOST>
where
    R::Output: PartialEq,
{
    type Output = List<R::Output>;

    ghost reads = { set MOST R.Output.eq R.reads };

    #[tactic(auto, unfolding(crate::specs::Readers::set, crate::specs::Readers::passed))]
    fn read(alloc: Global, value: &Value) -> Result<List<R::Output>, InputFault> {
        let values = ListOf::<R, MOST>::read(alloc, value)?;
        if repeats(values.as_slice()) {
            return Err(InputFault::BadValue);
        }
        Ok(values)
    }
}

/// The one value of a list that has no other.
#[tactic(auto, unfolding(crate::specs::Readers::only))]
pub fn only(value: &Value) -> Result<&Value, InputFault>
    ensures { Gives (λ v. view v.now) result (only (view value.now)) }
{
    match (value.get(0usize), value.get(1usize)) {
        (Some(first), None) => Ok(first),
        _ => Err(InputFault::BadValue),
    }
}

/// The list of a member, or no values where the member is absent.
pub fn list_or_none<R: Reader, const MOST: usize>(
    alloc: Global,
    value: &Value,
    plain: &str,
    qualified: &str,
) -> Result<List<R::Output>, InputFault>
    ensures { Answers (with_default [] plain.now qualified.now (list MOST R.reads) (view value.now))
        result }
{
    match optional::<ListOf<R, MOST>>(alloc, value, plain, qualified)? {
        Some(values) => Ok(values),
        None => Ok(none(alloc)),
    }
}

/// The list without repeats of a member, or no values where the member is absent.
pub fn set_or_none<R: Reader, const MOST: usize>(
    alloc: Global,
    value: &Value,
    plain: &str,
    qualified: &str,
) -> Result<List<R::Output>, InputFault>
where
    R::Output: PartialEq,
    ensures { Answers (with_default [] plain.now qualified.now (set MOST R.Output.eq R.reads)
        (view value.now)) result }
{
    match optional::<SetOf<R, MOST>>(alloc, value, plain, qualified)? {
        Some(values) => Ok(values),
        None => Ok(none(alloc)),
    }
}

/// No values.
fn none<T>(alloc: Global) -> List<T>
    ensures { result ≡ [] }
{
    List::of(Vec::new(alloc))
}
