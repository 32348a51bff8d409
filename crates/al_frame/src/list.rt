//! Lists of fields: a count, and that many values.

ghost use Rattle.al_frame.specs.Formats.{Gives, checked, each_at, list, number, set, spelled_each};
ghost use Rattle.al_base.specs.Repeats.{repeats};
ghost use Rattle.std.specs.Int.{to_be_bytes, w16};
ghost use Rattle.std.specs.List.{list_all};
ghost use Rattle.std.specs.Prelude.{◌≡◌, ◌+◌, ◌++◌, ◌<◌, ◌^◌, true, OnOk, length, min, nat_le};

use crate::fault::FrameFault;
use crate::field::Field;
use crate::number::{bad, put_u16, u16_at};
use al_base::List;
use al_base::repeats::repeats;
use std::alloc::{AllocError, Global};
use std::marker::PhantomData;

/// At most so many values.
pub struct ListOf<F, const MOST: u16>(PhantomData<F>);

impl<F: Field, const MOST: u16> Field for ListOf<F, MOST> {
    type Value = List<F::Value>;

    ghost format = { list MOST F.format };

    fn read(alloc: Global, n: usize, bytes: &[u8]) -> Result<(List<F::Value>, &[u8]), FrameFault> {
        let (count, rest) = count_at(n, MOST, bytes)?;
        let (values, rest) = each::<F>(alloc, n, count, rest)?;
        Ok((List::of(values), rest))
    }

    fn len(values: &List<F::Value>) -> usize {
        each_len::<F>(values.as_slice()).saturating_add(2)
    }

    fn put(values: &List<F::Value>, out: &mut Vec<u8>) -> Result<(), AllocError> {
        put_list::<F>(values.as_slice(), out)
    }
}

/// A count, at most so great.
#[tactic(auto, unfolding(crate::specs::Formats::passed))]
fn count_at(n: usize, most: u16, bytes: &[u8]) -> Result<(u16, &[u8]), FrameFault>
    ensures { Gives (λ x. (x.0, x.1.now)) result
        ((checked (λ count. nat_le count most) (number w16)).read n bytes.now) }
{
    let (count, rest) = u16_at(n, bytes)?;
    if count > most {
        return Err(bad(n, bytes));
    }
    Ok((count, rest))
}

fn each<F: Field>(
    alloc: Global,
    n: usize,
    count: u16,
    bytes: &[u8],
) -> Result<(Vec<F::Value>, &[u8]), FrameFault>
    ensures { Gives (λ x. (x.0.items, x.1.now)) result (each_at F.format.read count n bytes.now) }
{
    let mut values = Vec::new(alloc);
    let mut rest = bytes;
    for _ in 0..count {
        let (value, after) = F::read(alloc, n, rest)?;
        values.push(value)?;
        rest = after;
    }
    Ok((values, rest))
}

/// How many bytes the values take together.
pub fn each_len<F: Field>(values: &[F::Value]) -> usize
    ensures { result ≡ min usize.MAX (length (spelled_each F.format.spell values.now)) }
{
    let mut total: usize = 0;
    for value in values {
        total = total.saturating_add(F::len(value));
    }
    total
}

/// The count of the values, and the values.
pub fn put_list<F: Field>(values: &[F::Value], out: &mut Vec<u8>) -> Result<(), AllocError>
    requires few { length values.now < 2 ^ 16 }
    requires fit { list_all F.format.fits values.now ≡ true }
    ensures { OnOk result (out.new.items
        ≡ out.old.items ++ (to_be_bytes w16 (length values.now)
        ++ spelled_each F.format.spell values.now)) }
{
    put_u16(values.len() as u16, out)?;
    put_each::<F>(values, out)
}

fn put_each<F: Field>(values: &[F::Value], out: &mut Vec<u8>) -> Result<(), AllocError>
    requires { list_all F.format.fits values.now ≡ true }
    ensures { OnOk result (out.new.items
        ≡ out.old.items ++ spelled_each F.format.spell values.now) }
{
    for value in values {
        F::put(value, out)?;
    }
    Ok(())
}

/// At most so many values, no two of which are the same.
pub struct SetOf<F, const MOST: u16>(PhantomData<F>);

impl<F: Field, const MOST: u16> Field for SetOf<F, MOST>
where
    F::Value: PartialEq,
{
    type Value = List<F::Value>;

    ghost format = { set MOST F.Value.eq F.format };

    #[tactic(auto, unfolding(crate::specs::Formats::passed))]
    fn read(alloc: Global, n: usize, bytes: &[u8]) -> Result<(List<F::Value>, &[u8]), FrameFault> {
        let (values, rest) = ListOf::<F, MOST>::read(alloc, n, bytes)?;
        if repeats(values.as_slice()) {
            return Err(bad(n, bytes));
        }
        Ok((values, rest))
    }

    fn len(values: &List<F::Value>) -> usize {
        ListOf::<F, MOST>::len(values)
    }

    fn put(values: &List<F::Value>, out: &mut Vec<u8>) -> Result<(), AllocError> {
        ListOf::<F, MOST>::put(values, out)
    }
}
