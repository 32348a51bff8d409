//! Fields: how values of one format are read, measured and written.

ghost use Rattle.al_frame.specs.Formats.{Format, Gives, opt};
ghost use Rattle.std.specs.Prelude.{◌≡◌, ◌++◌, true, OnOk, length, min};

use crate::fault::FrameFault;
use crate::number::bad;
use std::alloc::{AllocError, Global};
use std::marker::PhantomData;

/// A format of values. No value has such a type: it names the format.
pub trait Field {
    type Value: Drop;

    ghost format: { Format Self.Value };

    /// Reads a value from the front of these bytes, which end an input of that length. What stands behind the value comes with it.
    fn read(alloc: Global, n: usize, bytes: &[u8]) -> Result<(Self::Value, &[u8]), FrameFault>
        ensures { Gives (λ x. (x.0, x.1.now)) result (format.read n bytes.now) };

    /// How many bytes the value takes, or the greatest number that there is where it would take more.
    fn len(value: &Self::Value) -> usize
        ensures { result ≡ min usize.MAX (length (format.spell value.now)) };

    /// Writes the value at the end.
    fn put(value: &Self::Value, out: &mut Vec<u8>) -> Result<(), AllocError>
        requires { format.fits value.now ≡ true }
        ensures { OnOk result (out.new.items ≡ out.old.items ++ format.spell value.now) };
}

/// A value that may be absent: 0, or 1 and the value.
pub struct Opt<F>(PhantomData<F>);

impl<F: Field> Field for Opt<F> {
    type Value = Option<F::Value>;

    ghost format = { opt F.format };

    #[tactic(auto, unfolding(crate::specs::Formats::opt_at))]
    fn read(
        alloc: Global,
        n: usize,
        bytes: &[u8],
    ) -> Result<(Option<F::Value>, &[u8]), FrameFault> {
        match bytes {
            [] => Err(FrameFault::Truncated(n)),
            [0, rest @ ..] => Ok((None, rest)),
            [1, rest @ ..] => {
                let (value, rest) = F::read(alloc, n, rest)?;
                Ok((Some(value), rest))
            }
            [_, ..] => Err(bad(n, bytes)),
        }
    }

    fn len(value: &Option<F::Value>) -> usize {
        match value {
            None => 1,
            Some(value) => F::len(value).saturating_add(1),
        }
    }

    fn put(value: &Option<F::Value>, out: &mut Vec<u8>) -> Result<(), AllocError> {
        match value {
            None => out.push(0)?,
            Some(value) => {
                out.push(1)?;
                F::put(value, out)?;
            }
        }
        Ok(())
    }
}
