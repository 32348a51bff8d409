//! Readers: how values of one kind are read from JSON.

ghost use Rattle.al_input.specs.Faults.{Answers};
ghost use Rattle.al_input.specs.declared.fault.InputFault.{InputFault};
ghost use Rattle.serde_json.specs.Data.{Data};
ghost use Rattle.serde_json.specs.View.{view};
ghost use Rattle.std.specs.Prelude.{Result};

use crate::fault::InputFault;
use serde_json::Value;
use std::alloc::Global;

/// A kind of values. No value has such a type: it names the kind.
pub trait Reader {
    type Output: Drop;

    ghost reads: { Data → Result Self.Output InputFault };

    fn read(alloc: Global, value: &Value) -> Result<Self::Output, InputFault>
        ensures { Answers (reads (view value.now)) result };
}
