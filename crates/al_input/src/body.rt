//! Bodies: objects of one member.

ghost use Rattle.al_input.specs.Faults.{Answers};
ghost use Rattle.al_input.specs.Inputs.{body, body_or};
ghost use Rattle.serde_json.specs.View.{view};

use crate::fault::InputFault;
use crate::member::{check_names, or_default, required};
use crate::reader::Reader;
use serde_json::Value;
use std::alloc::Global;

/// What stands in the one member of the body.
pub fn body<R: Reader>(
    alloc: Global,
    value: &Value,
    plain: &str,
    qualified: &str,
) -> Result<R::Output, InputFault>
    ensures { Answers (body plain.now qualified.now R.reads (view value.now)) result }
{
    check_names(value, &[plain, qualified])?;
    required::<R>(alloc, value, plain, qualified)
}

/// What stands in the one member of the body, or this where it is absent.
pub fn body_or<R: Reader>(
    alloc: Global,
    value: &Value,
    plain: &str,
    qualified: &str,
    default: R::Output,
) -> Result<R::Output, InputFault>
    ensures { Answers (body_or default plain.now qualified.now R.reads (view value.now)) result }
{
    check_names(value, &[plain, qualified])?;
    or_default::<R>(alloc, value, plain, qualified, default)
}
