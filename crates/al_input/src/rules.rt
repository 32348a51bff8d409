//! The rules of the alarm list (RFC 8632, container `control`).

ghost use Rattle.al_input.specs.Faults.{Answers};
ghost use Rattle.al_input.specs.Inputs.{level_input, maximum, max_input, mode_input};
ghost use Rattle.serde_json.specs.View.{view};

use crate::asked::Asked;
use crate::body::body;
use crate::fault::InputFault;
use crate::number::NumberOf;
use crate::reader::Reader;
use crate::word::WordOf;
use al_base::Severity;
use al_base::limits::MOST_STATUS_CHANGES;
use al_model::Request;
use al_notify::Mode;
use serde_json::Value;
use std::alloc::Global;

/// How many status entries an alarm keeps, or all of them.
pub struct Maximum;

impl Reader for Maximum {
    type Output = Option<u16>;

    ghost reads = { maximum };

    #[tactic(auto, unfolding(crate::specs::Inputs::maximum))]
    fn read(alloc: Global, value: &Value) -> Result<Option<u16>, InputFault> {
        match value.as_str() {
            Some("infinite") => Ok(None),
            Some(_) => Err(InputFault::BadValue),
            None => Ok(Some(NumberOf::<1, MOST_STATUS_CHANGES>::read(alloc, value)?)),
        }
    }
}

#[tactic(auto, using(crate::proofs::Due::fault_first), unfolding(crate::specs::Inputs::max_input, crate::specs::Members::known_only))]
pub fn max_input(alloc: Global, value: &Value) -> Result<Asked, InputFault>
    ensures { Answers (max_input (view value.now)) result }
{
    let max = body::<Maximum>(
        alloc,
        value,
        "max-alarm-status-changes",
        "ietf-alarms:max-alarm-status-changes",
    )?;
    Ok(Asked::Whole(Request::SetMax(max)))
}

#[tactic(auto, using(crate::proofs::Due::fault_first), unfolding(crate::specs::Inputs::mode_input, crate::specs::Members::known_only))]
pub fn mode_input(alloc: Global, value: &Value) -> Result<Asked, InputFault>
    ensures { Answers (mode_input (view value.now)) result }
{
    let mode = body::<WordOf<Mode>>(
        alloc,
        value,
        "notify-status-changes",
        "ietf-alarms:notify-status-changes",
    )?;
    Ok(Asked::Whole(Request::SetMode(mode)))
}

#[tactic(auto, using(crate::proofs::Due::fault_first), unfolding(crate::specs::Inputs::level_input, crate::specs::Members::known_only))]
pub fn level_input(alloc: Global, value: &Value) -> Result<Asked, InputFault>
    ensures { Answers (level_input (view value.now)) result }
{
    let level = body::<WordOf<Severity>>(
        alloc,
        value,
        "notify-severity-level",
        "ietf-alarms:notify-severity-level",
    )?;
    Ok(Asked::Whole(Request::SetLevel(level)))
}
