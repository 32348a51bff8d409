//! Which alarms a compression shortens (RFC 8632, actions `compress-alarms` and `compress-shelved-alarms`).

ghost use Rattle.al_input.specs.Faults.{Answers};
ghost use Rattle.al_input.specs.Inputs.{compress, compress_input};
ghost use Rattle.serde_json.specs.View.{view};

use crate::asked::Asked;
use crate::body::body_or;
use crate::fault::InputFault;
use crate::member::{check_names, optional};
use crate::reader::Reader;
use crate::text::{MatchText, TextOf, TypeName};
use al_base::limits::LONGEST_QUALIFIER;
use al_model::{Request, Side};
use al_select::CompressFilter;
use serde_json::Value;
use std::alloc::Global;

/// The filter of a compression.
pub struct CompressFields;

impl Reader for CompressFields {
    type Output = CompressFilter;

    ghost reads = { compress };

    #[tactic(auto, using(crate::proofs::Due::fault_first), unfolding(crate::specs::Inputs::compress, crate::specs::Members::known_only))]
    fn read(alloc: Global, value: &Value) -> Result<CompressFilter, InputFault> {
        check_names(
            value,
            &[
                "resource",
                "ietf-alarms:resource",
                "alarm-type-id",
                "ietf-alarms:alarm-type-id",
                "alarm-type-qualifier",
                "ietf-alarms:alarm-type-qualifier",
            ],
        )?;
        let resource = optional::<MatchText>(alloc, value, "resource", "ietf-alarms:resource")?;
        let type_id = optional::<TypeName>(
            alloc,
            value,
            "alarm-type-id",
            "ietf-alarms:alarm-type-id",
        )?;
        let qualifier = optional::<TextOf<0, LONGEST_QUALIFIER>>(
            alloc,
            value,
            "alarm-type-qualifier",
            "ietf-alarms:alarm-type-qualifier",
        )?;
        Ok(CompressFilter {
            resource,
            type_id,
            qualifier,
        })
    }
}

/// A body without a filter takes all.
#[tactic(auto, using(crate::proofs::Due::fault_first), unfolding(crate::specs::Inputs::compress_input, crate::specs::Members::known_only))]
pub fn compress_input(alloc: Global, side: Side, value: &Value) -> Result<Asked, InputFault>
    ensures { Answers (compress_input side (view value.now)) result }
{
    let all = CompressFilter {
        resource: None,
        type_id: None,
        qualifier: None,
    };
    let filter = body_or::<CompressFields>(alloc, value, "input", "ietf-alarms:input", all)?;
    Ok(Asked::Whole(Request::Compress { side, filter }))
}
