//! What an operator says of an alarm (RFC 8632, action `set-operator-state`).

ghost use Rattle.al_input.specs.Faults.{Answers};
ghost use Rattle.al_input.specs.Inputs.{action, action_input, operators_state};
ghost use Rattle.al_base.specs.Operators.{is_operators};
ghost use Rattle.serde_json.specs.View.{view};
ghost use Rattle.std.specs.Prelude.{◌≡◌};

use crate::asked::Asked;
use crate::body::body;
use crate::fault::InputFault;
use crate::member::{check_names, optional, required};
use crate::reader::Reader;
use crate::text::TextOf;
use crate::word::WordOf;
use al_base::limits::LONGEST_OPERATOR_TEXT;
use al_base::{Copied, OperatorState, Text};
use al_ids::AlarmKey;
use serde_json::Value;
use std::alloc::Global;

/// A state that an operator sets; shelves set the others.
pub struct OperatorsState;

impl Reader for OperatorsState {
    type Output = OperatorState;

    ghost reads = { operators_state };

    #[tactic(auto, unfolding(crate::specs::Inputs::operators_state, crate::specs::Readers::passed))]
    fn read(alloc: Global, value: &Value) -> Result<OperatorState, InputFault> {
        let state = WordOf::<OperatorState>::read(alloc, value)?;
        if is_operators(state) {
            Ok(state)
        } else {
            Err(InputFault::BadValue)
        }
    }
}

fn is_operators(state: OperatorState) -> bool
    ensures { result ≡ is_operators state }
{
    match state {
        OperatorState::None0 | OperatorState::Ack | OperatorState::Closed => true,
        OperatorState::Shelved | OperatorState::UnShelved => false,
    }
}

/// The state and the text that an operator gives an alarm.
pub struct ActionFields;

impl Reader for ActionFields {
    type Output = (OperatorState, Option<Text>);

    ghost reads = { action };

    #[tactic(auto, using(crate::proofs::Due::fault_first), unfolding(crate::specs::Inputs::action, crate::specs::Members::known_only))]
    fn read(alloc: Global, value: &Value) -> Result<(OperatorState, Option<Text>), InputFault> {
        check_names(
            value,
            &["state", "ietf-alarms:state", "text", "ietf-alarms:text"],
        )?;
        let state = required::<OperatorsState>(alloc, value, "state", "ietf-alarms:state")?;
        let text = optional::<TextOf<0, LONGEST_OPERATOR_TEXT>>(
            alloc,
            value,
            "text",
            "ietf-alarms:text",
        )?;
        Ok((state, text))
    }
}

#[tactic(auto, using(crate::proofs::Due::fault_first), unfolding(crate::specs::Inputs::action_input, crate::specs::Members::known_only))]
pub fn action_input(alloc: Global, key: &AlarmKey, value: &Value) -> Result<Asked, InputFault>
    ensures { Answers (action_input key.now (view value.now)) result }
{
    let (state, text) = body::<ActionFields>(alloc, value, "input", "ietf-alarms:input")?;
    let key = key.copy(alloc)?;
    Ok(Asked::Operate { key, state, text })
}
