//! Reports and operator actions.

ghost use Rattle.al_frame.specs.Formats.{Gives};
ghost use Rattle.al_frame.specs.Frames.{event_by, key, operate, operated, report, reported};
ghost use Rattle.std.specs.Prelude.{◌≡◌, ◌++◌, true, OnOk, length, min};

use crate::fault::FrameFault;
use crate::field::{Field, Opt};
use crate::number::bad;
use crate::text::{OperatorName, ResourceText, TextOf, TypeName};
use crate::word::Coded;
use al_base::limits::{LONGEST_ALARM_TEXT, LONGEST_OPERATOR_TEXT, LONGEST_QUALIFIER};
use al_base::{OperatorState, Status, Text};
use al_ids::AlarmKey;
use al_model::Event;
use std::alloc::{AllocError, Global};

pub type Qualifier = TextOf<0, LONGEST_QUALIFIER>;

type AlarmText = TextOf<0, LONGEST_ALARM_TEXT>;

type OperatorText = TextOf<0, LONGEST_OPERATOR_TEXT>;

/// What identifies an alarm.
pub struct Key;

impl Field for Key {
    type Value = AlarmKey;

    ghost format = { key };

    #[tactic(auto, unfolding(crate::specs::Frames::key))]
    fn read(alloc: Global, n: usize, bytes: &[u8]) -> Result<(AlarmKey, &[u8]), FrameFault> {
        let (resource, rest) = ResourceText::read(alloc, n, bytes)?;
        let (type_id, rest) = TypeName::read(alloc, n, rest)?;
        let (qualifier, rest) = Qualifier::read(alloc, n, rest)?;
        let key = AlarmKey {
            resource,
            type_id,
            qualifier,
        };
        Ok((key, rest))
    }

    #[tactic(auto, unfolding(crate::specs::Frames::key))]
    fn len(key: &AlarmKey) -> usize {
        ResourceText::len(&key.resource)
            .saturating_add(TypeName::len(&key.type_id))
            .saturating_add(Qualifier::len(&key.qualifier))
    }

    #[tactic(auto, unfolding(crate::specs::Frames::key))]
    fn put(key: &AlarmKey, out: &mut Vec<u8>) -> Result<(), AllocError> {
        ResourceText::put(&key.resource, out)?;
        TypeName::put(&key.type_id, out)?;
        Qualifier::put(&key.qualifier, out)
    }
}

#[tactic(auto, unfolding(crate::specs::Frames::report))]
pub fn report_at(alloc: Global, n: usize, bytes: &[u8]) -> Result<(Event, &[u8]), FrameFault>
    ensures { Gives (λ x. (x.0, x.1.now)) result (event_by reported report n bytes.now) }
{
    let (key, rest) = Key::read(alloc, n, bytes)?;
    let (status, rest) = Coded::<Status>::read(alloc, n, rest)?;
    let (text, rest) = AlarmText::read(alloc, n, rest)?;
    Ok((Event::Report { key, status, text }, rest))
}

#[tactic(auto, unfolding(crate::specs::Frames::report))]
pub fn report_len(key: &AlarmKey, status: &Status, text: &Text) -> usize
    ensures { result ≡ min usize.MAX (length (report.spell (key.now, (status.now, text.now)))) }
{
    Key::len(key)
        .saturating_add(Coded::<Status>::len(status))
        .saturating_add(AlarmText::len(text))
}

#[tactic(auto, unfolding(crate::specs::Frames::report))]
pub fn put_report(
    key: &AlarmKey,
    status: &Status,
    text: &Text,
    out: &mut Vec<u8>,
) -> Result<(), AllocError>
    requires { report.fits (key.now, (status.now, text.now)) ≡ true }
    ensures { OnOk result (out.new.items
        ≡ out.old.items ++ report.spell (key.now, (status.now, text.now))) }
{
    Key::put(key, out)?;
    Coded::<Status>::put(status, out)?;
    AlarmText::put(text, out)
}

/// A state that an operator sets.
struct OperatorsState;

impl Field for OperatorsState {
    type Value = OperatorState;

    ghost use Rattle.al_base.specs.Names.{state_number};
    ghost use Rattle.al_base.specs.Names.{states};
    ghost use Rattle.al_frame.specs.Formats.{checked};
    ghost use Rattle.al_base.specs.Operators.{is_operators};
    ghost use Rattle.al_frame.specs.Frames.{word};

    ghost format = { checked is_operators (word state_number states) };

    #[tactic(auto, unfolding(crate::specs::Formats::passed))]
    fn read(alloc: Global, n: usize, bytes: &[u8]) -> Result<(OperatorState, &[u8]), FrameFault> {
        let (state, rest) = Coded::<OperatorState>::read(alloc, n, bytes)?;
        match state {
            OperatorState::None0 | OperatorState::Ack | OperatorState::Closed => Ok((state, rest)),
            OperatorState::Shelved | OperatorState::UnShelved => Err(bad(n, bytes)),
        }
    }

    fn len(state: &OperatorState) -> usize {
        Coded::<OperatorState>::len(state)
    }

    fn put(state: &OperatorState, out: &mut Vec<u8>) -> Result<(), AllocError> {
        Coded::<OperatorState>::put(state, out)
    }
}

#[tactic(auto, unfolding(crate::specs::Frames::operate))]
pub fn operate_at(alloc: Global, n: usize, bytes: &[u8]) -> Result<(Event, &[u8]), FrameFault>
    ensures { Gives (λ x. (x.0, x.1.now)) result (event_by operated operate n bytes.now) }
{
    let (key, rest) = Key::read(alloc, n, bytes)?;
    let (state, rest) = OperatorsState::read(alloc, n, rest)?;
    let (operator, rest) = OperatorName::read(alloc, n, rest)?;
    let (text, rest) = Opt::<OperatorText>::read(alloc, n, rest)?;
    let event = Event::Operate {
        key,
        state,
        operator,
        text,
    };
    Ok((event, rest))
}

#[tactic(auto, unfolding(crate::specs::Frames::operate))]
pub fn operate_len(
    key: &AlarmKey,
    state: &OperatorState,
    operator: &Text,
    text: &Option<Text>,
) -> usize
    ensures { result ≡ min usize.MAX
        (length (operate.spell (key.now, (state.now, (operator.now, text.now))))) }
{
    Key::len(key)
        .saturating_add(OperatorsState::len(state))
        .saturating_add(OperatorName::len(operator))
        .saturating_add(Opt::<OperatorText>::len(text))
}

#[tactic(auto, unfolding(crate::specs::Frames::operate))]
pub fn put_operate(
    key: &AlarmKey,
    state: &OperatorState,
    operator: &Text,
    text: &Option<Text>,
    out: &mut Vec<u8>,
) -> Result<(), AllocError>
    requires { operate.fits (key.now, (state.now, (operator.now, text.now))) ≡ true }
    ensures { OnOk result (out.new.items
        ≡ out.old.items ++ operate.spell (key.now, (state.now, (operator.now, text.now)))) }
{
    Key::put(key, out)?;
    OperatorsState::put(state, out)?;
    OperatorName::put(operator, out)?;
    Opt::<OperatorText>::put(text, out)
}
