//! Which alarms a purge takes (RFC 8632, actions `purge-alarms` and `purge-shelved-alarms`).

ghost use Rattle.al_input.specs.Faults.{Answers};
ghost use Rattle.al_input.specs.Inputs.{age, by, compared, compared_names, in_unit, newest, or_above, or_below, or_equal, purge, purge_input};
ghost use Rattle.serde_json.specs.View.{view};

use crate::asked::Asked;
use crate::body::body_or;
use crate::fault::InputFault;
use crate::member::{check_names, one_of, optional, or_default};
use crate::number::NumberOf;
use crate::reader::Reader;
use crate::text::TextOf;
use crate::word::WordOf;
use al_base::limits::{LONGEST_OPERATOR_NAME, MOST_AGE_UNITS};
use al_base::{OperatorState, Severity, Text};
use al_model::{Request, Side};
use al_select::{Clearance, Compare, PurgeFilter};
use serde_json::Value;
use std::alloc::Global;

/// An age in milliseconds, written in one unit.
pub struct AgeFields;

impl Reader for AgeFields {
    type Output = Option<u64>;

    ghost reads = { age };

    #[tactic(auto, using(crate::proofs::Due::fault_first), unfolding(crate::specs::Inputs::age, crate::specs::Members::known_only))]
    fn read(alloc: Global, value: &Value) -> Result<Option<u64>, InputFault> {
        check_names(
            value,
            &[
                "seconds",
                "ietf-alarms:seconds",
                "minutes",
                "ietf-alarms:minutes",
                "hours",
                "ietf-alarms:hours",
                "days",
                "ietf-alarms:days",
                "weeks",
                "ietf-alarms:weeks",
            ],
        )?;
        let age = in_unit(alloc, 1_000, value, "seconds", "ietf-alarms:seconds", None)?;
        let age = in_unit(alloc, 60_000, value, "minutes", "ietf-alarms:minutes", age)?;
        let age = in_unit(alloc, 3_600_000, value, "hours", "ietf-alarms:hours", age)?;
        let age = in_unit(alloc, 86_400_000, value, "days", "ietf-alarms:days", age)?;
        in_unit(alloc, 604_800_000, value, "weeks", "ietf-alarms:weeks", age)
    }
}

/// The age that a unit says, or the one that an earlier unit said. BadValue where both do.
#[tactic(auto, unfolding(crate::specs::Inputs::in_unit))]
fn in_unit(
    alloc: Global,
    unit: u32,
    value: &Value,
    plain: &str,
    qualified: &str,
    earlier: Option<u64>,
) -> Result<Option<u64>, InputFault>
    ensures { Answers (in_unit unit plain.now qualified.now earlier (view value.now)) result }
{
    let count = optional::<NumberOf<0, MOST_AGE_UNITS>>(alloc, value, plain, qualified)?;
    one_of(earlier, count.map(|n| u64::from(n) * u64::from(unit)))
}

/// How a severity is to stand to another.
pub struct ComparedFields;

impl Reader for ComparedFields {
    type Output = Option<(Compare, Severity)>;

    ghost reads = { compared };

    #[tactic(auto, using(crate::proofs::Due::fault_first), unfolding(crate::specs::Inputs::compared, crate::specs::Members::known_only))]
    fn read(alloc: Global, value: &Value) -> Result<Option<(Compare, Severity)>, InputFault> {
        compared_names(value)?;
        let below = or_below(alloc, value, None)?;
        let equal = or_equal(alloc, value, below)?;
        or_above(alloc, value, equal)
    }
}

#[tactic(auto, unfolding(crate::specs::Inputs::compared_names))]
fn compared_names(value: &Value) -> Result<(), InputFault>
    ensures { Answers (compared_names (view value.now)) result }
{
    check_names(
        value,
        &[
            "below",
            "ietf-alarms:below",
            "is",
            "ietf-alarms:is",
            "above",
            "ietf-alarms:above",
        ],
    )
}

#[tactic(auto, unfolding(crate::specs::Inputs::or_below))]
fn or_below(
    alloc: Global,
    value: &Value,
    earlier: Option<(Compare, Severity)>,
) -> Result<Option<(Compare, Severity)>, InputFault>
    ensures { Answers (or_below earlier (view value.now)) result }
{
    by(
        alloc,
        Compare::Below,
        value,
        "below",
        "ietf-alarms:below",
        earlier,
    )
}

#[tactic(auto, unfolding(crate::specs::Inputs::or_equal))]
fn or_equal(
    alloc: Global,
    value: &Value,
    earlier: Option<(Compare, Severity)>,
) -> Result<Option<(Compare, Severity)>, InputFault>
    ensures { Answers (or_equal earlier (view value.now)) result }
{
    by(
        alloc,
        Compare::Equal,
        value,
        "is",
        "ietf-alarms:is",
        earlier,
    )
}

#[tactic(auto, unfolding(crate::specs::Inputs::or_above))]
fn or_above(
    alloc: Global,
    value: &Value,
    earlier: Option<(Compare, Severity)>,
) -> Result<Option<(Compare, Severity)>, InputFault>
    ensures { Answers (or_above earlier (view value.now)) result }
{
    by(
        alloc,
        Compare::Above,
        value,
        "above",
        "ietf-alarms:above",
        earlier,
    )
}

/// What one member asks of a severity, or what an earlier one asked. BadValue where both do.
#[tactic(auto, unfolding(crate::specs::Inputs::by))]
fn by(
    alloc: Global,
    compare: Compare,
    value: &Value,
    plain: &str,
    qualified: &str,
    earlier: Option<(Compare, Severity)>,
) -> Result<Option<(Compare, Severity)>, InputFault>
    ensures { Answers (by compare plain.now qualified.now earlier (view value.now)) result }
{
    let severity = optional::<WordOf<Severity>>(alloc, value, plain, qualified)?;
    one_of(earlier, severity.map(|severity| (compare, severity)))
}

/// The state and the operator of an alarm's newest operator entry.
pub struct NewestFields;

impl Reader for NewestFields {
    type Output = (Option<OperatorState>, Option<Text>);

    ghost reads = { newest };

    #[tactic(auto, using(crate::proofs::Due::fault_first), unfolding(crate::specs::Inputs::newest, crate::specs::Members::known_only))]
    fn read(
        alloc: Global,
        value: &Value,
    ) -> Result<(Option<OperatorState>, Option<Text>), InputFault> {
        check_names(
            value,
            &["state", "ietf-alarms:state", "user", "ietf-alarms:user"],
        )?;
        let state = optional::<WordOf<OperatorState>>(alloc, value, "state", "ietf-alarms:state")?;
        let user = optional::<TextOf<0, LONGEST_OPERATOR_NAME>>(
            alloc,
            value,
            "user",
            "ietf-alarms:user",
        )?;
        Ok((state, user))
    }
}

/// The filter of a purge.
pub struct PurgeFields;

impl Reader for PurgeFields {
    type Output = PurgeFilter;

    ghost reads = { purge };

    #[tactic(auto, using(crate::proofs::Due::fault_first), unfolding(crate::specs::Inputs::purge, crate::specs::Members::known_only))]
    fn read(alloc: Global, value: &Value) -> Result<PurgeFilter, InputFault> {
        check_names(
            value,
            &[
                "alarm-clearance-status",
                "ietf-alarms:alarm-clearance-status",
                "older-than",
                "ietf-alarms:older-than",
                "severity",
                "ietf-alarms:severity",
                "operator-state-filter",
                "ietf-alarms:operator-state-filter",
            ],
        )?;
        let clearance = or_default::<WordOf<Clearance>>(
            alloc,
            value,
            "alarm-clearance-status",
            "ietf-alarms:alarm-clearance-status",
            Clearance::Any,
        )?;
        let age = or_default::<AgeFields>(
            alloc,
            value,
            "older-than",
            "ietf-alarms:older-than",
            None,
        )?;
        let severity = or_default::<ComparedFields>(
            alloc,
            value,
            "severity",
            "ietf-alarms:severity",
            None,
        )?;
        let (state, user) = or_default::<NewestFields>(
            alloc,
            value,
            "operator-state-filter",
            "ietf-alarms:operator-state-filter",
            (None, None),
        )?;
        Ok(PurgeFilter {
            clearance,
            age,
            severity,
            state,
            user,
        })
    }
}

/// A body without a filter takes all.
#[tactic(auto, using(crate::proofs::Due::fault_first), unfolding(crate::specs::Inputs::purge_input, crate::specs::Members::known_only))]
pub fn purge_input(alloc: Global, side: Side, value: &Value) -> Result<Asked, InputFault>
    ensures { Answers (purge_input side (view value.now)) result }
{
    let all = PurgeFilter {
        clearance: Clearance::Any,
        age: None,
        severity: None,
        state: None,
        user: None,
    };
    let filter = body_or::<PurgeFields>(alloc, value, "input", "ietf-alarms:input", all)?;
    Ok(Asked::Whole(Request::Purge { side, filter }))
}
