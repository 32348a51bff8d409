//! The rules of the list: how many status entries an alarm keeps, and which changes are told.

ghost use Rattle.al_frame.specs.Frames.{maximum, rule};

use crate::fault::FrameFault;
use crate::field::Field;
use crate::number::{put_u16, u16_at};
use crate::word::Coded;
use al_base::Severity;
use al_notify::{Mode, NotifyRule};
use std::alloc::{AllocError, Global};

/// How many status entries an alarm keeps: 0 for all of them.
pub struct Maximum;

impl Field for Maximum {
    type Value = Option<u16>;

    ghost format = { maximum };

    #[tactic(auto, unfolding(crate::specs::Frames::maximum))]
    fn read(_alloc: Global, n: usize, bytes: &[u8]) -> Result<(Option<u16>, &[u8]), FrameFault> {
        let (most, rest) = u16_at(n, bytes)?;
        let max = if most == 0 { None } else { Some(most) };
        Ok((max, rest))
    }

    #[tactic(auto, unfolding(crate::specs::Frames::maximum))]
    fn len(_max: &Option<u16>) -> usize {
        2
    }

    #[tactic(auto, unfolding(crate::specs::Frames::maximum))]
    fn put(max: &Option<u16>, out: &mut Vec<u8>) -> Result<(), AllocError> {
        put_u16(max.unwrap_or(0), out)
    }
}

/// Which status changes are told.
pub struct Rule;

impl Field for Rule {
    type Value = NotifyRule;

    ghost format = { rule };

    #[tactic(auto, unfolding(crate::specs::Frames::rule))]
    fn read(alloc: Global, n: usize, bytes: &[u8]) -> Result<(NotifyRule, &[u8]), FrameFault> {
        let (mode, rest) = Coded::<Mode>::read(alloc, n, bytes)?;
        let (level, rest) = Coded::<Severity>::read(alloc, n, rest)?;
        Ok((NotifyRule { mode, level }, rest))
    }

    #[tactic(auto, unfolding(crate::specs::Frames::rule))]
    fn len(rule: &NotifyRule) -> usize {
        Coded::<Mode>::len(&rule.mode).saturating_add(Coded::<Severity>::len(&rule.level))
    }

    #[tactic(auto, unfolding(crate::specs::Frames::rule))]
    fn put(rule: &NotifyRule, out: &mut Vec<u8>) -> Result<(), AllocError> {
        Coded::<Mode>::put(&rule.mode, out)?;
        Coded::<Severity>::put(&rule.level, out)
    }
}
