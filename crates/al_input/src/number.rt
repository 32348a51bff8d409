//! Numbers and flags.

ghost use Rattle.al_input.specs.Readers.{flag, number};

use crate::fault::InputFault;
use crate::reader::Reader;
use serde_json::Value;
use std::alloc::Global;

/// A natural number in a range.
pub struct NumberOf<const LEAST: u16, const MOST: u16>;

impl<const LEAST: u16, const MOST: u16> Reader for NumberOf<LEAST, MOST> {
    type Output = u16;

    ghost reads = { number LEAST MOST };

    #[tactic(auto, unfolding(crate::specs::Readers::number))]
    fn read(_alloc: Global, value: &Value) -> Result<u16, InputFault> {
        let Some(number) = value.as_u64() else {
            return Err(InputFault::BadValue);
        };
        if number < u64::from(LEAST) || number > u64::from(MOST) {
            return Err(InputFault::BadValue);
        }
        Ok(number as u16)
    }
}

/// True or false.
pub struct Flag;

impl Reader for Flag {
    type Output = bool;

    ghost reads = { flag };

    #[tactic(auto, unfolding(crate::specs::Readers::flag))]
    fn read(_alloc: Global, value: &Value) -> Result<bool, InputFault> {
        match value.as_bool() {
            Some(flag) => Ok(flag),
            None => Err(InputFault::BadValue),
        }
    }
}
